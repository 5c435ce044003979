//! The text of each reason for which a folder is refused.

use crate::tests::fixtures::{Case, EMPTY, all_pass, answers};
use command_answer::FOLDER_REFUSED;
use made_folders::{BARRIER, END, ROOT, Rec, lock, region, unlock};
use memory_environment::MemFolder;
use std::alloc::Global;
use std::process::Abort;

const CHECK: &[&str] = &["check", "d", "2"];

// The log of a root alone that is refused so.
macro_rules! root_refused {
    ($records:expr, $text:expr) => {
        Case {
            tasks: &[(&[], $records)],
            asked: &[(CHECK, FOLDER_REFUSED, $text)],
            ..EMPTY
        }
    };
}

// A folder of files that is refused so.
macro_rules! files_refused {
    ($files:expr, $text:expr) => {
        Case {
            held: $files,
            asked: &[(CHECK, FOLDER_REFUSED, $text)],
            ..EMPTY
        }
    };
}

const NINE_LOCKS: &[Rec] = &[
    lock!(1, 0),
    lock!(1, 1),
    lock!(1, 2),
    lock!(1, 3),
    lock!(1, 4),
    lock!(1, 5),
    lock!(1, 6),
    lock!(1, 7),
    lock!(1, 8),
    END,
];

// The same without its End.
const NINE_UNENDED: &[Rec] = &[
    lock!(1, 0),
    lock!(1, 1),
    lock!(1, 2),
    lock!(1, 3),
    lock!(1, 4),
    lock!(1, 5),
    lock!(1, 6),
    lock!(1, 7),
    lock!(1, 8),
];

const FIELDS: &[Case<'static>] = &[
    root_refused!(&[(10, 0, 1, 0, 0), END], "bad log t.swl record 1: Kind\n"),
    root_refused!(&[(1, 3, 1, 4096, 0), END], "bad log t.swl record 1: Size\n"),
    root_refused!(
        &[(1, 8, 0, 4096, 0), END],
        "bad log t.swl record 1: LineZero\n"
    ),
    root_refused!(
        &[(2, 8, 1, 281_474_976_710_649, 0), END],
        "bad log t.swl record 1: Address\n"
    ),
    root_refused!(&[region!(1, 65), END], "bad log t.swl record 1: Span\n"),
    root_refused!(
        &[(5, 0, 1, 1, 0), END],
        "bad log t.swl record 1: Reserved\n"
    ),
];

#[test]
fn a_bad_field_of_a_record_is_told(rt: HostRuntime) {
    all_pass(&rt, rt.alloc(), FIELDS);
}

const ENDS: &[Case<'static>] = &[
    root_refused!(&[END, END], "bad log t.swl record 1: EndEarly\n"),
    root_refused!(
        &[(2, 8, 1, 4096, 0)],
        "bad log t.swl record 1: EndMissing\n"
    ),
    // A last record that isn't an End, and that breaks a rule which is told after this.
    root_refused!(&[BARRIER], "bad log t.swl record 1: EndMissing\n"),
    root_refused!(&[unlock!(1, 1)], "bad log t.swl record 1: EndMissing\n"),
    root_refused!(&[region!(1, 1)], "bad log t.swl record 1: EndMissing\n"),
    root_refused!(
        &[lock!(1, 1), region!(2, 1)],
        "bad log t.swl record 2: EndMissing\n"
    ),
    root_refused!(NINE_UNENDED, "bad log t.swl record 9: EndMissing\n"),
];

#[test]
fn an_end_that_is_early_or_missing_is_told(rt: HostRuntime) {
    all_pass(&rt, rt.alloc(), ENDS);
}

// With an End behind them these rules are told.
const RULES: &[Case<'static>] = &[
    root_refused!(
        &[lock!(1, 1), lock!(1, 1), END],
        "bad log t.swl record 2: LockTwice\n"
    ),
    root_refused!(NINE_LOCKS, "bad log t.swl record 9: LocksDeep\n"),
    root_refused!(
        &[unlock!(1, 1), END],
        "bad log t.swl record 1: UnlockOther\n"
    ),
    root_refused!(&[BARRIER, END], "bad log t.swl record 1: RootBarrier\n"),
    root_refused!(&[lock!(1, 1), END], "bad log t.swl record 2: LockOpen\n"),
    root_refused!(
        &[region!(1, 1), END],
        "bad log t.swl record 1: RegionRows\n"
    ),
    Case {
        tasks: &[
            (&[], &[lock!(1, 1), region!(2, 1), END]),
            (&[(0, 0, 1)], &[END]),
        ],
        asked: &[(
            CHECK,
            FOLDER_REFUSED,
            "bad log t.swl record 2: RegionLocked\n",
        )],
        ..EMPTY
    },
    Case {
        tasks: &[
            (&[], &[region!(1, 1), END]),
            (&[(0, 0, 1)], &[lock!(2, 1), BARRIER, END]),
        ],
        asked: &[(
            CHECK,
            FOLDER_REFUSED,
            "bad log t-0.0.swl record 2: BarrierLocked\n",
        )],
        ..EMPTY
    },
];

#[test]
fn a_rule_that_a_record_breaks_is_told(rt: HostRuntime) {
    all_pass(&rt, rt.alloc(), RULES);
}

// The index of a root alone whose log has one record.
const ROOT_ROW: &str =
    "SWIDX002\0\0\0\0\0\0\0\0\0\0\0\0\0\0\0\0\0\0\0\0\0\0\0\0\0\0\0\0\0\0\0\0\0\0\0\0\0\0\0\0\0\0\0\0\0\0\0\u{1}";

const FILES: &[Case<'static>] = &[
    files_refused!(&[("d/index.swi", "SWIDX001")], "bad index row 0: Old\n"),
    files_refused!(&[("d/index.swi", "SWIDX000")], "bad index row 0: Header\n"),
    // A path of five steps.
    files_refused!(
        &[(
            "d/index.swi",
            "SWIDX002\0\0\0\u{5}\0\0\0\0\0\0\0\0\0\0\0\0\0\0\0\0\0\0\0\0\0\0\0\0\0\0\0\0\0\0\0\0\0\0\0\0\0\0\0\0\0\0\0\u{1}"
        )],
        "bad index row 1: Depth\n"
    ),
    Case {
        tasks: &[(&[], ROOT), (&[(0, 2, 2)], &[END])],
        asked: &[(CHECK, FOLDER_REFUSED, "bad index row 2: Lane\n")],
        ..EMPTY
    },
    files_refused!(
        &[("d/index.swi", ROOT_ROW), ("d/t.swl", "SWLOG000")],
        "bad log t.swl record 0: Header\n"
    ),
    // An End in line 9, and a byte after it.
    files_refused!(
        &[
            ("d/index.swi", ROOT_ROW),
            (
                "d/t.swl",
                "SWLOG002\u{8}\0\0\0\0\0\0\u{9}\0\0\0\0\0\0\0\0\0\0\0\0\0\0\0\0."
            ),
        ],
        "bad log t.swl record 2: Extra\n"
    ),
];

#[test]
fn bytes_that_are_no_index_or_log_are_told(rt: HostRuntime) {
    all_pass(&rt, rt.alloc(), FILES);
}

// The row of a lane that is alone in this region, whose log has one record.
fn add_row(rt: &impl Abort, index: &mut Vec<u8>, region: u32) {
    index
        .extend_from_slice(&[0, 0, 0, 1, 0, 0, 0, 0])
        .expect(rt, "memory");
    index
        .extend_from_slice(&region.to_be_bytes())
        .expect(rt, "memory");
    index.extend_from_slice(&[0, 0, 0, 1]).expect(rt, "memory");
    index.extend_from_slice(&[0; 31]).expect(rt, "memory");
    index.push(1).expect(rt, "memory");
}

// The index of a root with 65,535 regions of one lane each, and a byte after it.
fn crowded_index(rt: &impl Abort, alloc: Global) -> Vec<u8> {
    let mut index = ROOT_ROW.as_bytes().to_vec(alloc).expect(rt, "memory");
    for region in 0..65_535 {
        add_row(rt, &mut index, region);
    }
    index.push(0).expect(rt, "memory");
    index
}

#[test]
fn a_row_too_many_is_told(rt: HostRuntime) {
    let alloc = rt.alloc();
    let mut folder = MemFolder::new(alloc).expect(&rt, "memory");
    folder
        .hold("d/index.swi", &crowded_index(&rt, alloc))
        .expect(&rt, "memory");
    let text = "bad index row 65537: TooMany\n";
    answers(&rt, alloc, &mut folder, CHECK, FOLDER_REFUSED, text);
}
