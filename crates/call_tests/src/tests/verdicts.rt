//! Verdicts: what `certify` prints of kernels.

use crate::tests::fixtures::{CERTIFY, Case, EMPTY, USAGE_LINE, Verdict, all_judged, all_pass};
use command_answer::{DONE, KERNEL_REFUSED, UNCERTAIN, USAGE};

/// A stencil whose lanes meet at two barriers in each step.
pub const HEAT: &str = "# heat
array u i64 64
array v i64 64
main {
u[0] = 1000
parallel 4 {
loop t in 0 .. 3 {
for i in 1 .. 63 {
v[i] = (u[i-1] + 2 * u[i] + u[i+1]) / 4
}
for i in 1 .. 63 {
u[i] = v[i]
}
}
}
}
";

/// Lane 1 reads the element that lane 0 writes last.
pub const SHIFT: &str =
    "array a i64 9\nmain { parallel 2 {\nfor i in 0 .. 8 static 4 { a[i+1] = a[i] }\n} }\n";

const VERDICTS: &[Verdict<'static>] = &[
    (
        HEAT,
        DONE,
        "certain\ntasks 5\nrecords 1147\nsum u 1592\nsum v 592\n",
    ),
    (SHIFT, UNCERTAIN, "race 3 3\nraces 1\nuncertain: races\n"),
    // A critical section, at its line; and so a loop whose chunks are drawn, and an update, where it is the first in the order of the text.
    (
        "array s i64 1\nmutex c\nmain { parallel 8 {\ncritical c { s[0] = s[0] + 1 }\n} }\n",
        UNCERTAIN,
        "uncertain: construct line 4\n",
    ),
    (
        "array a i64 10\nmain { parallel 3 {\nfor i in 0 .. 10 dynamic 4 { a[i] = i }\natomic\na[0] += 1 } }\n",
        UNCERTAIN,
        "uncertain: construct line 3\n",
    ),
    (
        "array a i64 1\nmutex c\nmain { parallel 2 {\natomic\na[0] += 1\ncritical c { } } }\n",
        UNCERTAIN,
        "uncertain: construct line 5\n",
    ),
    // A stop of lane 1. The races before it are none of the verdict.
    (
        "array a i64 8\nmain { parallel 2 {\nif tid == 1 {\nlet k = 8\na[k] = 1\n} } }\n",
        UNCERTAIN,
        "uncertain: stopped t-0.1.swl line 5: Index\n",
    ),
    (
        "array a i64 8\nmain { parallel 2 {\na[0] = 1\na[1] = 1 / (tid - 1)\n} }\n",
        UNCERTAIN,
        "uncertain: stopped t-0.1.swl line 4: DivZero\n",
    ),
    // A stop before the barrier comes before that of a smaller lane behind it.
    (
        "array a i64 2\nmain { parallel 2 {\nif tid == 1 {\na[9] = 1 }\nbarrier\na[9] = 1\n} }\n",
        UNCERTAIN,
        "uncertain: stopped t-0.1.swl line 4: Index\n",
    ),
    // Races in tasks of two regions below one another.
    (
        "array a i64 4\nmain { parallel 2 {\nif tid == 0 { parallel 2 {\na[tid] = 1 } }\nif tid == 1 { a[1] = 2 }\n} }\n",
        UNCERTAIN,
        "race 4 5\nraces 1\nuncertain: races\n",
    ),
    // A barrier between them orders them.
    (
        "array a i64 4\nmain { parallel 2 {\nif tid == 0 { parallel 2 {\na[tid] = 1 } }\nbarrier\nif tid == 1 { a[1] = 2 }\n} }\n",
        DONE,
        "certain\ntasks 5\nrecords 12\nsum a 3\n",
    ),
    (
        "array b i8 1 main { b[0] = 200 }",
        DONE,
        "certain\ntasks 1\nrecords 2\nsum b -56\n",
    ),
    (
        "array a i64 8\nmain { parallel 2 {\nloop j in 0 .. tid {\nbarrier }\n} }\n",
        KERNEL_REFUSED,
        "kernel line 4: NotUniform\n",
    ),
];

// Kernels that come to a limit.
const LARGE: &[Verdict<'static>] = &[
    (
        "array a i64 1 main { loop i in 0 .. 4194304 { a[0] = i } }",
        UNCERTAIN,
        "uncertain: stopped t.swl line 1: LogFull\n",
    ),
    (
        "main {\nloop k in 0 .. 1024 {\nparallel 64 { }\n} }\n",
        UNCERTAIN,
        "uncertain: stopped t.swl line 3: Tasks\n",
    ),
    // As many tasks as there may be: the root, 1,023 times 64 lanes, and 63. The root has a record for each region and an End.
    (
        "main {\nloop k in 0 .. 1023 {\nparallel 64 { }\n}\nparallel 63 { }\n}\n",
        DONE,
        "certain\ntasks 65536\nrecords 66560\n",
    ),
    // More barrier intervals than are compared, 1,000 of each lane.
    (
        "array a i64 64\nmain {\nloop r in 0 .. 2 {\nparallel 64 {\nloop i in 0 .. 1000 {\na[tid] = i\nbarrier\n} } } }\n",
        UNCERTAIN,
        "uncertain: segments at t-1.1.swl record 1073\n",
    ),
    // Two lanes that race come before them, with an interval each. No race is told.
    (
        "array a i64 64\nmain {\nparallel 2 {\na[0] = 1\n}\nloop r in 0 .. 2 {\nparallel 64 {\nloop i in 0 .. 1000 {\na[tid] = i\nbarrier\n} } } }\n",
        UNCERTAIN,
        "uncertain: segments at t-2.1.swl record 1069\n",
    ),
];

#[test]
fn limits_have_their_verdicts(rt: HostRuntime) {
    all_judged(&rt, rt.alloc(), LARGE);
}

// The record of the root's region, and four times as many records as a log has room for, would be one too many: of the last of these lanes.
const LONG: &str =
    "array a i64 64\nmain { parallel 8 {\nloop i in 0 .. 4194303 { a[tid] = i }\n} }\n";

#[test]
fn a_run_of_too_many_records_is_long(rt: HostRuntime) {
    let long = (
        LONG,
        UNCERTAIN,
        "uncertain: long at t-0.3.swl record 4194304\n",
    );
    all_judged(&rt, rt.alloc(), &[long]);
}

// A folder is neither read nor written.
const ALONE: &[Case<'static>] = &[Case {
    held: &[("k", SHIFT)],
    asked: &[
        (CERTIFY, UNCERTAIN, "race 3 3\nraces 1\nuncertain: races\n"),
        (&["certify", "l"], KERNEL_REFUSED, "no kernel\n"),
        (&["certify"], USAGE, USAGE_LINE),
        (&["certify", ""], USAGE, USAGE_LINE),
        (&["certify", "k", "d"], USAGE, USAGE_LINE),
    ],
    left: &[("d/index.swi", None)],
    ..EMPTY
}];

#[test]
fn kernels_have_their_verdicts(rt: HostRuntime) {
    all_judged(&rt, rt.alloc(), VERDICTS);
    all_pass(&rt, rt.alloc(), ALONE);
}
