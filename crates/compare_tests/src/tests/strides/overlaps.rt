use mutex_set::Held;
use std::alloc::Global;
use std::process::Abort;
use stride_overlap::overlap;
use stride_summary::Run;

fn run_of(base: u64, stride: u64, count: u32, size: u8) -> Option<Run> {
    if count == 0 || (stride == 0) != (count == 1) || !matches!(size, 1 | 2 | 4 | 8) {
        return None;
    }
    let last = u64::from(count - 1).checked_mul(stride)?.checked_add(base)?;
    if last >= (1 << 48) - 8 {
        return None;
    }
    Some(Run {
        base,
        stride,
        count,
        size,
        write: true,
        atomic: false,
        line: 1,
        site: 0,
        held: Held::none(),
    })
}

fn byte_is_listed(run: &Run, byte: u64) -> bool {
    let mut address = run.base;
    for _ in 0..run.count {
        if address <= byte && byte - address < u64::from(run.size) {
            return true;
        }
        address = address.wrapping_add(run.stride);
    }
    false
}

// The run's bytes below 48, one bit each.
fn bytes_of(run: &Run) -> u64 {
    let mut bytes = 0;
    for byte in 0..48 {
        if byte_is_listed(run, byte) {
            bytes |= 1 << byte;
        }
    }
    bytes
}

// A run by its base, stride, count and size.
type Shape = (u64, u64, u32, u8);

// Whether the two runs overlap, where they are runs.
fn meet(one: Shape, other: Shape) -> Option<bool> {
    let one = run_of(one.0, one.1, one.2, one.3)?;
    let other = run_of(other.0, other.1, other.2, other.3)?;
    Some(overlap(&one, &other))
}

#[test]
fn interleaved_runs_are_apart(rt: HostRuntime) {
    assert!(rt; meet((0, 8, 4, 4), (4, 8, 4, 4)) == Some(false));
}

#[test]
fn runs_meet_at_a_common_multiple_in_both(rt: HostRuntime) {
    let threes = (3, 9, 2, 1);
    assert!(rt;
        meet((0, 6, 3, 1), threes) == Some(true) && meet((0, 6, 2, 1), threes) == Some(false)
    );
}

#[test]
fn eight_bytes_meet_their_last_and_not_the_next(rt: HostRuntime) {
    let eight = (100, 0, 1, 8);
    assert!(rt;
        meet(eight, (107, 0, 1, 1)) == Some(true) && meet(eight, (108, 0, 1, 1)) == Some(false)
    );
}

#[test]
fn long_runs_of_even_strides_meet_at_even_bytes(rt: HostRuntime) {
    let long = (0, 67_108_864, 4_194_304, 1);
    assert!(rt;
        meet(long, (1, 67_108_862, 4_194_304, 1)) == Some(false)
            && meet(long, (2, 67_108_862, 4_194_304, 1)) == Some(true)
    );
}

const TOP: u64 = (1 << 48) - 9;

const ENDS: Shape = (0, TOP, 2, 8);

const ALL: Shape = (0, 1, u32::MAX, 1);

#[test]
fn the_greatest_numbers_are_met(rt: HostRuntime) {
    let table = [
        (ENDS, (TOP, 0, 1, 1), true),
        ((1, TOP - 1, 2, 1), ENDS, true),
        ((8, TOP - 9, 2, 1), ENDS, false),
        (ALL, ((1 << 32) - 2, 0, 1, 1), true),
        (ALL, ((1 << 32) - 1, 0, 1, 1), false),
    ];
    for (one, other, due) in table {
        assert!(rt; meet(one, other) == Some(due), "{one:?} and {other:?}");
    }
}

fn small_runs(rt: &impl Abort, alloc: Global) -> Vec<(Run, u64)> {
    let mut runs = Vec::new(alloc);
    for number in 0..1664 {
        let (base, stride) = (number / 128, number / 16 % 8);
        let (count, size) = (number / 4 % 4 + 1, 1 << (number % 4));
        if let Some(run) = run_of(base, stride, count as u32, size as u8) {
            let bytes = bytes_of(&run);
            runs.push((run, bytes)).expect(rt, "memory");
        }
    }
    runs
}

// Whether a run overlaps with each of these exactly where their bytes do.
fn overlaps_as_its_bytes(run: &Run, bytes: u64, runs: &[(Run, u64)]) -> bool {
    for (other, others) in runs {
        if overlap(run, other) != (bytes & *others != 0) {
            return false;
        }
    }
    true
}

#[test]
fn small_runs_overlap_where_their_bytes_do(rt: HostRuntime) {
    let runs = small_runs(&rt, rt.alloc());
    assert!(rt; runs.len() == 1144);
    for (run, bytes) in &runs {
        assert!(rt; overlaps_as_its_bytes(run, *bytes, &runs));
    }
}
