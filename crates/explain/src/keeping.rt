//! The accesses of two lines, kept of a region.
ghost use Rattle.std.specs.Prelude.{◌≡◌, Contains, IfOk, OnOk};
ghost use Rattle.log_segment.specs.declared.segment.Segment.{Segment as Interval};
ghost use Rattle.stride_summary.specs.declared.run.Run.{Run as Accesses};
ghost use Rattle.explain.specs.Suspects.{HasPart, IsOnLines, KeepsRuns};

use log_segment::Segment;
use std::alloc::Global;
use stride_summary::Run;
use sw_base::Memory;

fn copy_of(run: &Run) -> Run
    ensures { result ≡ run.now }
{
    Run {
        base: run.base,
        stride: run.stride,
        count: run.count,
        size: run.size,
        write: run.write,
        atomic: run.atomic,
        line: run.line,
        site: run.site,
        held: run.held.copy(),
    }
}

fn runs_on(alloc: Global, runs: &[Run], line: u32) -> Result<Vec<Run>, Memory>
    ensures { IfOk result (λ kept. (run : Accesses) → Contains runs.now run → run.line ≡ line → Contains kept.items run) }
{
    let mut kept = Vec::new(alloc);
    for run in runs {
        if run.line == line {
            kept.push(copy_of(run))?;
        }
    }
    Ok(kept)
}

/// Keeps the interval's runs of a line, where it has any.
fn keep_part(
    alloc: Global,
    segment: &Segment,
    line: u32,
    kept: &mut Vec<Segment>,
) -> Result<(), Memory>
    ensures part { OnOk result ((run : Accesses) → Contains segment.now.runs.items run → run.line ≡ line → HasPart segment.now run kept.new.items) }
    ensures old { OnOk result ((part : Interval) → Contains kept.old.items part → Contains kept.new.items part) }
{
    let runs = runs_on(alloc, &segment.runs, line)?;
    if runs.is_empty() {
        return Ok(());
    }
    kept.push(Segment {
        path: segment.path.copy(),
        first: segment.first,
        last: segment.last,
        label: segment.label.copy(),
        runs,
    })?;
    Ok(())
}

/// Keeps the intervals' runs of a line.
fn keep_line(
    alloc: Global,
    segments: &[Segment],
    line: u32,
    kept: &mut Vec<Segment>,
) -> Result<(), Memory>
    ensures keeps { OnOk result (KeepsRuns (λ n. n ≡ line) segments.now kept.new.items) }
    ensures old { OnOk result ((part : Interval) → Contains kept.old.items part → Contains kept.new.items part) }
{
    for segment in segments {
        keep_part(alloc, segment, line, kept)?;
    }
    Ok(())
}

/// Keeps the intervals' runs of two lines, each interval's runs of a line as one. An interval with none is left out.
pub fn keep_lines(
    alloc: Global,
    segments: &[Segment],
    lines: (u32, u32),
    kept: &mut Vec<Segment>,
) -> Result<(), Memory>
    ensures keeps { OnOk result (KeepsRuns (IsOnLines lines) segments.now kept.new.items) }
    ensures old { OnOk result ((part : Interval) → Contains kept.old.items part → Contains kept.new.items part) }
{
    let (low, high) = lines;
    keep_line(alloc, segments, low, kept)?;
    if low == high {
        return Ok(());
    }
    keep_line(alloc, segments, high, kept)
}
