//! Which barrier intervals a record may race with, by their strided runs.
ghost use Rattle.std.specs.Prelude.{◌≡◌, ◌<◌, All, Contains, IsTrue, IfOk, IfSome, OnOk};
ghost use Rattle.log_segment.specs.Accesses.{key_at};
ghost use Rattle.log_segment.specs.declared.segment.Segment.{Segment as Interval};
ghost use Rattle.pair_compare.specs.Compare.{IsRacingPair, IsSegmentPair};
ghost use Rattle.stride_summary.specs.Run.{HasRunAddress, run_key};
ghost use Rattle.explain.specs.Filed.{HasOne};
ghost use Rattle.explain.specs.Suspects.{FindsMet, IsAmong, IsRunWithin, MayMeet, root_team};
ghost use Rattle.explain.specs.declared.stretch.RecordRange.{RecordRange as Records};

use crate::finding::Found;
use crate::stretch::{RecordRange, is_within};
use crate::suspect::{Suspect, line_of};
use crate::suspects::Suspects;
use log_segment::Segment;
use pair_compare::compare_alone;
use std::alloc::Global;
use stride_summary::Run;
use sw_base::{Memory, Path};

/// The last address at which an access of eight bytes may stand.
const LAST_ADDRESS: u64 = (1 << 48) - 8;

/// Whether accesses of two of the intervals race in these lines.
pub fn has_pair(alloc: Global, segments: &[Segment], lines: (u32, u32)) -> Result<bool, Memory>
    ensures { IfOk result (λ yes. IsSegmentPair segments.now lines → IsTrue yes) }
{
    let pairs = compare_alone(alloc, segments)?;
    Ok(pairs.contains(&lines))
}

/// The intervals, each with a tree.
pub fn suspects_of<'s>(alloc: Global, segments: &'s [Segment]) -> Result<Vec<Suspect<'s>>, Memory>
    ensures { IfOk result (λ suspects. suspects.items ≡ segments.now) }
{
    let mut suspects = Vec::new(alloc);
    for segment in segments {
        suspects.push(Suspect::build(alloc, segment)?)?;
    }
    Ok(suspects)
}

/// Whether an access of the interval races in these lines with one of these suspects. All its accesses are of the line that is told.
fn meets(
    alloc: Global,
    own: &Segment,
    line: Option<u32>,
    suspects: &[&Suspect<'_>],
    lines: (u32, u32),
) -> Result<bool, Memory>
    requires { IfSome line (λ n. All (λ run. run.line ≡ n) own.now.runs.items) }
    ensures { IfOk result (λ yes. (their : Interval) → HasOne their suspects.now → IsRacingPair own.now their lines → IsTrue yes) }
{
    for suspect in suspects {
        let racing = suspect.has_race(alloc, own, line, lines)?;
        if racing {
            return Ok(true);
        }
    }
    Ok(false)
}

/// Whether an access of a suspect races in these lines with one of another.
fn is_racing(
    alloc: Global,
    suspects: &Suspects<'_, '_>,
    suspect: &Suspect<'_>,
    lines: (u32, u32),
) -> Result<bool, Memory>
    ensures { IfOk result (λ yes. (their : Interval) → Contains suspects.now their → root_team suspect.now.label ≡ root_team their.label → IsRacingPair suspect.now their lines → IsTrue yes) }
{
    let own = suspect.segment();
    let Some(beside) = suspects.beside(&own.label) else {
        return Ok(false);
    };
    meets(alloc, own, suspect.line(), beside, lines)
}

/// Whether an access of the task races in these lines with one of a suspect.
pub fn is_row_suspected(
    alloc: Global,
    suspects: &Suspects<'_, '_>,
    path: &Path,
    lines: (u32, u32),
) -> Result<bool, Memory>
    ensures { IfOk result (λ yes. (own their : Interval) → Contains suspects.now own → Contains suspects.now their → own.path ≡ path.now → root_team own.label ≡ root_team their.label
        → IsRacingPair own their lines → IsTrue yes) }
{
    let Some(owns) = suspects.of_task(path) else {
        return Ok(false);
    };
    for own in owns {
        let racing = is_racing(alloc, suspects, own, lines)?;
        if racing {
            return Ok(true);
        }
    }
    Ok(false)
}

/// The run of a record alone, where it has the form of an access.
fn run_of(one: &Found) -> Option<Run>
    ensures { IfSome result (λ run. (run_key run ≡ key_at one.now.event one.now.held) × HasRunAddress run one.now.event.addr) }
{
    let event = &one.event;
    if !matches!(event.size, 1 | 2 | 4 | 8) || event.addr > LAST_ADDRESS {
        return None;
    }
    Some(Run {
        base: event.addr,
        stride: 0,
        count: 1,
        size: event.size,
        write: event.kind.is_change(),
        atomic: event.kind.is_update(),
        line: event.line,
        site: event.site,
        held: one.held.copy(),
    })
}

/// An interval like this one that has the record alone, where it has the form of an access.
fn alone_of(alloc: Global, own: &Segment, one: &Found) -> Result<Option<Segment>, Memory>
    ensures { IfOk result (λ alone. (their : Interval) (lines : _) → MayMeet own.now their one.now lines → IfSome alone (λ probe. IsRacingPair probe their lines)) }
{
    let Some(run) = run_of(one) else {
        return Ok(None);
    };
    let mut runs = Vec::new(alloc);
    runs.push(run)?;
    Ok(Some(Segment {
        path: own.path.copy(),
        first: own.first,
        last: own.last,
        label: own.label.copy(),
        runs,
    }))
}

/// Whether the record of such an interval may race in these lines with an access of a suspect.
fn may_meet(
    alloc: Global,
    alone: &Option<Segment>,
    their: &Suspect<'_>,
    lines: (u32, u32),
) -> Result<bool, Memory>
    ensures { IfOk result (λ yes. IfSome alone.now (λ probe. IsRacingPair probe their.now lines) → IsTrue yes) }
{
    match alone {
        Some(probe) => their.has_race(alloc, probe, line_of(&probe.runs), lines),
        None => Ok(true),
    }
}

/// Adds the suspect where it has an access that may race in these lines with the record of such an interval.
fn add_if_met(
    alloc: Global,
    alone: &Option<Segment>,
    their: &Suspect<'_>,
    lines: (u32, u32),
    met: &mut Vec<RecordRange>,
) -> Result<(), Memory>
    ensures met { OnOk result (IfSome alone.now (λ probe. IsRacingPair probe their.now lines) → IsAmong their.now met.new.items) }
    ensures old { OnOk result ((s : Records) → Contains met.old.items s → Contains met.new.items s) }
{
    let racing = may_meet(alloc, alone, their, lines)?;
    if racing {
        met.push(their.stretch())?;
    }
    Ok(())
}

/// Adds those of these suspects with an access that may race in these lines with the record, which has the label of the interval.
fn add_met(
    alloc: Global,
    own: &Segment,
    suspects: &[&Suspect<'_>],
    one: &Found,
    lines: (u32, u32),
    met: &mut Vec<RecordRange>,
) -> Result<(), Memory>
    ensures met { OnOk result ((their : Interval) → HasOne their suspects.now → MayMeet own.now their one.now lines → IsAmong their met.new.items) }
    ensures old { OnOk result ((s : Records) → Contains met.old.items s → Contains met.new.items s) }
{
    let alone = alone_of(alloc, own, one)?;
    for their in suspects {
        add_if_met(alloc, &alone, their, lines, met)?;
    }
    Ok(())
}

/// The same of all suspects, where the interval has the record of this number.
fn add_met_within(
    alloc: Global,
    suspects: &Suspects<'_, '_>,
    own: &Segment,
    path: &Path,
    number: u32,
    one: &Found,
    lines: (u32, u32),
    met: &mut Vec<RecordRange>,
) -> Result<(), Memory>
    ensures met { OnOk result (IsRunWithin own.now.path own.now.first own.now.last path.now number → (their : Interval) → Contains suspects.now their
        → root_team own.now.label ≡ root_team their.label → MayMeet own.now their one.now lines → IsAmong their met.new.items) }
    ensures old { OnOk result ((s : Records) → Contains met.old.items s → Contains met.new.items s) }
{
    if !is_within(&own.path, own.first, own.last, path, number) {
        return Ok(());
    }
    let Some(beside) = suspects.beside(&own.label) else {
        return Ok(());
    };
    add_met(alloc, own, beside, one, lines, met)
}

/// The suspects with an access that may race in these lines with the record of this number: each with one that does.
pub fn met_by(
    alloc: Global,
    suspects: &Suspects<'_, '_>,
    path: &Path,
    number: u32,
    one: &Found,
    lines: (u32, u32),
) -> Result<Vec<RecordRange>, Memory>
    ensures { IfOk result (λ met. FindsMet suspects.now path.now number one.now lines met.items) }
{
    let mut met = Vec::new(alloc);
    let Some(owns) = suspects.of_task(path) else {
        return Ok(met);
    };
    for suspect in owns {
        let own = suspect.segment();
        add_met_within(alloc, suspects, own, path, number, one, lines, &mut met)?;
    }
    Ok(met)
}
