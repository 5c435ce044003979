//! The check of one log.
ghost use Rattle.std.specs.Prelude.{◌≡◌, ◌+◌, ◌-◌, ◌*◌, ◌<◌, ◌≤◌, ℕ, List, Option, [], ◌∷◌, ◌++◌, length, drop, IfOk, IfErr, IsErrOf, IsTrue, IsFalse, OnOk};
ghost use Rattle.log_format.specs.Limit.{record_limit};
ghost use Rattle.log_format.specs.Table.{HasAddress, Spells};
ghost use Rattle.log_format.specs.declared.format.Format.{Format};
ghost use Rattle.log_format.specs.declared.record.Record.{Record};
ghost use Rattle.log_segment.specs.declared.segment.Segment.{Segment};
ghost use Rattle.log_segment.specs.Walking.{IsOwnAfter};
ghost use Rattle.log_walk.specs.Check.{of_why, IsNextRefused, ChecksLog, RefusesLog};
ghost use Rattle.log_walk.specs.LogSoFar.{LogSoFar, WhereSoFar};
ghost use Rattle.log_walk.specs.Rules.{BreaksNone, log_task_of};
ghost use Rattle.log_walk.specs.State.{IsStateAfter, IsWalkAfter};
ghost use Rattle.log_walk.specs.Unread.{CountsFaults, unread};
ghost use Rattle.race_model.specs.LogFault.{max_segments};
ghost use Rattle.race_model.specs.Label.{Triple};

use crate::state::State;
use crate::task::Task;
use crate::window::Window;
use log_format::{Format, RECORD_SIZE, Record, Why, decode_as};
use log_segment::{Segment, Walk};
use race_model::RecordWhy;
use span_label::Label;
use std::alloc::{AllocFailed, Global};
use sw_base::{File, Memory, Trouble};

/// Why a log is refused.
#[derive(Clone, Copy)]
pub enum LogFault {
    /// The record of this number breaks this rule.
    Bad { number: u32, why: RecordWhy },
    /// The record of this number opens one segment too many.
    TooMany { number: u32 },
    /// A read failed.
    ReadFault,
    /// No memory was found.
    Memory,
}

impl From<Trouble> for LogFault {
    ghost use Rattle.std.specs.Prelude.{◌≡◌};
    ghost use Rattle.log_walk.specs.Check.{log_fault_of};

    ghost from_gives = { λ trouble e. e ≡ log_fault_of trouble };

    fn from(trouble: Trouble) -> Self {
        match trouble {
            Trouble::Memory => LogFault::Memory,
            Trouble::Failed => LogFault::ReadFault,
        }
    }
}

impl<T: Drop> From<AllocFailed<T>> for LogFault {
    ghost use Rattle.std.specs.Prelude.{◌≡◌};
    ghost use Rattle.log_walk.specs.declared.check.LogFault.TheVariants as fault;

    ghost from_gives = { λ _ e. e ≡ fault.Memory };

    fn from(_: AllocFailed<T>) -> Self {
        LogFault::Memory
    }
}

impl From<Memory> for LogFault {
    ghost use Rattle.std.specs.Prelude.{◌≡◌};
    ghost use Rattle.log_walk.specs.declared.check.LogFault.TheVariants as fault;

    ghost from_gives = { λ _ e. e ≡ fault.Memory };

    fn from(_: Memory) -> Self {
        LogFault::Memory
    }
}

/// What is told of a log that is good.
#[derive(Drop)]
pub struct Checked {
    /// The label of each of its Regions.
    pub forks: Vec<Label>,
    /// How many barriers it has.
    pub barriers: u32,
    /// How many segments it and the earlier logs have.
    pub segments: u32,
}

/// The rule of a log that a fault of a record's bytes breaks.
fn rule_of(why: Why) -> RecordWhy
    ensures { result ≡ of_why why }
{
    match why {
        Why::Kind => RecordWhy::Kind,
        Why::Size => RecordWhy::Size,
        Why::LineZero => RecordWhy::LineZero,
        Why::Address => RecordWhy::Address,
        Why::Span => RecordWhy::Span,
        Why::Reserved => RecordWhy::Reserved,
    }
}

/// Takes the next record, where it keeps the rules.
fn accept(
    state: &mut State,
    walk: &Walk,
    task: &Task,
    number: u32,
    next: &Record,
) -> Result<(), LogFault>
    requires address { HasAddress next.now.kind next.now }
    requires segments { state.old.segments ≤ max_segments }
    requires barriers { state.old.barriers < number }
    ensures keeps { (opened : ℕ) (before : List Record) → IsStateAfter state.old opened before → IsWalkAfter walk.now before → number ≡ length before + 1
        → OnOk result (BreaksNone (log_task_of task.now) before next.now) }
    ensures follows { (opened : ℕ) (before : List Record) → IsStateAfter state.old opened before → IsWalkAfter walk.now before → number ≡ length before + 1
        → OnOk result (IsStateAfter state.new opened (before ++ next.now ∷ [])) }
    ensures refused { (format : Format) (bytes : List ℕ) (opened : ℕ) (before : List Record) → Spells format bytes next.now
        → IsStateAfter state.old opened before → IsWalkAfter walk.now before → number ≡ length before + 1
        → IfErr result (λ e. IsNextRefused format bytes (log_task_of task.now) opened before number e) }
    ensures read { IsErrOf result LogFault.ReadFault → ⊥ }
    ensures limit { OnOk result (state.new.segments ≤ max_segments) }
    ensures barriers { OnOk result (state.new.barriers ≤ number) }
{
    if let Some(why) = state.broken(task, walk.forks.len(), number, next) {
        return Err(LogFault::Bad { number, why });
    }
    if !state.count(next.kind, walk.is_open()) {
        return Err(LogFault::TooMany { number });
    }
    Ok(())
}

/// Goes over the whole records that are ahead, where they keep the rules, and tells how many records of the log were gone
/// over by then. So many were before.
fn walk_ahead(
    alloc: Global,
    format: Format,
    state: &mut State,
    walk: &mut Walk,
    task: &Task,
    before: u32,
    ahead: &[u8],
    found: &mut Vec<Segment>,
) -> Result<u32, LogFault>
    requires records { task.now.records ≤ record_limit }
    requires before { before ≤ task.now.records }
    requires so { (bytes : Option (List ℕ)) × (rest : Option (List ℕ)) × (opened : ℕ) × (label : List Triple) × (old : List Segment)
        × LogSoFar format bytes (log_task_of task.now) opened label state.old walk.old (unread ahead.now rest) old found.old.items before }
    ensures goes { (rest : Option (List ℕ)) → WhereSoFar format (log_task_of task.now) state.old walk.old (unread ahead.now rest) found.old.items before (λ bytes opened label old.
        IfOk result (λ after. LogSoFar format bytes (log_task_of task.now) opened label state.new walk.new (unread (drop (24 * (after - before)) ahead.now) rest) old found.new.items after)) }
    ensures within { IfOk result (λ after. (before ≤ after) × (after ≤ task.now.records) × (24 * (after - before) ≤ length ahead.now)) }
    ensures all { IfOk result (λ after. after < task.now.records → length ahead.now < 24 * (after - before) + 24) }
    ensures refused { (rest : Option (List ℕ)) → WhereSoFar format (log_task_of task.now) state.old walk.old (unread ahead.now rest) found.old.items before (λ bytes opened label old.
        IfErr result (RefusesLog format bytes (log_task_of task.now) opened)) }
    ensures read { IsErrOf result LogFault.ReadFault → ⊥ }
{
    let mut after = before;
    let mut rest = ahead;
    'records: while after < task.records {
        let Some((bytes, later)) = rest.split_first_chunk::<RECORD_SIZE>() else {
            return Ok(after);
        };
        // The record stays where it was read: taking it out would cost more than the rest of its way.
        let read = decode_as(format, bytes);
        let next = match &read {
            Ok(next) => next,
            Err(why) => {
                return Err(LogFault::Bad {
                    number: after + 1,
                    why: rule_of(*why),
                });
            }
        };
        accept(state, walk, task, after + 1, next)?;
        walk.step(alloc, &task.path, after + 1, next, &state.held, found)?;
        after += 1;
        rest = later;
    }
    Ok(after)
}

/// Goes over the next records of a log, at least one, where they keep the rules, and tells how many were gone over by then.
fn next_records<T: File>(
    alloc: Global,
    format: Format,
    file: &mut T,
    window: &mut Window,
    state: &mut State,
    walk: &mut Walk,
    task: &Task,
    before: u32,
    found: &mut Vec<Segment>,
) -> Result<u32, LogFault>
    requires records { task.now.records ≤ record_limit }
    requires before { before < task.now.records }
    requires so { (bytes : Option (List ℕ)) × (opened : ℕ) × (label : List Triple) × (old : List Segment)
        × LogSoFar format bytes (log_task_of task.now) opened label state.old walk.old (unread window.old (T.rest file.old)) old found.old.items before }
    ensures goes { WhereSoFar format (log_task_of task.now) state.old walk.old (unread window.old (T.rest file.old)) found.old.items before (λ bytes opened label old.
        IfOk result (λ after. LogSoFar format bytes (log_task_of task.now) opened label state.new walk.new (unread window.new (T.rest file.new)) old found.new.items after)) }
    ensures within { IfOk result (λ after. (before < after) × (after ≤ task.now.records)) }
    ensures refused { WhereSoFar format (log_task_of task.now) state.old walk.old (unread window.old (T.rest file.old)) found.old.items before (λ bytes opened label old.
        IfErr result (RefusesLog format bytes (log_task_of task.now) opened)) }

    ensures reads { CountsFaults (T.faults file.old) (T.faults file.new) (IsErrOf result LogFault.ReadFault) }
{
    window.fill(alloc, file, RECORD_SIZE)?;
    let ahead = window.ahead();
    let after = walk_ahead(alloc, format, state, walk, task, before, ahead, found)?;
    if after == before {
        return Err(LogFault::Bad {
            number: before + 1,
            why: RecordWhy::Cut,
        });
    }
    window.skip(RECORD_SIZE * (after - before) as usize);
    Ok(after)
}

/// Goes over the log that was opened, where it is good, and adds its segments. Else the first place at which it isn't.
pub fn check_log<T: File>(
    alloc: Global,
    format: Format,
    file: &mut T,
    window: &mut Window,
    task: &Task,
    opened: u32,
    label: Label,
    found: &mut Vec<Segment>,
) -> Result<Checked, LogFault>
    requires opened { opened ≤ max_segments }
    requires records { task.now.records ≤ record_limit }
    requires own { IsOwnAfter label 1 }
    ensures good { IfOk result (λ checked. ChecksLog format (T.rest file.old) task.now opened label checked found.old.items found.new.items) }
    ensures refused { IfErr result (RefusesLog format (T.rest file.old) (log_task_of task.now) opened) }

    ensures reads { CountsFaults (T.faults file.old) (T.faults file.new) (IsErrOf result LogFault.ReadFault) }
{
    if !window.pass_header(alloc, file, &format.log_header())? {
        return Err(LogFault::Bad {
            number: 0,
            why: RecordWhy::Header,
        });
    }
    let mut state = State::new(opened);
    let mut walk = Walk::new(alloc, label);
    let mut index = 0;
    'windows: while index < task.records {
        index = next_records(
            alloc, format, file, window, &mut state, &mut walk, task, index, found,
        )?;
    }
    window.fill(alloc, file, 1)?;
    if !window.ahead().is_empty() {
        return Err(LogFault::Bad {
            number: task.records + 1,
            why: RecordWhy::Extra,
        });
    }
    walk.close(&task.path, task.records, found)?;
    Ok(Checked {
        forks: walk.forks,
        barriers: state.barriers,
        segments: state.segments,
    })
}
