//! The logs of the lanes of a region.
ghost use Rattle.std.specs.Prelude.{◌≡◌, ◌<◌, ◌≤◌, List, ℕ, length, None, Some, IfOk, IfErr, OnOk};
ghost use Rattle.log_format.specs.declared.record.Record.{Record};
ghost use Rattle.event_buffer.specs.Buffered.{IsStill};
ghost use Rattle.event_buffer.specs.Logged.{HoldsRecords};
ghost use Rattle.lane_runner.specs.Children.{AreNewLogs};

use event_buffer::Buffer;
use std::alloc::Global;
use std::sync::Wait;
use sw_base::{Log, Trouble};

/// New logs for the lanes of a region of this number and span.
pub(crate) fn children<L: Log, R: Wait>(
    rt: &R,
    alloc: Global,
    buffer: &mut Buffer<L>,
    number: u32,
    span: u16,
) -> Result<Vec<L>, Trouble>
    requires path { length buffer.old.path < 4 }
    requires unrefused { buffer.old.refused ≡ None }
    ensures logs { IfOk result (λ logs. AreNewLogs L.Log buffer.old number span logs.items) }
    ensures still { IsStill buffer.old buffer.new }
    ensures waiting { buffer.new.waiting ≡ buffer.old.waiting }
    ensures unrefused { OnOk result (buffer.new.refused ≡ None) }
    ensures refused { IfErr result (λ trouble. (trouble ≡ Trouble.Memory → ⊥) → buffer.new.refused ≡ Some trouble) }
    ensures records { (header : List ℕ) (records : List Record) → HoldsRecords header buffer.old records → HoldsRecords header buffer.new records }
{
    let mut logs = Vec::new(alloc);
    for lane in 0..span {
        let log = buffer.child(rt, alloc, number, lane, span)?;
        logs.push(log)?;
    }
    Ok(logs)
}
