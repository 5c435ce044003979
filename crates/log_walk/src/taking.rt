//! Going over the next log, which may have been read before its turn.
ghost use Rattle.std.specs.Prelude.{◌≡◌, ◌↔◌, ◌+◌, ◌^◌, ◌≤◌, ◌<◌, ℕ, List, All, Option, Some, length, slice_get, slice_index_or, IfErr, IfSome, IsErrOf, IsTrue, OnOk};
ghost use Rattle.sw_base.specs.Environment.{Content};
ghost use Rattle.sw_base.specs.OnlyReads.{OnlyReads};
ghost use Rattle.log_format.specs.declared.format.Format.{Format};
ghost use Rattle.race_model.specs.IndexFault.{AreRows};
ghost use Rattle.race_model.specs.LogFault.{max_segments};
ghost use Rattle.race_model.specs.Row.{Row};
ghost use Rattle.race_model.specs.Trace.{Trace};
ghost use Rattle.log_walk.specs.Ahead.{StandsAsRead, IsAhead};
ghost use Rattle.log_walk.specs.Stack.{AtNext, IsStackAfter, WalksTask};
ghost use Rattle.log_walk.specs.Walk.{RefusesNext};

use crate::ahead::Ahead;
use crate::check::Checked;
use crate::fault::WalkFault;
use crate::log::walk_log;
use crate::stack::Stack;
use crate::state::MAX_SEGMENTS;
use log_format::Format;
use log_index::Row as IndexRow;
use log_segment::{Segment, first_label};
use span_label::Label;
use std::alloc::Global;
use sw_base::{Folder, Memory};

fn are_same(label: &Label, other: &Label) -> bool
    ensures { IsTrue result ↔ (label.now ≡ other.now) }
{
    label.triples() == other.triples()
}

/// Whether a log has as many barriers as its team, where these are known.
fn are_due(due: Option<u32>, barriers: u32) -> bool
    ensures { IsTrue result → (others : ℕ) → due ≡ Some others → others ≡ barriers }
{
    match due {
        Some(others) => others == barriers,
        None => true,
    }
}

/// Whether the segments that are counted from one number to another are not too many after so many.
fn have_room(opened: u32, from: u32, to: u32) -> bool
    ensures { IsTrue result → opened + to ≤ max_segments + from }
{
    u64::from(opened) + u64::from(to) <= u64::from(MAX_SEGMENTS) + u64::from(from)
}

/// Whether the next log stands as it was read before its turn.
fn agrees(rows: &[IndexRow], stack: &Stack, read: &Ahead) -> bool
    requires rows { AreRows rows.now }
    requires within { stack.now.place < length rows.now }
    requires stands { (format : Format) × (trace : Trace) × IsStackAfter format rows.now stack.now trace }
    ensures { (format : Format) → AtNext format rows.now stack.now (λ trace row. IsTrue result → StandsAsRead trace row stack.now.segments read.now) }
{
    let row = &rows[stack.place];
    let label = first_label(&stack.forks, &row.path);
    let due = stack.due_barriers(&row.path);
    if !are_same(&label, &read.source.label) {
        return false;
    }
    if !are_due(due, read.checked.barriers) {
        return false;
    }
    have_room(stack.segments, read.source.opened, read.checked.segments)
}

/// Where among these the log of this row is.
fn place_of(ahead: &[Ahead], place: usize) -> Option<usize>
    ensures { IfSome result (λ at. (at < length ahead.now) × ((d : _) → (slice_index_or ahead.now at d).source.place ≡ place)) }
{
    for (at, read) in ahead.iter().enumerate() {
        if read.source.place == place {
            return Some(at);
        }
    }
    None
}

/// Takes what was read of the next log before its turn, where it stands so. Else it is let go.
fn take(ahead: &mut Vec<Ahead>, rows: &[IndexRow], stack: &Stack) -> Option<Ahead>
    requires rows { AreRows rows.now }
    requires within { stack.now.place < length rows.now }
    requires stands { (format : Format) × (trace : Trace) × IsStackAfter format rows.now stack.now trace }
    ensures place { IfSome result (λ read. read.source.place ≡ stack.now.place) }
    ensures agrees { (format : Format) → AtNext format rows.now stack.now (λ trace row. IfSome result (StandsAsRead trace row stack.now.segments)) }
    ensures is { (format : Format) (told : Option Content) (dir : List ℕ) → All (IsAhead format told dir rows.now) ahead.old.items → IfSome result (IsAhead format told dir rows.now) }
    ensures left { (format : Format) (told : Option Content) (dir : List ℕ) → All (IsAhead format told dir rows.now) ahead.old.items → All (IsAhead format told dir rows.now) ahead.new.items }
{
    let at = place_of(ahead, stack.place)?;
    let read = ahead.swap_remove(at);
    if !agrees(rows, stack, &read) {
        return None;
    }
    Some(read)
}

/// Goes past the next log, which was read before its turn and stands so.
fn take_over(stack: &mut Stack, read: Ahead, found: &mut Vec<Segment>) -> Result<(), Memory>
    requires place { stack.old.place < 2 ^ 32 }
    requires from { read.source.opened ≤ read.checked.segments }
    requires fits { stack.old.segments + read.checked.segments ≤ max_segments + read.source.opened }
    ensures walks { (format : Format) (told : Option Content) (dir : List ℕ) (rows : List Row) (trace : Trace) (row : Row) → AreRows rows → IsStackAfter format rows stack.old trace → slice_get rows stack.old.place ≡ Some row
        → IsAhead format told dir rows read → read.source.place ≡ stack.old.place → StandsAsRead trace row stack.old.segments read
        → OnOk result (WalksTask format told dir rows stack.new trace row found.old.items found.new.items) }
    ensures place { OnOk result (stack.new.place ≡ stack.old.place + 1) }
{
    let Ahead {
        source,
        checked,
        found: mut more,
    } = read;
    let Checked {
        forks,
        barriers,
        segments,
    } = checked;
    found.append(&mut more)?;
    let opened = stack.segments + (segments - source.opened);
    stack.push(&source.task.path, forks, barriers, opened)?;
    Ok(())
}

/// Goes over the log of the next row, where it is good, and adds its segments. It may have been read before its turn.
pub fn walk_next<F: Folder>(
    alloc: Global,
    format: Format,
    folder: &mut F,
    dir: &str,
    rows: &[IndexRow],
    stack: &mut Stack,
    ahead: &mut Vec<Ahead>,
    found: &mut Vec<Segment>,
) -> Result<(), WalkFault>
    requires rows { AreRows rows.now }
    requires within { stack.old.place < length rows.now }
    requires stands { (trace : Trace) × IsStackAfter format rows.now stack.old trace }
    requires ahead { All (IsAhead format (F.state folder.old).content dir.now rows.now) ahead.old.items }
    ensures walks { AtNext format rows.now stack.old (λ trace row. OnOk result (WalksTask format (F.state folder.old).content dir.now rows.now stack.new trace row found.old.items found.new.items)) }
    ensures place { OnOk result (stack.new.place ≡ stack.old.place + 1) }
    ensures left { All (IsAhead format (F.state folder.old).content dir.now rows.now) ahead.new.items }
    ensures refused { AtNext format rows.now stack.old (λ trace row. IfErr result (RefusesNext format (F.state folder.old).content dir.now rows.now trace row)) }
    ensures reads { OnlyReads F.Folder folder.old folder.new (IsErrOf result WalkFault.ReadFault) }
{
    match take(ahead, rows, stack) {
        Some(read) => Ok(take_over(stack, read, found)?),
        None => walk_log(alloc, format, folder, dir, rows, stack, found),
    }
}
