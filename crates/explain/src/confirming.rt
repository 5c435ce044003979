//! Whether two records race.
ghost use Rattle.std.specs.Prelude.{◌≡◌, ◌↔◌, ◌+◌, ◌<◌, ℕ, List, length, Some, IsTrue, IfOk, IfErr, IsErrOf, IsSomeAnd, None, MatchOption};
ghost use Rattle.sw_base.specs.Environment.{WhereTold};
ghost use Rattle.sw_base.specs.OnlyReads.{OnlyReads};
ghost use Rattle.counted_order.specs.Parting.{ComesAfterBarriers};
ghost use Rattle.log_format.specs.declared.format.TheConstants.{FORMAT};
ghost use Rattle.race_model.specs.FirstBad.{HoldsTrace};
ghost use Rattle.race_model.specs.Race.{IsUnordered};
ghost use Rattle.race_model.specs.Trace.{Trace, Node, logs_of, IsThere, barriers_before};
ghost use Rattle.explain.specs.Finding.{IsNoPlace};
ghost use Rattle.explain.specs.Witness.{FindsNamed, IsConfirmed, ConflictAt, HoldsListedRun, IsInLog, TellsRecord, WalksFolder};

use crate::conflict::conflict;
use crate::finding::{Found, Mark, find_in_log};
use crate::parting::{lane_above, parting, region_at};
use log_index::Row;
use log_walk::{WalkFault, sweep_all};
use std::alloc::Global;
use sw_base::Folder;

/// The place of a row in the list of rows.
fn place_of(rows: &[Row], row: u32) -> Option<usize>
    ensures { MatchOption result ((place : ℕ) → row ≡ place + 1 → place < length rows.now → ⊥) (λ place. (row ≡ place + 1) × (place < length rows.now)) }
{
    let place = row.checked_sub(1)? as usize;
    (place < rows.len()).then_some(place)
}

/// How many come before this number, from 1.
fn before(number: u32) -> Option<u32>
    ensures { MatchOption result (number ≡ 0) (λ n. number ≡ n + 1) }
{
    number.checked_sub(1)
}

/// Finds the record of this number, from 1, in a row's log.
fn find_named<F: Folder>(
    alloc: Global,
    folder: &mut F,
    dir: &str,
    rows: &[Row],
    place: usize,
    number: u32,
) -> Result<Option<Found>, WalkFault>
    requires { place < length rows.now }
    ensures finds { WhereTold (F.state folder.old).content (λ c. (trace : Trace) → HoldsListedRun c dir.now rows.now trace → IfOk result (FindsNamed trace place number)) }
    ensures only_faults { IfErr result (λ e. IsNoPlace e) }
    ensures reads { OnlyReads F.Folder folder.old folder.new (IsErrOf result WalkFault.ReadFault) }
{
    match before(number) {
        Some(earlier) => find_in_log(alloc, folder, dir, &rows[place], Mark::Record(earlier)),
        None => Ok(None),
    }
}

fn barriers_of(found: Option<Found>) -> Option<u32>
    ensures { MatchOption found (result ≡ None) (λ one. result ≡ Some one.barriers) }
{
    match found {
        Some(one) => Some(one.barriers),
        None => None,
    }
}

/// How many barriers come before a record in the lane below this level, or before the Region there through which it hangs.
/// Before the record itself there are `own`.
fn barriers_at<F: Folder>(
    alloc: Global,
    folder: &mut F,
    dir: &str,
    rows: &[Row],
    place: usize,
    level: usize,
    own: u32,
) -> Result<Option<u32>, WalkFault>
    requires place { place < length rows.now }
    requires level { level < 4 }
    ensures passed { WhereTold (F.state folder.old).content (λ c. (trace : Trace) → HoldsListedRun c dir.now rows.now trace → (x : Node) → IsInLog trace place x → IsThere (logs_of trace) x
        → level < length x.path → own ≡ barriers_before (logs_of trace) x → IfOk result (λ answer. IsSomeAnd answer (ComesAfterBarriers (logs_of trace) x level))) }
    ensures only_faults { IfErr result (λ e. IsNoPlace e) }
    ensures reads { OnlyReads F.Folder folder.old folder.new (IsErrOf result WalkFault.ReadFault) }
{
    let row = &rows[place];
    let Some(region) = region_at(row.steps(), level + 1) else {
        return Ok(Some(own));
    };
    let Some(above) = lane_above(rows, &row.path, level) else {
        return Ok(None);
    };
    let found = find_in_log(alloc, folder, dir, &rows[above], Mark::Region(region))?;
    Ok(barriers_of(found))
}

/// Whether both are known and the same.
fn are_as_many(mine: Option<u32>, yours: Option<u32>) -> bool
    ensures { IsTrue result ↔ ((n : ℕ) × (mine ≡ Some n) × (yours ≡ Some n)) }
{
    match (mine, yours) {
        (Some(n), Some(m)) => n == m,
        _ => false,
    }
}

/// Whether no fork, join or barrier orders two records that were found.
fn are_unordered<F: Folder>(
    alloc: Global,
    folder: &mut F,
    dir: &str,
    rows: &[Row],
    first: usize,
    second: usize,
    one: &Found,
    other: &Found,
) -> Result<bool, WalkFault>
    requires first { first < length rows.now }
    requires second { second < length rows.now }
    ensures unordered { WhereTold (F.state folder.old).content (λ c. (trace : Trace) → HoldsListedRun c dir.now rows.now trace → (x y : Node) → IsInLog trace first x → IsInLog trace second y
        → TellsRecord (logs_of trace) x one.now → TellsRecord (logs_of trace) y other.now → IfOk result (λ yes. IsTrue yes ↔ IsUnordered (logs_of trace) x y)) }
    ensures only_faults { IfErr result (λ e. IsNoPlace e) }
    ensures reads { OnlyReads F.Folder folder.old folder.new (IsErrOf result WalkFault.ReadFault) }
{
    let Some(level) = parting(rows[first].steps(), rows[second].steps()) else {
        return Ok(false);
    };
    let mine = barriers_at(alloc, folder, dir, rows, first, level, one.barriers)?;
    let yours = barriers_at(alloc, folder, dir, rows, second, level, other.barriers)?;
    Ok(are_as_many(mine, yours))
}

fn only_if(yes: bool, byte: u64) -> Option<u64>
    ensures { (n : ℕ) → (result ≡ Some n) ↔ (IsTrue yes × (n ≡ byte)) }
{
    yes.then_some(byte)
}

/// The first common byte of two records that were found, where they race.
pub fn race_of<F: Folder>(
    alloc: Global,
    folder: &mut F,
    dir: &str,
    rows: &[Row],
    first: usize,
    second: usize,
    one: &Found,
    other: &Found,
) -> Result<Option<u64>, WalkFault>
    requires first { first < length rows.now }
    requires second { second < length rows.now }
    ensures races { WhereTold (F.state folder.old).content (λ c. (trace : Trace) → HoldsListedRun c dir.now rows.now trace → (x y : Node) → IsInLog trace first x → IsInLog trace second y
        → TellsRecord (logs_of trace) x one.now → TellsRecord (logs_of trace) y other.now
        → IfOk result (λ answer. (byte : ℕ) → (answer ≡ Some byte) ↔ (ConflictAt one.now other.now byte × IsUnordered (logs_of trace) x y))) }
    ensures only_faults { IfErr result (λ e. IsNoPlace e) }
    ensures reads { OnlyReads F.Folder folder.old folder.new (IsErrOf result WalkFault.ReadFault) }
{
    let Some(byte) = conflict(one, other) else {
        return Ok(None);
    };
    let unordered = are_unordered(alloc, folder, dir, rows, first, second, one, other)?;
    Ok(only_if(unordered, byte))
}

/// A record of a folder: its row and its number, both from 1.
#[derive(Clone, Copy)]
struct Name {
    row: u32,
    number: u32,
}

/// The first common byte of two records of these rows, where they race.
fn confirm_among<F: Folder>(
    alloc: Global,
    folder: &mut F,
    dir: &str,
    rows: &[Row],
    one: Name,
    other: Name,
) -> Result<Option<u64>, WalkFault>
    ensures confirmed { WhereTold (F.state folder.old).content (λ c. (trace : Trace) → HoldsListedRun c dir.now rows.now trace
        → IfOk result (λ answer. (byte : ℕ) → (answer ≡ Some byte) ↔ IsConfirmed trace one.row one.number other.row other.number byte)) }
    ensures only_faults { IfErr result (λ e. IsNoPlace e) }
    ensures reads { OnlyReads F.Folder folder.old folder.new (IsErrOf result WalkFault.ReadFault) }
{
    let Some(first) = place_of(rows, one.row) else {
        return Ok(None);
    };
    let Some(second) = place_of(rows, other.row) else {
        return Ok(None);
    };
    let found = find_named(alloc, folder, dir, rows, first, one.number)?;
    let Some(mine) = found else {
        return Ok(None);
    };
    let beside = find_named(alloc, folder, dir, rows, second, other.number)?;
    let Some(yours) = beside else {
        return Ok(None);
    };
    race_of(alloc, folder, dir, rows, first, second, &mine, &yours)
}

/// The first common byte of two records, where they race; none where they don't. A row and a number, both from 1, name a record; where
/// either is past the end, they name none, and nothing races. It refuses as `walk` does.
pub fn confirm<F: Folder>(
    alloc: Global,
    folder: &mut F,
    dir: &str,
    first_row: u32,
    first: u32,
    second_row: u32,
    second: u32,
) -> Result<Option<u64>, WalkFault>
    ensures confirmed { WhereTold (F.state folder.old).content (λ c. (trace : Trace) → HoldsTrace FORMAT c.held dir.now trace
        → IfOk result (λ answer. (byte : ℕ) → (answer ≡ Some byte) ↔ IsConfirmed trace first_row first second_row second byte)) }
    ensures walks { WalksFolder (F.state folder.old).content dir.now result }
    ensures reads { OnlyReads F.Folder folder.old folder.new (IsErrOf result WalkFault.ReadFault) }
{
    let sweep = sweep_all(alloc, folder, dir)?;
    let one = Name {
        row: first_row,
        number: first,
    };
    let other = Name {
        row: second_row,
        number: second,
    };
    confirm_among(alloc, folder, dir, sweep.rows(), one, other)
}
