//! The least race of two lines: the first record that races with one of a later row, and then the first of those.
ghost use Rattle.std.specs.Prelude.{◌≡◌, ◌↔◌, ◌⊎◌, ◌+◌, ◌-◌, ◌^◌, ◌<◌, ℕ, length, min, max, Some, IsTrue, IfOk, IfErr, IsErrOf};
ghost use Rattle.sw_base.specs.Environment.{WhereTold};
ghost use Rattle.sw_base.specs.OnlyReads.{OnlyReads};
ghost use Rattle.race_model.specs.Trace.{Trace, Node, logs_of};
ghost use Rattle.explain.specs.Finding.{IsNoPlace};
ghost use Rattle.explain.specs.Least.{FindsLeast, FindsHit, FindsPartner, FindsRace, RacesOn};
ghost use Rattle.explain.specs.Suspects.{HoldAccesses, HoldPartners};
ghost use Rattle.explain.specs.Witness.{HoldsListedRun, IsInLog, TellsRecord};

use crate::confirming::race_of;
use crate::explaining::RacePair;
use crate::finding::{Found, found_at, next_record, open_log};
use crate::passing::ReadPlace;
use crate::stretch::{RecordRange, has_path, has_record};
use crate::suspecting::{is_row_suspected, met_by};
use crate::suspects::Suspects;
use log_format::Record;
use log_index::Row;
use log_walk::WalkFault;
use std::alloc::Global;
use sw_base::Folder;

/// A record of a log that races with another, and the first byte that they have in common.
#[derive(Clone, Copy)]
pub struct Hit {
    pub number: u32,
    pub byte: u64,
}

/// The same with its row, from 1.
#[derive(Clone, Copy)]
pub struct FoundPartner {
    pub row: u32,
    pub hit: Hit,
}

/// Whether these are the lines of two records, the smaller first.
fn are_lines(one: &Record, other: &Record, lines: (u32, u32)) -> bool
    ensures { IsTrue result ↔ (lines ≡ (min one.now.line other.now.line, max one.now.line other.now.line)) }
{
    let (low, high) = lines;
    low == one.line.min(other.line) && high == one.line.max(other.line)
}

fn is_on(event: &Record, lines: (u32, u32)) -> bool
    ensures { IsTrue result ↔ ((lines.0 ≡ event.now.line) ⊎ (lines.1 ≡ event.now.line)) }
{
    let (low, high) = lines;
    low == event.line || high == event.line
}

/// The first common byte of two records that were found, where they race in these lines. The second one is of this number; where it is in none
/// of the stretches it races with no such record.
fn raced<F: Folder>(
    alloc: Global,
    folder: &mut F,
    dir: &str,
    rows: &[Row],
    first: usize,
    second: usize,
    one: &Found,
    other: &Found,
    number: u32,
    met: &[RecordRange],
    lines: (u32, u32),
) -> Result<Option<u64>, WalkFault>
    requires first { first < length rows.now }
    requires second { second < length rows.now }
    ensures races { WhereTold (F.state folder.old).content (λ c. (trace : Trace) → HoldsListedRun c dir.now rows.now trace → (x y : Node) → IsInLog trace first x → IsInLog trace second y
        → number ≡ y.index + 1 → HoldPartners trace lines x met.now → TellsRecord (logs_of trace) x one.now → TellsRecord (logs_of trace) y other.now
        → IfOk result (λ answer. (byte : ℕ) → (answer ≡ Some byte) ↔ RacesOn (logs_of trace) lines x y byte)) }
    ensures only_faults { IfErr result (λ e. IsNoPlace e) }
    ensures reads { OnlyReads F.Folder folder.old folder.new (IsErrOf result WalkFault.ReadFault) }
{
    if !are_lines(&one.event, &other.event, lines) {
        return Ok(None);
    }
    let row = &rows[second];
    if !has_record(met, &row.path, number) {
        return Ok(None);
    }
    race_of(alloc, folder, dir, rows, first, second, one, other)
}

/// The first record of the second log that races with a record of the first one in these lines. It is in one of the stretches, so the log is read only
/// where one of them is of it.
fn hit_in_log<F: Folder>(
    alloc: Global,
    folder: &mut F,
    dir: &str,
    rows: &[Row],
    first: usize,
    second: usize,
    one: &Found,
    met: &[RecordRange],
    lines: (u32, u32),
) -> Result<Option<Hit>, WalkFault>
    requires first { first < length rows.now }
    requires second { second < length rows.now }
    ensures finds { WhereTold (F.state folder.old).content (λ c. (trace : Trace) → HoldsListedRun c dir.now rows.now trace → (x : Node) → IsInLog trace first x
        → HoldPartners trace lines x met.now → TellsRecord (logs_of trace) x one.now → IfOk result (FindsHit trace lines x second)) }
    ensures only_faults { IfErr result (λ e. IsNoPlace e) }
    ensures reads { OnlyReads F.Folder folder.old folder.new (IsErrOf result WalkFault.ReadFault) }
{
    let row = &rows[second];
    if !has_path(met, &row.path) {
        return Ok(None);
    }
    let mut reader = open_log(alloc, folder, dir, row)?;
    let mut place = ReadPlace::start();
    'records: while let Some(next) = next_record(alloc, folder, &mut reader)? {
        let other = found_at(&place, next);
        let number = place.records + 1;
        let raced = raced(
            alloc, folder, dir, rows, first, second, one, &other, number, met, lines,
        )?;
        if let Some(byte) = raced {
            return Ok(Some(Hit { number, byte }));
        }
        place.pass(&other.event);
    }
    Ok(None)
}

/// The first record of the later rows that races with a record of this row in these lines. It is in one of the stretches.
fn partner_of<F: Folder>(
    alloc: Global,
    folder: &mut F,
    dir: &str,
    rows: &[Row],
    first: usize,
    one: &Found,
    met: &[RecordRange],
    lines: (u32, u32),
) -> Result<Option<FoundPartner>, WalkFault>
    requires first { first < length rows.now }
    requires few { length rows.now < 2 ^ 32 }
    ensures finds { WhereTold (F.state folder.old).content (λ c. (trace : Trace) → HoldsListedRun c dir.now rows.now trace → (x : Node) → IsInLog trace first x
        → HoldPartners trace lines x met.now → TellsRecord (logs_of trace) x one.now → IfOk result (FindsPartner trace lines first x)) }
    ensures only_faults { IfErr result (λ e. IsNoPlace e) }
    ensures reads { OnlyReads F.Folder folder.old folder.new (IsErrOf result WalkFault.ReadFault) }
{
    'rows: for second in first + 1..rows.len() {
        let hit = hit_in_log(alloc, folder, dir, rows, first, second, one, met, lines)?;
        if let Some(hit) = hit {
            let row = second as u32 + 1;
            return Ok(Some(FoundPartner { row, hit }));
        }
    }
    Ok(None)
}

/// The same for the record of this number, which is looked for only where the intervals say that there may be one.
fn partner_at<F: Folder>(
    alloc: Global,
    folder: &mut F,
    dir: &str,
    rows: &[Row],
    suspects: &Suspects<'_, '_>,
    first: usize,
    number: u32,
    one: &Found,
    lines: (u32, u32),
) -> Result<Option<FoundPartner>, WalkFault>
    requires first { first < length rows.now }
    requires few { length rows.now < 2 ^ 32 }
    ensures finds { WhereTold (F.state folder.old).content (λ c. (trace : Trace) → HoldsListedRun c dir.now rows.now trace → HoldAccesses trace lines suspects.now
        → (x : Node) → IsInLog trace first x → number ≡ x.index + 1 → TellsRecord (logs_of trace) x one.now → IfOk result (FindsPartner trace lines first x)) }
    ensures only_faults { IfErr result (λ e. IsNoPlace e) }
    ensures reads { OnlyReads F.Folder folder.old folder.new (IsErrOf result WalkFault.ReadFault) }
{
    if !is_on(&one.event, lines) {
        return Ok(None);
    }
    let row = &rows[first];
    let met = met_by(alloc, suspects, &row.path, number, one, lines)?;
    if met.is_empty() {
        return Ok(None);
    }
    partner_of(alloc, folder, dir, rows, first, one, &met, lines)
}

fn race_pair(first: usize, number: u32, partner: FoundPartner) -> RacePair
    requires few { first < 2 ^ 32 - 1 }
    ensures first_row { result.first_row ≡ first + 1 }
    ensures first { result.first ≡ number }
    ensures partner { partner ≡ record { row = result.second_row; hit = record { number = result.second; byte = result.byte } } }
{
    RacePair {
        first_row: first as u32 + 1,
        first: number,
        second_row: partner.row,
        second: partner.hit.number,
        byte: partner.hit.byte,
    }
}

/// The first record of the log that races in these lines with one of a later row, and the first such one. The log is read only where the
/// intervals say that there may be one.
fn race_in_log<F: Folder>(
    alloc: Global,
    folder: &mut F,
    dir: &str,
    rows: &[Row],
    suspects: &Suspects<'_, '_>,
    first: usize,
    lines: (u32, u32),
) -> Result<Option<RacePair>, WalkFault>
    requires first { first < length rows.now }
    requires few { length rows.now < 2 ^ 32 }
    ensures finds { WhereTold (F.state folder.old).content (λ c. (trace : Trace) → HoldsListedRun c dir.now rows.now trace → HoldAccesses trace lines suspects.now
        → IfOk result (FindsRace trace lines first)) }
    ensures only_faults { IfErr result (λ e. IsNoPlace e) }
    ensures reads { OnlyReads F.Folder folder.old folder.new (IsErrOf result WalkFault.ReadFault) }
{
    let row = &rows[first];
    let suspected = is_row_suspected(alloc, suspects, &row.path, lines)?;
    if !suspected {
        return Ok(None);
    }
    let mut reader = open_log(alloc, folder, dir, row)?;
    let mut place = ReadPlace::start();
    'records: while let Some(next) = next_record(alloc, folder, &mut reader)? {
        let one = found_at(&place, next);
        let number = place.records + 1;
        let partner = partner_at(
            alloc, folder, dir, rows, suspects, first, number, &one, lines,
        )?;
        if let Some(partner) = partner {
            return Ok(Some(race_pair(first, number, partner)));
        }
        place.pass(&one.event);
    }
    Ok(None)
}

/// The least race of these lines, by row and number, first record first.
pub fn least_race<F: Folder>(
    alloc: Global,
    folder: &mut F,
    dir: &str,
    rows: &[Row],
    suspects: &Suspects<'_, '_>,
    lines: (u32, u32),
) -> Result<Option<RacePair>, WalkFault>
    requires few { length rows.now < 2 ^ 32 }
    ensures explains { WhereTold (F.state folder.old).content (λ c. (trace : Trace) → HoldsListedRun c dir.now rows.now trace → HoldAccesses trace lines suspects.now
        → IfOk result (FindsLeast trace lines)) }
    ensures only_faults { IfErr result (λ e. IsNoPlace e) }
    ensures reads { OnlyReads F.Folder folder.old folder.new (IsErrOf result WalkFault.ReadFault) }
{
    'rows: for first in 0..rows.len() {
        let found = race_in_log(alloc, folder, dir, rows, suspects, first, lines)?;
        if found.is_some() {
            return Ok(found);
        }
    }
    Ok(None)
}
