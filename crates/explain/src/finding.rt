//! A record of a log, found by its number or as the Region of a number.
ghost use Rattle.std.specs.Prelude.{◌≡◌, ◌↔◌, ◌^◌, ◌<◌, List, length, is_some, IsTrue, IfOk, IfErr, IsErrOf};
ghost use Rattle.sw_base.specs.Environment.{WhereTold};
ghost use Rattle.sw_base.specs.OnlyReads.{OnlyReads};
ghost use Rattle.log_format.specs.declared.format.TheConstants.{FORMAT};
ghost use Rattle.log_format.specs.declared.record.Record.{Record as LogRecord};
ghost use Rattle.log_reader.specs.Reading.{StandsBefore, GivesNext};
ghost use Rattle.race_model.specs.LogFault.{IsWholeLog};
ghost use Rattle.explain.specs.Finding.{EachMayFollow, FindsMarked, IsMarked, IsNoPlace, IsPlaceAfter};

use crate::passing::ReadPlace;
use log_format::{FORMAT, Kind, Record};
use log_index::Row;
use log_reader::LogReader;
use log_walk::WalkFault;
use mutex_set::Held;
use std::alloc::Global;
use sw_base::Folder;

/// Which record of a log is looked for.
#[derive(Clone, Copy)]
pub enum Mark {
    /// The one after so many records.
    Record(u32),
    /// The Region of this number, from 0.
    Region(u32),
}

/// A record of a log.
#[derive(Drop)]
pub struct Found {
    pub event: Record,
    /// The mutexes that the task holds there.
    pub held: Held,
    /// How many barriers come before it.
    pub barriers: u32,
}

/// A record after those that were passed.
pub fn found_at(place: &ReadPlace, event: Record) -> Found
    ensures { result ≡ record { event = event; held = place.now.held; barriers = place.now.barriers } }
{
    Found {
        event,
        held: place.held.copy(),
        barriers: place.barriers,
    }
}

/// Whether the next record is the one that is looked for.
fn is_marked(which: Mark, place: &ReadPlace, next: &Record) -> bool
    ensures { (before : List LogRecord) → IsPlaceAfter place.now before → IsTrue result ↔ IsMarked which before next.now }
{
    match which {
        Mark::Record(number) => place.records == number,
        Mark::Region(number) => matches!(next.kind, Kind::Region) && place.regions == number,
    }
}

/// The next record of a log.
pub fn next_record<F: Folder>(
    alloc: Global,
    folder: &mut F,
    reader: &mut LogReader,
) -> Result<Option<Record>, WalkFault>
    ensures gives { WhereTold (F.state folder.old).content (λ c. (events : List LogRecord) → StandsBefore c reader.old events → IfOk result (λ answer. GivesNext c events answer reader.new)) }
    ensures fewer { IfOk result (λ answer. IsTrue (is_some answer) → reader.new.left < reader.old.left) }
    ensures only_faults { IfErr result (λ e. IsNoPlace e) }
    ensures reads { OnlyReads F.Folder folder.old folder.new (IsErrOf result WalkFault.ReadFault) }
{
    match reader.next(alloc, folder) {
        Ok(next) => Ok(next),
        Err(trouble) => Err(WalkFault::from(trouble)),
    }
}

/// Finds a record among those that the reader stands before.
fn find_ahead<F: Folder>(
    alloc: Global,
    folder: &mut F,
    reader: &mut LogReader,
    which: Mark,
) -> Result<Option<Found>, WalkFault>
    requires { reader.old.left < 2 ^ 32 }
    ensures finds { WhereTold (F.state folder.old).content (λ c. (events : List LogRecord) → StandsBefore c reader.old events → EachMayFollow events → IfOk result (FindsMarked which events)) }
    ensures only_faults { IfErr result (λ e. IsNoPlace e) }
    ensures reads { OnlyReads F.Folder folder.old folder.new (IsErrOf result WalkFault.ReadFault) }
{
    let mut place = ReadPlace::start();
    'records: while let Some(next) = next_record(alloc, folder, reader)? {
        if is_marked(which, &place, &next) {
            return Ok(Some(Found {
                event: next,
                held: place.held,
                barriers: place.barriers,
            }));
        }
        place.pass(&next);
    }
    Ok(None)
}

/// Goes to the first record in the log of a row.
pub fn open_log<F: Folder>(
    alloc: Global,
    folder: &mut F,
    dir: &str,
    row: &Row,
) -> Result<LogReader, WalkFault>
    ensures stands { WhereTold (F.state folder.old).content (λ c. (events : List LogRecord) → IsWholeLog FORMAT c.held dir.now row.now.path events
        → row.now.records ≡ length events → IfOk result (λ reader. StandsBefore c reader events)) }
    ensures few { IfOk result (λ reader. reader.left < 2 ^ 32) }
    ensures only_faults { IfErr result (λ e. IsNoPlace e) }
    ensures reads { OnlyReads F.Folder folder.old folder.new (IsErrOf result WalkFault.ReadFault) }
{
    let mut reader = LogReader::new(alloc)?;
    reader.open(alloc, FORMAT, folder, dir, &row.path, row.records)?;
    Ok(reader)
}

/// Finds a record in the log of a row.
pub fn find_in_log<F: Folder>(
    alloc: Global,
    folder: &mut F,
    dir: &str,
    row: &Row,
    which: Mark,
) -> Result<Option<Found>, WalkFault>
    ensures finds { WhereTold (F.state folder.old).content (λ c. (events : List LogRecord) → IsWholeLog FORMAT c.held dir.now row.now.path events
        → row.now.records ≡ length events → EachMayFollow events → IfOk result (FindsMarked which events)) }
    ensures only_faults { IfErr result (λ e. IsNoPlace e) }
    ensures reads { OnlyReads F.Folder folder.old folder.new (IsErrOf result WalkFault.ReadFault) }
{
    let mut reader = open_log(alloc, folder, dir, row)?;
    find_ahead(alloc, folder, &mut reader, which)
}
