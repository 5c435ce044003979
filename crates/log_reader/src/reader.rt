//! A reader of logs.
ghost use Rattle.std.specs.Prelude.{◌≡◌, ◌-◌, ◌<◌, ◌≤◌, List, Some, All, length, take, is_some, IsTrue, IfOk, IfSome, OnOk, OnErr, IsErrOf};
ghost use Rattle.log_format.specs.declared.record.Record.{Record};
ghost use Rattle.log_format.specs.Format.{log_header};
ghost use Rattle.log_format.specs.Spelling.{spelling, log_bytes};
ghost use Rattle.log_format.specs.Table.{IsTabled};
ghost use Rattle.sw_base.specs.Environment.{WhereTold};
ghost use Rattle.sw_base.specs.OnlyReads.{OnlyReads};
ghost use Rattle.sw_base.specs.Names.{log_name};
ghost use Rattle.sw_base.specs.Window.{skipped};
ghost use Rattle.log_reader.specs.Reading.{StandsBefore, GivesNext};

use log_format::{FORMAT, Format, RECORD_SIZE, Record, decode_as};
use std::alloc::Global;
use std::marker::Model;
use sw_base::{Folder, Memory, Path, Trouble, Window};

/// How many bytes of a log are read at once: 2,730 records.
const WINDOW: usize = 65_520;

/// Reads the records of one log after another, through one window.
#[derive(Drop)]
pub struct LogReader {
    /// The format of the log.
    format: Format,
    window: Window,
    /// The log's file.
    name: String,
    /// How many of its records come at most.
    left: u32,
}

impl Model for LogReader {
    ghost use Rattle.std.specs.Prelude.{◌+◌, ◌*◌, ◌^◌, ◌<◌, string_bytes};
    ghost use Rattle.log_reader.specs.Reading.{Reading};

    ghost Value = { Reading };

    ghost view = { λ r. record { format = r.format; window = r.window; name = string_bytes r.name; left = r.left } };

    ghost invariant = { λ r. 0 < r.left → r.window.place + 24 * r.left < 2 ^ 63 };
}

// The record that the first bytes spell in this format, where they spell one.
fn first_record(format: Format, bytes: &[u8]) -> Option<Record>
    ensures found { (r : Record) → IsTabled format r → take 24 bytes.now ≡ spelling r → result ≡ Some r }
    ensures whole { IfSome result (λ r. 24 ≤ length bytes.now) }
{
    match bytes.split_first_chunk::<RECORD_SIZE>() {
        Some((first, _)) => decode_as(format, first).ok(),
        None => None,
    }
}

impl LogReader {
    /// Before no record.
    pub fn new(alloc: Global) -> Result<LogReader, Memory>
        ensures { IfOk result (λ reader. reader.left ≡ 0) }
    {
        Ok(LogReader {
            format: FORMAT,
            window: Window::new(alloc, WINDOW)?,
            name: String::new(alloc),
            left: 0,
        })
    }

    /// Goes to the first record of a task's log of this format, which has so many.
    pub fn open<F: Folder>(
        &mut self,
        alloc: Global,
        format: Format,
        folder: &mut F,
        dir: &str,
        path: &Path,
        records: u32,
    ) -> Result<(), Trouble>
        ensures stands { OnOk result (WhereTold (F.state folder.old).content (λ c. (events : List Record) → c.held (log_name dir.now path.now) ≡ Some (log_bytes (log_header format) events)
            → All (IsTabled format) events → records ≡ length events → StandsBefore c self.new events)) }
        ensures most { self.new.left ≤ records }
        ensures none { OnErr result (self.new.left ≡ 0) }

        ensures reads { OnlyReads F.Folder folder.old folder.new (IsErrOf result Trouble.Failed) }
    {
        self.left = 0;
        self.format = format;
        self.name = path.name(alloc, dir)?;
        self.window.restart();
        if self
            .window
            .pass_header(alloc, folder, self.name.as_str(), &format.log_header())?
        {
            self.left = records;
        }
        Ok(())
    }

    // Passes a record that is ahead.
    fn pass_record(&mut self)
        requires left { 0 < self.old.left }
        requires ahead { 24 ≤ length self.old.window.ahead }
        ensures { self.new ≡ record self.old { window = skipped 24 self.old.window; left = self.old.left - 1 } }
    {
        self.window.skip(RECORD_SIZE);
        self.left -= 1;
    }

    /// The next record, or `None` after the last, and from then on. A read that fails changes nothing.
    pub fn next<F: Folder>(
        &mut self,
        alloc: Global,
        folder: &mut F,
    ) -> Result<Option<Record>, Trouble>
        ensures gives { WhereTold (F.state folder.old).content (λ c. (events : List Record) → StandsBefore c self.old events → IfOk result (λ answer. GivesNext c events answer self.new)) }
        ensures kept { WhereTold (F.state folder.old).content (λ c. (events : List Record) → StandsBefore c self.old events → OnErr result (StandsBefore c self.new events)) }
        ensures fewer { IfOk result (λ answer. IsTrue (is_some answer) → self.new.left < self.old.left) }
        ensures ended { IfOk result (λ answer. answer ≡ None → self.new.left ≡ 0) }

        ensures reads { OnlyReads F.Folder folder.old folder.new (IsErrOf result Trouble.Failed) }
    {
        if self.left == 0 {
            return Ok(None);
        }
        self.window
            .fill(alloc, folder, self.name.as_str(), RECORD_SIZE)?;
        let Some(next) = first_record(self.format, self.window.ahead()) else {
            self.left = 0;
            return Ok(None);
        };
        self.pass_record();
        Ok(Some(next))
    }
}
