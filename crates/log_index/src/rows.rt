ghost use Rattle.std.specs.Prelude.{◌≡◌, ◌≢◌, ℕ, ◌+◌, ◌*◌, ◌≤◌, [], length, take, drop, map, IsTrue, IsFalse, IfOk, IfErr, IsErrOf, OnOk};
ghost use Rattle.sw_base.specs.Environment.{WhereTold};
ghost use Rattle.sw_base.specs.OnlyReads.{OnlyReads};
ghost use Rattle.sw_base.specs.Window.{Shows, file_of};
ghost use Rattle.log_format.specs.Format.{index_header};
ghost use Rattle.race_model.specs.declared.why.IndexWhy.{IndexWhy};
ghost use Rattle.race_model.specs.Row.{raw_of, used};
ghost use Rattle.race_model.specs.IndexFault.{HasDepth, HasRecords, AreFirstRows, AreRows, FailsIndexFirst, max_rows};
ghost use Rattle.log_index.specs.Answers.{IsOfBytes};
ghost use Rattle.log_index.specs.Rows.{raw_of_fields, AddsRow, OneMore, HasNextRow, ReadsRow, FailsAt, SpellsFirstRows, SpellsRows, IsFirstBadRow};

use crate::fields::{Fields, fields_of, path_of};
use crate::listing::is_whole;
use crate::row::{IndexAnswer, Row};
use crate::rules::check;
use log_format::Format;
use race_model::IndexWhy;
use std::alloc::Global;
use sw_base::{Folder, Trouble, Window};

/// The most rows that an index has.
const MAX_ROWS: usize = 65_536;

/// The bytes of a row.
const ROW: usize = 48;

/// How many bytes of an index are read at once: 1,365 rows.
const WINDOW: usize = 65_520;

/// The row with these fields.
fn row_of_fields(fields: &Fields) -> Row
    requires depth { HasDepth (raw_of_fields fields.now) }
    requires records { HasRecords fields.now.records }
    ensures path { result.path ≡ used (raw_of_fields fields.now) }
    ensures count { result.records ≡ fields.now.records }
{
    Row {
        path: path_of(&fields.steps[..fields.depth as usize]),
        records: fields.records as u32,
    }
}

/// The row that stands at the start of the bytes that are left, or the first rule that it breaks.
fn next_row(before: &[Row], rest: &[u8]) -> Result<Row, IndexWhy>
    requires good { AreFirstRows before.now }
    requires some { rest.now ≢ [] }
    ensures adds { IfOk result (λ row. AddsRow before.now row rest.now) }
    ensures fails { IfErr result (λ why. FailsIndexFirst (map raw_of before.now) rest.now why) }
{
    if before.len() == MAX_ROWS {
        return Err(IndexWhy::TooMany);
    }
    let Some((bytes, _)) = rest.split_first_chunk::<ROW>() else {
        return Err(IndexWhy::Cut);
    };
    let fields = fields_of(bytes);
    match check(before, &fields) {
        Ok(()) => Ok(row_of_fields(&fields)),
        Err(why) => Err(why),
    }
}

/// Reads the row that stands at the start of the bytes that are left.
fn add_row(rows: &mut Vec<Row>, rest: &[u8]) -> Result<(), IndexAnswer>
    requires good { AreFirstRows rows.old.items }
    requires some { rest.now ≢ [] }
    ensures adds { OnOk result (OneMore rows.old.items rows.new.items rest.now) }
    ensures bad { IfErr result (λ answer. (n : ℕ) (why : IndexWhy) → answer ≡ IndexAnswer.Bad n why →
        (n ≡ length rows.old.items + 1) × FailsIndexFirst (map raw_of rows.old.items) rest.now why) }
    ensures only { IfErr result IsOfBytes }
{
    match next_row(rows, rest) {
        Ok(row) => {
            rows.push(row)?;
            Ok(())
        }
        Err(why) => Err(bad_row(rows, why)),
    }
}

/// The first row after these is bad.
fn bad_row(rows: &[Row], why: IndexWhy) -> IndexAnswer
    requires { length rows.now ≤ max_rows }
    ensures { result ≡ IndexAnswer.Bad (length rows.now + 1) why }
{
    IndexAnswer::Bad {
        row: rows.len() as u32 + 1,
        why,
    }
}

/// Reads the row after these. False where no byte is left.
fn read_row<F: Folder>(
    alloc: Global,
    folder: &mut F,
    name: &str,
    window: &mut Window,
    rows: &mut Vec<Row>,
) -> Result<bool, IndexAnswer>
    requires good { AreFirstRows rows.old.items }
    requires place { window.old.place ≡ 8 + 48 * length rows.old.items }
    ensures grows { IfOk result (λ more. IsTrue more → HasNextRow rows.old.items rows.new.items window.old window.new) }
    ensures row { IfOk result (λ more. IsTrue more → WhereTold (F.state folder.old).content (λ c. Shows window.old (file_of c name.now)
        → ReadsRow (file_of c name.now) rows.old.items rows.new.items window.old window.new)) }
    ensures ends { IfOk result (λ more. IsFalse more → rows.new.items ≡ rows.old.items) }
    ensures all { IfOk result (λ more. IsFalse more → WhereTold (F.state folder.old).content (λ c. Shows window.old (file_of c name.now)
        → drop window.old.place (file_of c name.now) ≡ [])) }
    ensures bad { IfErr result (λ answer. (n : ℕ) (why : IndexWhy) → answer ≡ IndexAnswer.Bad n why → (n ≡ length rows.old.items + 1)
        × WhereTold (F.state folder.old).content (λ c. Shows window.old (file_of c name.now) → FailsIndexFirst (map raw_of rows.old.items) (drop window.old.place (file_of c name.now)) why)) }
    ensures there { IsErrOf result IndexAnswer.NoIndex → ⊥ }

    ensures reads { OnlyReads F.Folder folder.old folder.new (IsErrOf result IndexAnswer.ReadFault) }
{
    window.fill(alloc, folder, name, ROW)?;
    if window.ahead().is_empty() {
        return Ok(false);
    }
    add_row(rows, window.ahead())?;
    window.skip(ROW);
    Ok(true)
}

/// Reads rows until no byte is left.
fn first_rows<F: Folder>(
    alloc: Global,
    folder: &mut F,
    name: &str,
    window: &mut Window,
) -> Result<Vec<Row>, IndexAnswer>
    requires place { window.old.place ≡ 8 }
    ensures good { IfOk result (λ rows. AreFirstRows rows.items) }
    ensures rows { IfOk result (λ rows. WhereTold (F.state folder.old).content (λ c. Shows window.old (file_of c name.now)
        → SpellsFirstRows (drop 8 (file_of c name.now)) rows.items)) }
    ensures bad { IfErr result (λ answer. (n : ℕ) (why : IndexWhy) → answer ≡ IndexAnswer.Bad n why
        → WhereTold (F.state folder.old).content (λ c. Shows window.old (file_of c name.now) → FailsAt (drop 8 (file_of c name.now)) n why)) }
    ensures there { IsErrOf result IndexAnswer.NoIndex → ⊥ }

    ensures reads { OnlyReads F.Folder folder.old folder.new (IsErrOf result IndexAnswer.ReadFault) }
{
    let mut rows = Vec::new(alloc);
    'rows: loop {
        if !read_row(alloc, folder, name, window, &mut rows)? {
            return Ok(rows);
        }
    }
}

/// Where no byte is left, the rows are all, or the first rule that the end breaks.
fn check_end(rows: &[Row]) -> Result<(), IndexWhy>
    requires { AreFirstRows rows.now }
    ensures whole { OnOk result (AreRows rows.now) }
    ensures fails { IfErr result (λ why. FailsIndexFirst (map raw_of rows.now) [] why) }
{
    if rows.is_empty() {
        return Err(IndexWhy::Cut);
    }
    if !is_whole(rows) {
        return Err(IndexWhy::Order);
    }
    Ok(())
}

/// Why a file with another header than the format's is no index: it may be one of the format before.
fn header_fault<F: Folder>(
    alloc: Global,
    format: Format,
    folder: &mut F,
    name: &str,
    window: &mut Window,
) -> Result<IndexWhy, Trouble>
    ensures bad { IfOk result (λ why. WhereTold (F.state folder.old).content (λ c. take 8 (file_of c name.now) ≢ index_header format
        → IsFirstBadRow format (file_of c name.now) 0 why)) }

    ensures reads { OnlyReads F.Folder folder.old folder.new (IsErrOf result Trouble.Failed) }
{
    let Some(older) = format.older_header() else {
        return Ok(IndexWhy::Header);
    };
    window.restart();
    if window.pass_header(alloc, folder, name, &older)? {
        return Ok(IndexWhy::Old);
    }
    Ok(IndexWhy::Header)
}

/// The rows of the index of this format under this name, or the first bad row.
pub fn read_rows<F: Folder>(
    alloc: Global,
    format: Format,
    folder: &mut F,
    name: &str,
) -> Result<Vec<Row>, IndexAnswer>
    ensures good { IfOk result (λ rows. AreRows rows.items) }
    ensures rows { IfOk result (λ rows. WhereTold (F.state folder.old).content (λ c. SpellsRows format (file_of c name.now) rows.items)) }
    ensures bad { IfErr result (λ answer. (n : ℕ) (why : IndexWhy) → answer ≡ IndexAnswer.Bad n why
        → WhereTold (F.state folder.old).content (λ c. IsFirstBadRow format (file_of c name.now) n why)) }
    ensures there { IsErrOf result IndexAnswer.NoIndex → ⊥ }

    ensures reads { OnlyReads F.Folder folder.old folder.new (IsErrOf result IndexAnswer.ReadFault) }
{
    let mut window = Window::new(alloc, WINDOW)?;
    if !window.pass_header(alloc, folder, name, &format.index_header())? {
        let why = header_fault(alloc, format, folder, name, &mut window)?;
        return Err(IndexAnswer::Bad { row: 0, why });
    }
    let rows = first_rows(alloc, folder, name, &mut window)?;
    match check_end(&rows) {
        Ok(()) => Ok(rows),
        Err(why) => Err(bad_row(&rows, why)),
    }
}
