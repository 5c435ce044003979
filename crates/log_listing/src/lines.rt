//! The lines of a listing. A record's is added to a text, of which nothing is known where no memory was found.
ghost use Rattle.std.specs.Prelude.{◌≡◌, ◌++◌, codes, decimal, IfOk, OnOk, string_bytes};
ghost use Rattle.std.specs.Int.{w64, cast_signed};
ghost use Rattle.std.specs.Fmt.{signed_decimal};
ghost use Rattle.log_listing.specs.Listing.{site_text, access_text, record_text, record_line, log_line};

use log_format::{Kind, Record};
use std::alloc::Global;
use sw_base::{Memory, Path};

fn put_site(text: &mut String, r: &Record) -> Result<(), Memory>
    ensures { OnOk result (string_bytes text.new ≡ string_bytes text.old ++ site_text r.now) }
{
    let size = r.size;
    let site = r.site;
    let line = r.line;
    write!(text, "{size} site {site} line {line}")?;
    Ok(())
}

fn put_value(text: &mut String, r: &Record) -> Result<(), Memory>
    ensures { OnOk result (string_bytes text.new ≡ string_bytes text.old ++ (codes " addr " ++ decimal r.now.addr ++ codes " value " ++ signed_decimal (cast_signed w64 r.now.value))) }
{
    let addr = r.addr;
    let value = r.value.cast_signed();
    write!(text, " addr {addr} value {value}")?;
    Ok(())
}

// Adds an access, which this word names.
#[tactic(auto, using(crate::proofs::Texts::parts))]
fn put_access(text: &mut String, word: &str, r: &Record) -> Result<(), Memory>
    ensures { OnOk result (string_bytes text.new ≡ string_bytes text.old ++ (word.now ++ access_text r.now)) }
{
    text.push_str(word)?;
    put_site(text, r)?;
    put_value(text, r)
}

fn put_part(text: &mut String, r: &Record) -> Result<(), Memory>
    ensures { OnOk result (string_bytes text.new ≡ string_bytes text.old ++ record_text r.now.kind r.now) }
{
    let line = r.line;
    let addr = r.addr;
    let value = r.value;
    match r.kind {
        Kind::Read => put_access(text, "read ", r)?,
        Kind::Write => put_access(text, "write ", r)?,
        Kind::Lock => write!(text, "lock {addr} line {line}")?,
        Kind::Unlock => write!(text, "unlock {addr} line {line}")?,
        Kind::Barrier => write!(text, "barrier line {line}")?,
        Kind::Region => write!(text, "region {value} line {line}")?,
        Kind::Chunk => write!(text, "chunk {addr} of {value} line {line}")?,
        Kind::End => write!(text, "end line {line}")?,
        Kind::Update => put_access(text, "update ", r)?,
    }
    Ok(())
}

/// Adds the line of a record.
#[tactic(auto, using(crate::proofs::Texts::parts))]
pub fn put_record(text: &mut String, number: u64, r: &Record) -> Result<(), Memory>
    ensures { OnOk result (string_bytes text.new ≡ string_bytes text.old ++ record_line number r.now) }
{
    write!(text, "{number} ")?;
    put_part(text, r)?;
    text.push_str("\n")?;
    Ok(())
}

/// The line of a log.
pub fn line_of_log(alloc: Global, path: &Path, count: u32) -> Result<String, Memory>
    ensures { IfOk result (λ text. string_bytes text ≡ log_line path.now count) }
{
    let name = path.bare_name(alloc)?;
    Ok(format!(in alloc; "log {name} records {count}\n")?)
}
