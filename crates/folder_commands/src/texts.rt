//! The texts of the program.
ghost use Rattle.std.specs.Prelude.{◌≡◌, IfOk, string_bytes};
ghost use Rattle.folder_commands.specs.Texts.{index_why_name, record_why_name, no_index_text, bad_row_text, missing_log_text, bad_record_text, differs_text, no_race_pair_text, place_text, race_byte_text, race_text, too_many_segments_text, upgraded_text};

use explain::RacePair;
use race_model::{IndexWhy, RecordWhy};
use std::alloc::Global;
use sw_base::{Memory, Path};

fn index_why(why: IndexWhy) -> &'static str
    ensures { result.now ≡ index_why_name why }
{
    match why {
        IndexWhy::Old => "Old",
        IndexWhy::Header => "Header",
        IndexWhy::TooMany => "TooMany",
        IndexWhy::Cut => "Cut",
        IndexWhy::Depth => "Depth",
        IndexWhy::Span => "Span",
        IndexWhy::Lane => "Lane",
        IndexWhy::Order => "Order",
        IndexWhy::Records => "Records",
    }
}

fn record_why(why: RecordWhy) -> &'static str
    ensures { result.now ≡ record_why_name why }
{
    match why {
        RecordWhy::Header => "Header",
        RecordWhy::Cut => "Cut",
        RecordWhy::Kind => "Kind",
        RecordWhy::Size => "Size",
        RecordWhy::LineZero => "LineZero",
        RecordWhy::Address => "Address",
        RecordWhy::Span => "Span",
        RecordWhy::Reserved => "Reserved",
        RecordWhy::EndEarly => "EndEarly",
        RecordWhy::EndMissing => "EndMissing",
        RecordWhy::LockTwice => "LockTwice",
        RecordWhy::LocksDeep => "LocksDeep",
        RecordWhy::UnlockOther => "UnlockOther",
        RecordWhy::RootBarrier => "RootBarrier",
        RecordWhy::BarrierLocked => "BarrierLocked",
        RecordWhy::RegionLocked => "RegionLocked",
        RecordWhy::LockOpen => "LockOpen",
        RecordWhy::RegionRows => "RegionRows",
        RecordWhy::BarrierCount => "BarrierCount",
        RecordWhy::Extra => "Extra",
    }
}

pub fn no_index(alloc: Global) -> Result<String, Memory>
    ensures { IfOk result (λ text. string_bytes text ≡ no_index_text) }
{
    Ok(String::from_str(alloc, "no index\n")?)
}

pub fn bad_row(alloc: Global, row: u32, why: IndexWhy) -> Result<String, Memory>
    ensures { IfOk result (λ text. string_bytes text ≡ bad_row_text row why) }
{
    let why = index_why(why);
    Ok(format!(in alloc; "bad index row {row}: {why}\n")?)
}

pub fn missing_log(alloc: Global, path: &Path) -> Result<String, Memory>
    ensures { IfOk result (λ text. string_bytes text ≡ missing_log_text path.now) }
{
    let name = path.bare_name(alloc)?;
    Ok(format!(in alloc; "missing log {name}\n")?)
}

pub fn bad_record(alloc: Global, path: &Path, number: u32, why: RecordWhy) -> Result<String, Memory>
    ensures { IfOk result (λ text. string_bytes text ≡ bad_record_text path.now number why) }
{
    let name = path.bare_name(alloc)?;
    let why = record_why(why);
    Ok(format!(in alloc; "bad log {name} record {number}: {why}\n")?)
}

pub fn too_many_segments(alloc: Global, path: &Path, number: u32) -> Result<String, Memory>
    ensures { IfOk result (λ text. string_bytes text ≡ too_many_segments_text path.now number) }
{
    let name = path.bare_name(alloc)?;
    Ok(format!(in alloc; "too many segments at {name} record {number}\n")?)
}

pub fn differs(alloc: Global, path: &Path, number: u32) -> Result<String, Memory>
    ensures { IfOk result (λ text. string_bytes text ≡ differs_text path.now number) }
{
    let name = path.bare_name(alloc)?;
    Ok(format!(in alloc; "differs {name} record {number}\n")?)
}

pub fn upgraded(alloc: Global, count: u32) -> Result<String, Memory>
    ensures { IfOk result (λ text. string_bytes text ≡ upgraded_text count) }
{
    Ok(format!(in alloc; "upgraded {count}\n")?)
}

pub fn race_byte(alloc: Global, byte: u64) -> Result<String, Memory>
    ensures { IfOk result (λ text. string_bytes text ≡ race_byte_text byte) }
{
    Ok(format!(in alloc; "race byte {byte}\n")?)
}

fn place(alloc: Global, row: u32, path: &Path, number: u32) -> Result<String, Memory>
    ensures { IfOk result (λ text. string_bytes text ≡ place_text row path.now number) }
{
    let name = path.bare_name(alloc)?;
    Ok(format!(in alloc; "row {row} {name} record {number}")?)
}

pub fn race_pair(
    alloc: Global,
    found: &RacePair,
    one: &Path,
    other: &Path,
) -> Result<String, Memory>
    ensures { IfOk result (λ text. string_bytes text ≡ race_text found.now one.now other.now) }
{
    let first = place(alloc, found.first_row, one, found.first)?;
    let second = place(alloc, found.second_row, other, found.second)?;
    let byte = found.byte;
    Ok(format!(in alloc; "race {first} {second} byte {byte}\n")?)
}

pub fn no_race_pair(alloc: Global, low: u32, high: u32) -> Result<String, Memory>
    ensures { IfOk result (λ text. string_bytes text ≡ no_race_pair_text low high) }
{
    Ok(format!(in alloc; "no race {low} {high}\n")?)
}
