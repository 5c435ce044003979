//! The texts of verdicts.
ghost use Rattle.std.specs.Prelude.{◌≡◌, IfOk, string_bytes};
ghost use Rattle.certify_command.specs.Texts.{certain_text, construct_text, long_text, segments_text, uncertain_stop_text};

use command_answer::{run_text, stop_line};
use kernel_syntax::Array;
use serial_team::StopWhy;
use std::alloc::Global;
use sw_base::{Memory, Path};

pub fn construct(alloc: Global, line: u32) -> Result<String, Memory>
    ensures { IfOk result (λ text. string_bytes text ≡ construct_text line) }
{
    Ok(format!(in alloc; "uncertain: construct line {line}\n")?)
}

pub fn long(alloc: Global, path: &Path, number: u32) -> Result<String, Memory>
    ensures { IfOk result (λ text. string_bytes text ≡ long_text path.now number) }
{
    let name = path.bare_name(alloc)?;
    Ok(format!(in alloc; "uncertain: long at {name} record {number}\n")?)
}

pub fn segments(alloc: Global, path: &Path, number: u32) -> Result<String, Memory>
    ensures { IfOk result (λ text. string_bytes text ≡ segments_text path.now number) }
{
    let name = path.bare_name(alloc)?;
    Ok(format!(in alloc; "uncertain: segments at {name} record {number}\n")?)
}

pub fn stopped(alloc: Global, path: &Path, line: u32, why: StopWhy) -> Result<String, Memory>
    ensures { IfOk result (λ text. string_bytes text ≡ uncertain_stop_text path.now line why) }
{
    let told = stop_line(alloc, path, line, why.name())?;
    Ok(format!(in alloc; "uncertain: {told}")?)
}

pub fn certain(
    alloc: Global,
    tasks: u64,
    records: u64,
    arrays: &[Array],
    words: &[u64],
) -> Result<String, Memory>
    ensures { IfOk result (λ text. string_bytes text ≡ certain_text tasks records arrays.now words.now) }
{
    let run = run_text(alloc, tasks as usize, records, arrays, words)?;
    Ok(format!(in alloc; "certain\n{run}")?)
}
