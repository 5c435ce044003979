//! The texts of a kernel's run: where and why it stopped, or its counts and the sum of each array.
ghost use Rattle.std.specs.Prelude.{◌≡◌, ◌^◌, ◌<◌, length, string_bytes, IfOk};
ghost use Rattle.sw_base.specs.Names.{bare_log_name};
ghost use Rattle.command_answer.specs.RunTexts.{count_lines, run_text, stop_line, sum_line, sum_of, values_of};

use kernel_syntax::Array;
use std::alloc::Global;
use sw_base::{Memory, Path};

/// Where and why a kernel stopped.
pub fn stop_line(alloc: Global, path: &Path, line: u32, why: &str) -> Result<String, Memory>
    ensures { IfOk result (λ text. string_bytes text ≡ stop_line path.now line why.now) }
{
    let name = path.bare_name(alloc)?;
    Ok(format!(in alloc; "stopped {name} line {line}: {why}\n")?)
}

/// The sum of values, which are signed.
fn sum_of(values: &[u64]) -> i128
    requires { length values.now < 2 ^ 32 }
    ensures { result ≡ sum_of values.now }
{
    let mut sum = 0;
    for value in values {
        sum += i128::from(value.cast_signed());
    }
    sum
}

/// The values of an array's elements.
fn values_of<'a>(array: &Array, words: &'a [u64]) -> &'a [u64]
    ensures values { result.now ≡ values_of array.now words.now }
    ensures few { length result.now < 2 ^ 32 }
{
    let first = words.len().min(array.first as usize);
    let rest = &words[first..];
    &rest[..rest.len().min(array.count as usize)]
}

fn sum_line(alloc: Global, array: &Array, words: &[u64]) -> Result<String, Memory>
    ensures { IfOk result (λ text. string_bytes text ≡ sum_line words.now array.now) }
{
    let name = array.name.as_str();
    let sum = sum_of(values_of(array, words));
    Ok(format!(in alloc; "sum {name} {sum}\n")?)
}

fn count_lines(alloc: Global, tasks: usize, records: u64) -> Result<String, Memory>
    ensures { IfOk result (λ text. string_bytes text ≡ count_lines tasks records) }
{
    Ok(format!(in alloc; "tasks {tasks}\nrecords {records}\n")?)
}

/// The counts of a run, and the sum of each array's values.
pub fn run_text(
    alloc: Global,
    tasks: usize,
    records: u64,
    arrays: &[Array],
    words: &[u64],
) -> Result<String, Memory>
    ensures { IfOk result (λ text. string_bytes text ≡ run_text tasks records arrays.now words.now) }
{
    let mut text = count_lines(alloc, tasks, records)?;
    for array in arrays {
        let line = sum_line(alloc, array, words)?;
        text.push_str(line.as_str())?;
    }
    Ok(text)
}
