//! The arguments of a command line.
ghost use Rattle.std.specs.Prelude.{◌≡◌, ◌<◌, ◌≤◌, ◌^◌, ◌↔◌, ℕ, [], ◌∷◌, codes, decimal, length, IsTrue, IfOk, IfSome, IfNone};
ghost use Rattle.command_line.specs.Arguments.{IsName, IsNumber, IsUsage, Says, texts};
ghost use Rattle.command_line.specs.Commands.{request_of};

use std::alloc::{AllocError, Global};

/// A record of a folder, by its row and its number, both from 1.
#[derive(Clone, Copy)]
pub struct RecordName {
    /// Which row of the index.
    pub row: u64,
    /// Which record of that row's log.
    pub number: u64,
}

/// What a command line asks for.
#[derive(Drop)]
pub enum Command<'a> {
    /// Compare the accesses of a folder's logs, with so many workers.
    Check {
        dir: &'a str,
        workers: u64,
    },
    /// Run a kernel, with buffers of so many bytes, and with teams whose threads stay, or don't.
    Run {
        kernel: &'a str,
        dir: &'a str,
        size: u64,
        stays: bool,
    },
    /// Compare a folder's logs with a kernel.
    Replay {
        kernel: &'a str,
        dir: &'a str,
    },
    /// Print the records of a folder's logs.
    Show {
        dir: &'a str,
    },
    /// Compare the accesses of a run of so many rounds, with so many workers.
    Gen {
        rounds: u64,
        workers: u64,
    },
    /// Bring a folder of the first format over to another folder.
    Upgrade {
        dir: &'a str,
        new: &'a str,
    },
    /// Find the least race of two lines of a folder.
    Explain {
        dir: &'a str,
        low: u64,
        high: u64,
    },
    /// Tell whether two records of a folder race.
    Confirm {
        dir: &'a str,
        one: RecordName,
        other: RecordName,
    },
    /// Tell whether every run of a kernel must write the same logs.
    Certify {
        kernel: &'a str,
    },
}

/// What the arguments ask for. `None` where they ask for nothing.
pub fn read_arguments<'a>(
    alloc: Global,
    arguments: &'a [String],
) -> Result<Option<Command<'a>>, AllocError>
    ensures said { IfOk result (λ asked. IfSome asked (λ c. Says (texts arguments.now) (request_of c))) }
    ensures usage { IfOk result (λ asked. IfNone asked (IsUsage (texts arguments.now))) }
{
    match arguments {
        [name, first, second] => {
            two_arguments(alloc, name.as_str(), first.as_str(), second.as_str())
        }
        [name, first, second, third] => {
            three_arguments(
                alloc,
                name.as_str(),
                first.as_str(),
                second.as_str(),
                third.as_str(),
            )
        }
        [name, first] => Ok(one_argument(name.as_str(), first.as_str())),
        [name, first, second, third, fourth, fifth] => five_arguments(
            alloc,
            name.as_str(),
            first.as_str(),
            second.as_str(),
            third.as_str(),
            fourth.as_str(),
            fifth.as_str(),
        ),
        _ => Ok(None),
    }
}

fn show_arguments<'a>(dir: &'a str) -> Option<Command<'a>>
    ensures said { IfSome result (λ c. Says (codes "show" ∷ dir.now ∷ []) (request_of c)) }
    ensures usage { IfNone result (IsUsage (codes "show" ∷ dir.now ∷ [])) }
{
    if !is_name(dir) {
        return None;
    }
    Some(Command::Show { dir })
}

fn certify_arguments<'a>(kernel: &'a str) -> Option<Command<'a>>
    ensures said { IfSome result (λ c. Says (codes "certify" ∷ kernel.now ∷ []) (request_of c)) }
    ensures usage { IfNone result (IsUsage (codes "certify" ∷ kernel.now ∷ [])) }
{
    if !is_name(kernel) {
        return None;
    }
    Some(Command::Certify { kernel })
}

fn check_arguments<'a>(
    alloc: Global,
    dir: &'a str,
    workers: &str,
) -> Result<Option<Command<'a>>, AllocError>
    ensures said { IfOk result (λ asked. IfSome asked (λ c. Says (codes "check" ∷ dir.now ∷ workers.now ∷ []) (request_of c))) }
    ensures usage { IfOk result (λ asked. IfNone asked (IsUsage (codes "check" ∷ dir.now ∷ workers.now ∷ []))) }
{
    if !is_name(dir) {
        return Ok(None);
    }
    let workers = number(alloc, workers, 1, 64)?;
    Ok(workers.map(|workers| Command::Check { dir, workers }))
}

/// The size of the buffers of a run of this kernel into this folder.
fn run_size(alloc: Global, kernel: &str, dir: &str, size: &str) -> Result<Option<u64>, AllocError>
    ensures said { IfOk result (λ found. IfSome found (λ n. IsName kernel.now × IsName dir.now × IsNumber size.now 24 4194304 n)) }
    ensures usage { IfOk result (λ found. IfNone found ((n : ℕ) → IsName kernel.now → IsName dir.now → IsNumber size.now 24 4194304 n → ⊥)) }
{
    if !is_name(kernel) || !is_name(dir) {
        return Ok(None);
    }
    number(alloc, size, 24, 4_194_304)
}

fn run_arguments<'a>(
    alloc: Global,
    kernel: &'a str,
    dir: &'a str,
    size: &str,
) -> Result<Option<Command<'a>>, AllocError>
    ensures said { IfOk result (λ asked. IfSome asked (λ c. Says (codes "run" ∷ kernel.now ∷ dir.now ∷ size.now ∷ []) (request_of c))) }
    ensures usage { IfOk result (λ asked. IfNone asked (IsUsage (codes "run" ∷ kernel.now ∷ dir.now ∷ size.now ∷ []))) }
{
    let size = run_size(alloc, kernel, dir, size)?;
    Ok(size.map(|size| Command::Run {
        kernel,
        dir,
        size,
        stays: false,
    }))
}

fn live_arguments<'a>(
    alloc: Global,
    kernel: &'a str,
    dir: &'a str,
    size: &str,
) -> Result<Option<Command<'a>>, AllocError>
    ensures said { IfOk result (λ asked. IfSome asked (λ c. Says (codes "live" ∷ kernel.now ∷ dir.now ∷ size.now ∷ []) (request_of c))) }
    ensures usage { IfOk result (λ asked. IfNone asked (IsUsage (codes "live" ∷ kernel.now ∷ dir.now ∷ size.now ∷ []))) }
{
    let size = run_size(alloc, kernel, dir, size)?;
    Ok(size.map(|size| Command::Run {
        kernel,
        dir,
        size,
        stays: true,
    }))
}

fn one_argument<'a>(name: &str, first: &'a str) -> Option<Command<'a>>
    ensures said { IfSome result (λ c. Says (name.now ∷ first.now ∷ []) (request_of c)) }
    ensures usage { IfNone result (IsUsage (name.now ∷ first.now ∷ [])) }
{
    if name == "show" {
        return show_arguments(first);
    }
    if name == "certify" {
        return certify_arguments(first);
    }
    None
}

fn two_arguments<'a>(
    alloc: Global,
    name: &str,
    first: &'a str,
    second: &'a str,
) -> Result<Option<Command<'a>>, AllocError>
    ensures said { IfOk result (λ asked. IfSome asked (λ c. Says (name.now ∷ first.now ∷ second.now ∷ []) (request_of c))) }
    ensures usage { IfOk result (λ asked. IfNone asked (IsUsage (name.now ∷ first.now ∷ second.now ∷ []))) }
{
    if name == "check" {
        return check_arguments(alloc, first, second);
    }
    if name == "gen" {
        return gen_arguments(alloc, first, second);
    }
    if name == "replay" {
        return Ok(replay_arguments(first, second));
    }
    if name == "upgrade" {
        return Ok(upgrade_arguments(first, second));
    }
    Ok(None)
}

fn three_arguments<'a>(
    alloc: Global,
    name: &str,
    first: &'a str,
    second: &'a str,
    third: &'a str,
) -> Result<Option<Command<'a>>, AllocError>
    ensures said { IfOk result (λ asked. IfSome asked (λ c. Says (name.now ∷ first.now ∷ second.now ∷ third.now ∷ []) (request_of c))) }
    ensures usage { IfOk result (λ asked. IfNone asked (IsUsage (name.now ∷ first.now ∷ second.now ∷ third.now ∷ []))) }
{
    if name == "run" {
        return run_arguments(alloc, first, second, third);
    }
    if name == "live" {
        return live_arguments(alloc, first, second, third);
    }
    if name == "explain" {
        return explain_arguments(alloc, first, second, third);
    }
    Ok(None)
}

fn five_arguments<'a>(
    alloc: Global,
    name: &str,
    first: &'a str,
    second: &str,
    third: &str,
    fourth: &str,
    fifth: &str,
) -> Result<Option<Command<'a>>, AllocError>
    ensures said { IfOk result (λ asked. IfSome asked (λ c. Says (name.now ∷ first.now ∷ second.now ∷ third.now ∷ fourth.now ∷ fifth.now ∷ []) (request_of c))) }
    ensures usage { IfOk result (λ asked. IfNone asked (IsUsage (name.now ∷ first.now ∷ second.now ∷ third.now ∷ fourth.now ∷ fifth.now ∷ []))) }
{
    if name == "confirm" {
        return confirm_arguments(alloc, first, second, third, fourth, fifth);
    }
    Ok(None)
}

fn replay_arguments<'a>(kernel: &'a str, dir: &'a str) -> Option<Command<'a>>
    ensures said { IfSome result (λ c. Says (codes "replay" ∷ kernel.now ∷ dir.now ∷ []) (request_of c)) }
    ensures usage { IfNone result (IsUsage (codes "replay" ∷ kernel.now ∷ dir.now ∷ [])) }
{
    if !is_name(kernel) || !is_name(dir) {
        return None;
    }
    Some(Command::Replay { kernel, dir })
}

fn upgrade_arguments<'a>(dir: &'a str, new: &'a str) -> Option<Command<'a>>
    ensures said { IfSome result (λ c. Says (codes "upgrade" ∷ dir.now ∷ new.now ∷ []) (request_of c)) }
    ensures usage { IfNone result (IsUsage (codes "upgrade" ∷ dir.now ∷ new.now ∷ [])) }
{
    if !is_name(dir) || !is_name(new) {
        return None;
    }
    Some(Command::Upgrade { dir, new })
}

fn gen_arguments<'a>(
    alloc: Global,
    rounds: &str,
    workers: &str,
) -> Result<Option<Command<'a>>, AllocError>
    ensures said { IfOk result (λ asked. IfSome asked (λ c. Says (codes "gen" ∷ rounds.now ∷ workers.now ∷ []) (request_of c))) }
    ensures usage { IfOk result (λ asked. IfNone asked (IsUsage (codes "gen" ∷ rounds.now ∷ workers.now ∷ []))) }
{
    let Some(rounds) = number(alloc, rounds, 1, 100_000)? else {
        return Ok(None);
    };
    let workers = number(alloc, workers, 1, 64)?;
    Ok(workers.map(|workers| Command::Gen { rounds, workers }))
}

/// Two lines, the smaller first.
fn lines(alloc: Global, low: &str, high: &str) -> Result<Option<(u64, u64)>, AllocError>
    ensures said { IfOk result (λ found. IfSome found (λ lines. IsNumber low.now 1 4294967295 lines.0 × IsNumber high.now 1 4294967295 lines.1 × (lines.0 ≤ lines.1))) }
    ensures usage { IfOk result (λ found. IfNone found ((n m : ℕ) → IsNumber low.now 1 4294967295 n → IsNumber high.now 1 4294967295 m → n ≤ m → ⊥)) }
{
    let Some(low) = number(alloc, low, 1, 4_294_967_295)? else {
        return Ok(None);
    };
    let Some(high) = number(alloc, high, 1, 4_294_967_295)? else {
        return Ok(None);
    };
    if high < low {
        return Ok(None);
    }
    Ok(Some((low, high)))
}

fn explain_arguments<'a>(
    alloc: Global,
    dir: &'a str,
    low: &str,
    high: &str,
) -> Result<Option<Command<'a>>, AllocError>
    ensures said { IfOk result (λ asked. IfSome asked (λ c. Says (codes "explain" ∷ dir.now ∷ low.now ∷ high.now ∷ []) (request_of c))) }
    ensures usage { IfOk result (λ asked. IfNone asked (IsUsage (codes "explain" ∷ dir.now ∷ low.now ∷ high.now ∷ []))) }
{
    if !is_name(dir) {
        return Ok(None);
    }
    let lines = lines(alloc, low, high)?;
    Ok(lines.map(|lines| Command::Explain {
        dir,
        low: lines.0,
        high: lines.1,
    }))
}

/// The record of this row and number.
fn record_name(alloc: Global, row: &str, number_of: &str) -> Result<Option<RecordName>, AllocError>
    ensures said { IfOk result (λ found. IfSome found (λ one. IsNumber row.now 1 65536 one.row × IsNumber number_of.now 1 4194304 one.number)) }
    ensures usage { IfOk result (λ found. IfNone found ((n m : ℕ) → IsNumber row.now 1 65536 n → IsNumber number_of.now 1 4194304 m → ⊥)) }
{
    let Some(row) = number(alloc, row, 1, 65_536)? else {
        return Ok(None);
    };
    let number = number(alloc, number_of, 1, 4_194_304)?;
    Ok(number.map(|number| RecordName { row, number }))
}

fn confirm_arguments<'a>(
    alloc: Global,
    dir: &'a str,
    row: &str,
    number: &str,
    other_row: &str,
    other_number: &str,
) -> Result<Option<Command<'a>>, AllocError>
    ensures said { IfOk result (λ asked. IfSome asked (λ c. Says (codes "confirm" ∷ dir.now ∷ row.now ∷ number.now ∷ other_row.now ∷ other_number.now ∷ []) (request_of c))) }
    ensures usage { IfOk result (λ asked. IfNone asked (IsUsage (codes "confirm" ∷ dir.now ∷ row.now ∷ number.now ∷ other_row.now ∷ other_number.now ∷ []))) }
{
    if !is_name(dir) {
        return Ok(None);
    }
    let Some(one) = record_name(alloc, row, number)? else {
        return Ok(None);
    };
    let other = record_name(alloc, other_row, other_number)?;
    Ok(other.map(|other| Command::Confirm { dir, one, other }))
}

fn is_name(word: &str) -> bool
    ensures { IsTrue result ↔ IsName word.now }
{
    1 <= word.len() && word.len() <= 1024
}

/// The number that the word is in decimal digits, where it lies within the limits.
fn number(alloc: Global, word: &str, low: u64, high: u64) -> Result<Option<u64>, AllocError>
    ensures found { IfOk result (λ found. IfSome found (λ n. IsNumber word.now low high n)) }
    ensures none { IfOk result (λ found. IfNone found ((n : ℕ) → IsNumber word.now low high n → ⊥)) }
{
    let Some(n) = parsed(word) else {
        return Ok(None);
    };
    if !is_within(n, low, high) {
        return Ok(None);
    }
    Ok(is_decimal(alloc, word, n)?.then_some(n))
}

fn parsed(word: &str) -> Option<u64>
    ensures { (n : ℕ) → n < 2 ^ 64 → word.now ≡ decimal n → result ≡ Some n }
{
    word.parse::<u64>().ok()
}

fn is_within(n: u64, low: u64, high: u64) -> bool
    ensures { IsTrue result ↔ ((low ≤ n) × (n ≤ high)) }
{
    low <= n && n <= high
}

fn is_decimal(alloc: Global, word: &str, n: u64) -> Result<bool, AllocError>
    ensures { IfOk result (λ same. IsTrue same ↔ (word.now ≡ decimal n)) }
{
    let digits = format!(in alloc; "{n}")?;
    Ok(digits.as_str() == word)
}
