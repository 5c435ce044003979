//! The files of a folder in memory: a map from names to bytes.
ghost use Rattle.std.specs.Prelude.{◌≡◌, OnOk, OnErr, drop, length, ◌≤◌};
ghost use Rattle.std.specs.Option.{option_copied};
ghost use Rattle.sw_base.specs.Environment.{Reads};
ghost use Rattle.memory_environment.specs.MemFolder.{held_by, with_list};

use std::alloc::Global;
use std::collections::BTreeMap;
use sw_base::Memory;

/// Names, and the bytes that they hold.
pub type Held = BTreeMap<String, Vec<u8>>;

/// The list that a name holds.
#[tactic(auto, unfolding(crate::specs::MemFolder::held_by))]
pub fn find<'a, T>(files: &'a BTreeMap<String, Vec<T>>, name: &str) -> Option<&'a [T]>
    ensures { option_copied result ≡ held_by files.now name.now }
{
    match files.get(name) {
        Some(list) => Some(list.as_slice()),
        None => None,
    }
}

/// Makes the name hold the list. Where there is no memory all names are as before.
#[tactic(auto, unfolding(crate::specs::MemFolder::held_by))]
pub fn store<T: Drop>(
    files: &mut BTreeMap<String, Vec<T>>,
    alloc: Global,
    name: &str,
    list: Vec<T>,
) -> Result<(), Memory>
    ensures ok { OnOk result (held_by files.new ≡ with_list name.now list.items (held_by files.old)) }
    ensures err { OnErr result (held_by files.new ≡ held_by files.old) }
{
    let name = String::from_str(alloc, name)?;
    files.insert(name, list)?;
    Ok(())
}

/// Copies the file's bytes from `at` on to the start of `into`, as many as there are and fit. The rest of `into` is kept.
pub fn copy_from(file: &[u8], at: u64, into: &mut [u8]) -> usize
    ensures fits { result ≤ length into.old }
    ensures reads { Reads file.now at result into.new }
    ensures rest { drop result into.new ≡ drop result into.old }
{
    if at >= file.len() as u64 {
        return 0;
    }
    let rest = &file[at as usize..];
    let count = rest.len().min(into.len());
    into[..count].copy_from_slice(&rest[..count]);
    count
}
