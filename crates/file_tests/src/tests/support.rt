//! Folders in memory.

use memory_environment::MemFolder;
use std::alloc::Global;
use sw_base::Memory;

/// A folder in which the name holds these bytes.
pub(crate) fn folder_of(alloc: Global, name: &str, bytes: &[u8]) -> Result<MemFolder, Memory> {
    let mut folder = MemFolder::new(alloc)?;
    folder.hold(name, bytes)?;
    Ok(folder)
}
