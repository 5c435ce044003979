//! The files of a folder: what they begin with, and the name of the index. A log's name is its task's path.
ghost use Rattle.std.specs.Prelude.{◌≡◌, string_bytes, IfOk};
ghost use Rattle.sw_base.specs.Names.{index_name};

use crate::trouble::Memory;
use std::alloc::Global;

/// The eight bytes that a log begins with.
pub const LOG_HEADER: [u8; 8] = *b"SWLOG002";

/// The eight bytes that an index begins with.
pub const INDEX_HEADER: [u8; 8] = *b"SWIDX002";

/// The eight bytes that a log of the first format begins with.
pub const OLD_LOG_HEADER: [u8; 8] = *b"SWLOG001";

/// The eight bytes that an index of the first format begins with.
pub const OLD_INDEX_HEADER: [u8; 8] = *b"SWIDX001";

/// The name of the index of the folder `dir`.
#[tactic(auto, unfolding(crate::specs::Names::index_name))]
pub fn index_name(alloc: Global, dir: &str) -> Result<String, Memory>
    ensures { IfOk result (λ name. string_bytes name ≡ index_name dir.now) }
{
    Ok(format!(in alloc; "{dir}/index.swi")?)
}
