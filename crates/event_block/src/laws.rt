//! A law of blocks.
ghost use Rattle.std.specs.Prelude.{◌≡◌};

use crate::block::Block;
use std::marker::Send;

/// Takes only what may be handed to another thread.
fn sent<T: Send>(value: T) -> T
    ensures { result ≡ value }
{
    value
}

/// A block may be handed to another thread.
pub fn block_is_sent(block: Block) -> Block
    ensures { result ≡ block }
{
    sent(block)
}
