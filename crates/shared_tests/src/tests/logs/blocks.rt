//! Each public call of a block with ample memory, and the sizes at which one more piece fits.
ghost use Rattle.std.specs.Prelude.{◌≤◌};

use event_block::{Block, block_is_sent};
use std::alloc::Global;
use sw_base::Memory;

// Whether the block takes a piece of 24 bytes that are all this one.
fn takes(block: &mut Block, byte: u8) -> bool {
    block.push(&[byte; 24])
}

// Which of five pieces the block takes, of bytes from 0 on.
fn take_five(block: &mut Block) -> [bool; 5] {
    [
        takes(block, 0),
        takes(block, 1),
        takes(block, 2),
        takes(block, 3),
        takes(block, 4),
    ]
}

// Whether each piece of 24 bytes is of its number from 0 on.
fn are_numbered(bytes: &[u8]) -> bool {
    for (place, byte) in bytes.iter().enumerate() {
        if usize::from(*byte) != place / 24 {
            return false;
        }
    }
    true
}

#[test]
fn a_block_takes_pieces_while_they_fit(rt: HostRuntime) {
    let mut block = Block::new(rt.alloc(), 100).expect(&rt, "memory");
    let before = block.len();
    let taken = take_five(&mut block);
    assert!(rt; taken == [true, true, true, true, false]);
    assert!(rt; (before, block.len(), block.size()) == (0, 96, 100));
    assert!(rt; block.bytes().len() == 96 && are_numbered(block.bytes()));
}

#[test]
fn a_block_that_was_full_is_cleared(rt: HostRuntime) {
    let mut block = Block::new(rt.alloc(), 100).expect(&rt, "memory");
    let taken = take_five(&mut block);
    block.clear();
    let is_empty = block.len() == 0 && block.bytes().is_empty();
    let is_taken = takes(&mut block, 7);
    assert!(rt; taken == [true, true, true, true, false] && is_empty && is_taken);
    assert!(rt; block.bytes() == [7; 24].as_slice());
}

// Whether a block of this size takes so many pieces, and no more.
fn has_room_for(alloc: Global, size: usize, pieces: usize) -> Result<bool, Memory>
    requires { (24 ≤ size) × (size ≤ 4194304) }
{
    let mut block = block_is_sent(Block::new(alloc, size)?);
    for _ in 0..pieces {
        if !takes(&mut block, 1) {
            return Ok(false);
        }
    }
    Ok(!takes(&mut block, 1) && block.len() / 24 == pieces)
}

#[test]
fn each_size_has_room_for_its_whole_pieces(rt: HostRuntime) {
    for (size, pieces) in [(24, 1), (25, 1), (47, 1), (48, 2), (4_194_304, 174_762)] {
        let found = has_room_for(rt.alloc(), size, pieces);
        assert!(rt; found == Ok(true), "size {size}");
    }
}
