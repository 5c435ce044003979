//! A block of bytes.
ghost use Rattle.std.specs.Prelude.{◌≡◌, ◌-◌, ◌<◌, ◌≤◌, ◌↔◌, [], ◌++◌, length, IfOk, IsTrue, IsFalse};

use crate::region::{Region, Start, allocate, release};
use std::alloc::Global;
use std::marker::Model;
use sw_base::Memory;

/// Bytes in raw memory of a fixed size.
pub struct Block {
    start: Start,
    region: Region<Global>,
    size: usize,
    len: usize,
    alloc: Global,
}

impl Model for Block {
    ghost use Rattle.event_block.specs.Contents.{Contents};

    ghost Value = { Contents };

    ghost use Rattle.event_block.specs.Block.{contents, IsBlock};

    ghost view = { contents };

    ghost invariant = { IsBlock };
}

impl Block {
    /// An empty block of this size.
    pub fn new(alloc: Global, size: usize) -> Result<Block, Memory>
        requires { (24 ≤ size) × (size ≤ 4194304) }
        ensures { IfOk result (λ block. block ≡ record { size = size; bytes = [] }) }
    {
        let (start, region) = allocate(&alloc, size)?;
        Ok(Block {
            start,
            region,
            size,
            len: 0,
            alloc,
        })
    }

    /// How many bytes it may hold.
    pub fn size(&self) -> usize
        ensures size { result ≡ self.now.size }
        ensures within { length self.now.bytes ≤ result }
        ensures least { 24 ≤ result }
        ensures most { result ≤ 4194304 }
    {
        self.size
    }

    /// How many bytes it holds.
    pub fn len(&self) -> usize
        ensures len { result ≡ length self.now.bytes }
        ensures within { result ≤ self.now.size }
    {
        self.len
    }

    /// The bytes that it holds.
    pub fn bytes(&self) -> &[u8]
        ensures { result.now ≡ self.now.bytes }
    {
        self.region.bytes(self.start, self.len)
    }

    /// Adds a piece at the end, and answers whether there was room for it.
    pub fn push(&mut self, piece: &[u8; 24]) -> bool
        ensures room { IsTrue result ↔ (24 ≤ self.old.size - length self.old.bytes) }
        ensures pushed { IsTrue result → self.new ≡ record { size = self.old.size; bytes = self.old.bytes ++ piece.now } }
        ensures full { IsFalse result → self.new ≡ self.old }
    {
        if self.size - self.len < 24 {
            return false;
        }
        self.region.put(self.start, self.len, *piece);
        self.len += 24;
        true
    }

    /// Takes all bytes out.
    pub fn clear(&mut self)
        ensures { self.new ≡ record { size = self.old.size; bytes = [] } }
    {
        self.region.clear();
        self.len = 0;
    }
}

impl Drop for Block {
    fn drop(self) {
        let Block {
            start,
            region,
            size,
            len: _,
            alloc,
        } = self;
        release(&alloc, start, size, region);
    }
}
