//! Raw memory, of which the first bytes are written, and the pointer to it.
ghost use Rattle.std.specs.Prelude.{◌≡◌, ◌+◌, ◌^◌, ◌<◌, ◌≤◌, ℕ, List, [], ◌++◌, length, IfOk};
ghost use Rattle.std.specs.Allocator.{block_with_items};
ghost use Rattle.std.specs.Borrow.{u8, Array};
ghost use denote.RawPtr.{Ptr};
ghost use denote.Struct.Lending.{lent_at};

use std::alloc::{AllocError, Allocator};
use std::marker::{Model, PhantomData, Send};
use std::slice;

/// Where the memory begins. It owns nothing.
#[derive(Clone, Copy)]
pub(crate) struct Start {
    at: *mut u8,
}

unsafe impl Send for Start {}

/// The owner of the memory, with the right to free it. It takes no space.
pub(crate) struct Region<A: Allocator> {
    mark: PhantomData<*const A>,
    ghost at: { Ptr },
    ghost size: { ℕ },
    ghost items: { List ℕ },
    ghost alloc: { A },
    ghost fits: { (length items ≤ size) × (size < 2 ^ 63) },
}

impl<A: Allocator> Model for Region<A> {
    ghost also_owns = { λ r. block_with_items (A.dealloc_token r.alloc) u8 r.at (length r.items) r.size r.items };

    ghost also_shares = { λ r _ κ. lent_at (Array u8 (length r.items)) r.at r.items κ };
}

unsafe impl<A: Allocator + Send> Send for Region<A> {}

/// Memory of this size, of which nothing is written.
pub(crate) fn allocate<A: Allocator>(
    alloc: &A,
    size: usize,
) -> Result<(Start, Region<A>), AllocError>
    requires { size < 2 ^ 63 }
    ensures { IfOk result (λ r. (r.1.at ≡ r.0.at) × (r.1.size ≡ size) × (r.1.items ≡ []) × (r.1.alloc ≡ alloc.now)) }
{
    match alloc.allocate(size, 1) {
        Ok(at) => Ok((Start { at }, Region { mark: PhantomData })),
        Err(error) => Err(error),
    }
}

/// Gives the memory back.
pub(crate) fn release<A: Allocator>(alloc: &A, start: Start, size: usize, region: Region<A>)
    requires { (region.at ≡ start.at) × (region.size ≡ size) × (region.alloc ≡ alloc.now) }
{
    let Region { mark: _ } = region;
    unsafe {
        alloc.deallocate(start.at, size, 1);
    }
}

impl<A: Allocator> Region<A> {
    /// Writes the piece behind the `len` bytes that are written.
    pub(crate) fn put(&mut self, start: Start, len: usize, piece: [u8; 24])
        requires { (start.at ≡ self.old.at) × (len ≡ length self.old.items) × (len + 24 ≤ self.old.size) }
        ensures { (self.new.at ≡ self.old.at) × (self.new.size ≡ self.old.size) × (self.new.items ≡ self.old.items ++ piece) × (self.new.alloc ≡ self.old.alloc) }
    {
        unsafe {
            *(start.at.add(len) as *mut [u8; 24]) = piece;
        }
    }

    /// The bytes that are written.
    pub(crate) fn bytes(&self, start: Start, len: usize) -> &[u8]
        requires { (start.at ≡ self.now.at) × (len ≡ length self.now.items) }
        ensures { result.now ≡ self.now.items }
    {
        unsafe { slice::from_raw_parts(start.at, len) }
    }

    /// Nothing is written any more.
    pub(crate) fn clear(&mut self)
        ensures { (self.new.at ≡ self.old.at) × (self.new.size ≡ self.old.size) × (self.new.items ≡ []) × (self.new.alloc ≡ self.old.alloc) }
    {}
}
