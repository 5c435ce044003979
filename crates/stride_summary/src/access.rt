ghost use Rattle.std.specs.Prelude.{◌≡◌, ◌+◌, ◌^◌, ◌≤◌};
ghost use Rattle.log_format.specs.Fitting.{IsWidth};
ghost use Rattle.stride_summary.specs.Sizes.{access_size_prop};

use mutex_set::Held;

/// One read, write or update of memory: what kind, where in the kernel, which bytes, and the mutexes that were held. Its last
/// byte is below 2^48.
#[derive(Clone, Copy)]
pub struct Access<'h> {
    pub write: bool,
    /// Whether it reads and writes in one step, which no other such access can part.
    pub atomic: bool,
    /// How many bytes, 1, 2, 4 or 8.
    pub size: u8,
    /// The place in the kernel's text that made the access.
    pub site: u16,
    /// The line in the kernel's text, from 1.
    pub line: u32,
    /// The address of the first byte.
    pub addr: u64,
    /// The mutexes that the task held.
    pub held: &'h Held,
    ghost sized: { IsWidth size } by { access_size_prop size },
    ghost bounded: { addr + size ≤ 2 ^ 48 },
}

impl<'h> Access<'h> {
    /// The same access.
    pub fn copy(&self) -> Access<'h>
        ensures { result ≡ self.now }
    {
        *self
    }
}
