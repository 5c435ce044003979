ghost use Rattle.std.specs.Prelude.{◌≡◌, ◌↔◌, ℕ, ◌+◌, ◌-◌, ◌*◌, ◌^◌, ◌<◌, ◌≤◌};
ghost use Rattle.log_format.specs.Fitting.{IsWidth};
ghost use Rattle.stride_summary.specs.Sizes.{access_size_prop};

use mutex_set::Held;

/// Accesses of one key, at addresses of equal distance.
#[derive(Drop)]
pub struct Run {
    /// The least address.
    pub base: u64,
    /// From one address to the next: 0 exactly where there is only one.
    pub stride: u64,
    /// How many addresses, at least one.
    pub count: u32,
    /// How many bytes at each address, 1, 2, 4 or 8.
    pub size: u8,
    pub write: bool,
    pub atomic: bool,
    /// The line in the kernel's text, from 1.
    pub line: u32,
    /// The place in the kernel's text that made the accesses.
    pub site: u16,
    /// The mutexes that the task held.
    pub held: Held,
    ghost not_empty: { 1 ≤ count },
    ghost single: { (stride ≡ 0) ↔ (count ≡ 1) },
    ghost sized: { IsWidth size } by { access_size_prop size },
    ghost bounded: { base + (count - 1) * stride + (size - 1) < 2 ^ 48 },
}

impl Run {
    ghost use Rattle.stride_summary.specs.Run.{HasRunByte, last_byte};

    /// The first byte.
    pub fn low(&self) -> u64
        ensures value { result ≡ self.now.base }
        ensures first { HasRunByte self.now result }
        ensures least { (byte : ℕ) → HasRunByte self.now byte → result ≤ byte }
    {
        self.base
    }

    /// The last byte.
    pub fn high(&self) -> u64
        ensures value { result ≡ last_byte self.now }
        ensures last { HasRunByte self.now result }
        ensures greatest { (byte : ℕ) → HasRunByte self.now byte → byte ≤ result }
    {
        self.base + u64::from(self.count - 1) * self.stride + u64::from(self.size - 1)
    }
}
