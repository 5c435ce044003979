ghost use Rattle.std.specs.Prelude.{[], ◌≡◌, ◌↔◌, ◌⊎◌, ℕ, ◌+◌, ◌-◌, ◌*◌, ◌/◌, ◌^◌, ◌<◌, ◌≤◌, Contains, IfOk, IsTrue, vec_len, vec_capacity};
ghost use Rattle.std.specs.List.Sorted.{IsPermutation, IsSorted, IsStrictlyIncreasing};
ghost use Rattle.std.specs.Ordering.{nat_cmp};
ghost use Rattle.log_format.specs.Fitting.{IsWidth};
ghost use Rattle.stride_summary.specs.Sizes.{access_size_prop};
ghost use Rattle.stride_summary.specs.Spread.{AddsStretch, EndsInTime};

use crate::cutting::push_runs;
use crate::key::Key;
use crate::run::Run;
use std::alloc::Global;
use sw_base::Memory;

/// How many addresses there may be at least when they are put in order for the first time.
const FIRST: usize = 64;

/// The addresses of one key, some of them more than once.
#[derive(Drop)]
pub struct Stretch {
    pub key: Key,
    pub addresses: Vec<u64>,
    /// How many addresses there may be before there has to be more room.
    pub limit: usize,
    ghost sized: { IsWidth key.size } by { access_size_prop key.size },
    ghost ends: { EndsInTime key.size addresses.items },
    ghost within: { vec_len addresses ≤ limit },
    ghost room: { limit ≤ vec_capacity addresses },
}

// Puts the numbers in order. Where there is memory for it, by merging what is in order already.
fn sort(numbers: &mut Vec<u64>)
    ensures permutation { IsPermutation numbers.old.items numbers.new.items }
    ensures len { vec_len numbers.new ≡ vec_len numbers.old }
    ensures capacity { vec_capacity numbers.new ≡ vec_capacity numbers.old }
    ensures sorted { IsSorted nat_cmp numbers.new.items }
{
    if numbers.sort().is_err() {
        numbers.sort_unstable();
    }
}

// Whether each number is less than the next.
fn ascend(numbers: &[u64]) -> bool
    ensures { IsTrue result → IsStrictlyIncreasing numbers.now }
{
    let mut count = 1;
    'ascend: while count < numbers.len() && numbers[count - 1] < numbers[count] {
        count += 1;
    }
    count >= numbers.len()
}

impl Stretch {
    /// No address so far.
    pub fn new(alloc: Global, key: Key) -> Stretch
        requires { IsWidth key.size }
        ensures key { result.key ≡ key }
        ensures none { result.addresses.items ≡ [] }
        ensures empty { result.limit ≡ 0 }
    {
        Stretch {
            key,
            addresses: Vec::new(alloc),
            limit: 0,
        }
    }

    /// Puts the addresses in order, each once.
    #[inline(never)]
    pub fn settle(&mut self)
        ensures key { self.new.key ≡ self.old.key }
        ensures ascending { IsStrictlyIncreasing self.new.addresses.items }
        ensures addresses { (address : ℕ) → Contains self.new.addresses.items address ↔ Contains self.old.addresses.items address }
        ensures fewer { vec_len self.new.addresses ≤ vec_len self.old.addresses }
        ensures limit { self.new.limit ≡ self.old.limit }
    {
        if ascend(&self.addresses) {
            return;
        }
        sort(&mut self.addresses);
        self.addresses.dedup();
    }

    /// Whether there is room for an address.
    pub fn has_room(&self) -> bool
        ensures { IsTrue result ↔ (vec_len self.now.addresses < self.now.limit) }
    {
        self.addresses.len() < self.limit
    }

    /// Adds an address, for which there is room.
    pub fn put(&mut self, address: u64)
        requires room { vec_len self.old.addresses < self.old.limit }
        requires end { address + self.old.key.size ≤ 2 ^ 48 }
        ensures key { self.new.key ≡ self.old.key }
        ensures limit { self.new.limit ≡ self.old.limit }
        ensures added { (other : ℕ) → Contains self.new.addresses.items other ↔ (Contains self.old.addresses.items other ⊎ (address ≡ other)) }
    {
        self.addresses.push_reserved(address);
    }

    /// Puts the addresses in order where there may be many, and gives the limit under which there is room for more. It isn't
    /// theirs so far.
    pub fn widen(&mut self) -> Result<usize, Memory>
        ensures key { self.new.key ≡ self.old.key }
        ensures limit { self.new.limit ≡ self.old.limit }
        ensures addresses { (address : ℕ) → Contains self.new.addresses.items address ↔ Contains self.old.addresses.items address }
        ensures room { IfOk result (λ limit. (vec_len self.new.addresses < limit) × (limit ≤ vec_capacity self.new.addresses)) }
    {
        self.settle_if_many();
        let count = self.addresses.len();
        let least = self.limit.max(count + count.max(1));
        let limit = least.max(self.addresses.capacity());
        self.addresses.reserve_exact(limit - count)?;
        Ok(limit)
    }

    /// Gives it this limit.
    pub fn raise(&mut self, limit: usize)
        requires { (vec_len self.old.addresses < limit) × (limit ≤ vec_capacity self.old.addresses) }
        ensures key { self.new.key ≡ self.old.key }
        ensures limit { self.new.limit ≡ limit }
        ensures addresses { self.new.addresses ≡ self.old.addresses }
    {
        self.limit = limit;
    }

    fn settle_if_many(&mut self)
        ensures key { self.new.key ≡ self.old.key }
        ensures addresses { (address : ℕ) → Contains self.new.addresses.items address ↔ Contains self.old.addresses.items address }
        ensures limit { self.new.limit ≡ self.old.limit }
    {
        if self.limit >= FIRST {
            self.settle();
        }
    }

    /// Adds the runs of the addresses, of which none is left. Their room stays.
    pub fn empty_into(&mut self, runs: &mut Vec<Run>)
        requires { vec_len runs.old + (vec_len self.old.addresses + 1) / 2 ≤ vec_capacity runs.old }
        ensures cuts { AddsStretch self.old.key self.old.addresses.items runs.old.items runs.new.items }
        ensures room { vec_len runs.new ≤ vec_len runs.old + (vec_len self.old.addresses + 1) / 2 }
        ensures capacity { vec_capacity runs.old ≤ vec_capacity runs.new }
        ensures key { self.new.key ≡ self.old.key }
        ensures none { self.new.addresses.items ≡ [] }
        ensures limit { self.new.limit ≡ 0 }
    {
        self.settle();
        push_runs(&self.key, &self.addresses, runs);
        self.addresses.clear();
        self.limit = 0;
    }
}
