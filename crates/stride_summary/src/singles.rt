ghost use Rattle.std.specs.Prelude.{[], ◌≡◌, ◌↔◌, ◌⊎◌, ℕ, ◌+◌, ◌<◌, ◌≤◌, Contains, IsTrue, OnOk, vec_len, vec_capacity};
ghost use Rattle.stride_summary.specs.Run.{access_key};
ghost use Rattle.stride_summary.specs.declared.key.Key.{Key};
ghost use Rattle.stride_summary.specs.declared.single.Single.{Single};
ghost use Rattle.stride_summary.specs.Accesses.{AreSized, Ascend, EndByTheLast, sized_prop};
ghost use Rattle.stride_summary.specs.Singles.{AddsSingles, HoldsSingle};

use crate::access::Access;
use crate::joining::push_joined;
use crate::run::Run;
use crate::single::Single;
use std::alloc::Global;
use sw_base::Memory;

/// How many accesses there may be at least when they are put in order for the first time.
const FIRST: usize = 64;

/// Accesses under no mutex, of any keys, some of them more than once.
#[derive(Drop)]
pub struct Singles {
    pub list: Vec<Single>,
    /// How many there may be before there has to be more room.
    pub limit: usize,
    ghost sized: { AreSized list.items } by { sized_prop list.items },
    ghost ends: { EndByTheLast list.items },
    ghost within: { vec_len list ≤ limit },
    ghost room: { limit ≤ vec_capacity list },
}

impl Singles {
    /// No access so far.
    pub fn new(alloc: Global) -> Singles
        ensures none { result.list.items ≡ [] }
        ensures empty { result.limit ≡ 0 }
    {
        Singles {
            list: Vec::new(alloc),
            limit: 0,
        }
    }

    /// Whether there is room for an access.
    pub fn has_room(&self) -> bool
        ensures { IsTrue result ↔ (vec_len self.now.list < self.now.limit) }
    {
        self.list.len() < self.limit
    }

    /// Puts the accesses in order, each once.
    #[inline(never)]
    pub fn settle(&mut self)
        ensures ascending { Ascend self.new.list.items }
        ensures same { (single : Single) → Contains self.new.list.items single ↔ Contains self.old.list.items single }
        ensures fewer { vec_len self.new.list ≤ vec_len self.old.list }
        ensures limit { self.new.limit ≡ self.old.limit }
    {
        self.list.sort_unstable();
        self.list.dedup();
    }

    /// A limit under which there is room for more.
    pub fn next_limit(&self) -> usize
        ensures { (vec_len self.now.list < result) × (self.now.limit ≤ result) }
    {
        let count = self.list.len();
        self.limit.max(count + count.max(FIRST))
    }

    /// Makes room up to this limit.
    pub fn grow(&mut self, limit: usize) -> Result<(), Memory>
        requires { (vec_len self.old.list < limit) × (self.old.limit ≤ limit) }
        ensures items { self.new.list.items ≡ self.old.list.items }
        ensures grown { OnOk result (self.new.limit ≡ limit) }
        ensures within { self.new.limit ≤ limit }
    {
        self.list.reserve_exact(limit - self.list.len())?;
        self.limit = limit;
        Ok(())
    }

    /// Adds an access under no mutex, for which there is room.
    pub fn put(&mut self, access: &Access)
        requires room { vec_len self.old.list < self.old.limit }
        requires free { access.now.held.now ≡ [] }
        ensures added { (key : Key) (address : ℕ) → HoldsSingle self.new.list.items key address ↔ (HoldsSingle self.old.list.items key address ⊎ ((access_key access.now ≡ key) × (access.now.addr ≡ address))) }
        ensures limit { self.new.limit ≡ self.old.limit }
    {
        self.list.push_reserved(Single {
            line: access.line,
            site: access.site,
            size: access.size,
            write: access.write,
            atomic: access.atomic,
            addr: access.addr,
        });
    }

    /// Adds the runs of the accesses, of which none is left. Their room stays.
    pub fn empty_into(&mut self, runs: &mut Vec<Run>)
        requires { vec_len runs.old + vec_len self.old.list ≤ vec_capacity runs.old }
        ensures added { AddsSingles self.old.list.items runs.old.items runs.new.items }
        ensures none { self.new.list.items ≡ [] }
        ensures limit { self.new.limit ≡ 0 }
    {
        self.settle();
        push_joined(&self.list, runs);
        self.list.clear();
        self.limit = 0;
    }
}
