ghost use Rattle.std.specs.Prelude.{◌≡◌, ◌↔◌, ◌⊎◌, ℕ, ◌+◌, ◌/◌, ◌^◌, ◌<◌, ◌≤◌, [], None, AllPairs, Contains, IsTrue, IfOk, OnOk, OnErr, sum_by, slice_index_or, vec_len, vec_capacity};
ghost use Rattle.std.specs.List.Sorted.{IsNonDecreasingBy};
ghost use Rattle.stride_summary.specs.declared.stretch.Stretch.{Stretch};
ghost use Rattle.stride_summary.specs.Run.{AreApart, HasPair, access_key};
ghost use Rattle.stride_summary.specs.Places.{TellsPlaces, place_under};
ghost use Rattle.stride_summary.specs.Singles.{AreOthers, HoldsSingle, MayStandAlone};
ghost use Rattle.stride_summary.specs.declared.single.Single.{Single};
ghost use Rattle.stride_summary.specs.Stretches.{AreEmptied, FitsAddress, HaveRuns, Holds, HoldsOneMore, HoldsSame, IsPlaceOf, KeysDiffer, MayHave, needed_of};

use crate::access::Access;
use crate::key::Key;
use crate::places::{add_key, place_under};
use crate::run::Run;
use crate::singles::Singles;
use crate::stretch::Stretch;
use std::alloc::Global;
use std::collections::BTreeMap;
use std::mem;
use sw_base::Memory;

/// How many keys have addresses of their own before accesses of further keys under no mutex stand alone. Kernels hardly have as many.
const KEYS: usize = 16_384;

/// Where there are so many times as many keys as runs, it isn't worth going over them for the next interval.
const MANY: usize = 8;

/// The accesses of a barrier interval: the addresses of each key, or where there are very many keys the accesses of most one by
/// one. It grows with the number of different addresses of a key, and not with the number of accesses.
#[derive(Drop)]
pub struct Summary {
    stretches: Vec<Stretch>,
    /// The place of each key.
    places: BTreeMap<Key, usize>,
    /// The place of the key of the last access.
    last: usize,
    /// For each place, that of the key which came after it last time.
    followers: Vec<usize>,
    /// From so many keys on, accesses may stand alone.
    most: usize,
    singles: Singles,
    /// How many runs the keys have at most in the end.
    room: usize,
    /// No run so far, but room for as many.
    runs: Vec<Run>,
    alloc: Global,
    ghost keys: { KeysDiffer stretches.items },
    ghost told: { TellsPlaces places stretches.items },
    ghost counted: { room ≡ sum_by needed_of stretches.items },
    ghost enough: { room + singles.limit ≤ vec_capacity runs },
    ghost others: { AreOthers singles.list.items stretches.items },
    ghost early: { vec_len stretches < most → singles.list.items ≡ [] },
    ghost none: { vec_len runs ≡ 0 },
}

// Half of the number, rounded up.
fn half(number: usize) -> usize
    ensures { result ≡ (number + 1) / 2 }
{
    number - number / 2
}

// Adds the runs of all stretches, of which only the keys and their room stay.
fn empty_all(stretches: &mut Vec<Stretch>, runs: &mut Vec<Run>)
    requires none { vec_len runs.old ≡ 0 }
    requires room { sum_by needed_of stretches.old.items ≤ vec_capacity runs.old }
    requires differ { KeysDiffer stretches.old.items }
    ensures done { HaveRuns stretches.old.items runs.new.items }
    ensures emptied { AreEmptied stretches.old.items stretches.new.items }
    ensures room { vec_len runs.new ≤ sum_by needed_of stretches.old.items }
    ensures capacity { vec_capacity runs.old ≤ vec_capacity runs.new }
{
    for stretch in stretches.iter_mut() {
        stretch.empty_into(runs);
    }
}

// The runs, in a vector of their own where they leave most of their room free, which then stays.
fn hand_out(alloc: Global, runs: &mut Vec<Run>) -> Vec<Run>
    ensures same { result.items ≡ runs.old.items }
    ensures none { vec_len runs.new ≡ 0 }
{
    if runs.len() < runs.capacity() / 2 {
        if let Ok(mut own) = Vec::with_capacity(alloc, runs.len()) {
            own.append(runs).unwrap();
            return own;
        }
    }
    mem::replace(runs, Vec::new(alloc))
}

// Makes room for so many runs where there is none, and copies nothing, unlike a vector that grows.
fn make_run_room(alloc: Global, runs: &mut Vec<Run>, count: usize) -> Result<(), Memory>
    requires { vec_len runs.old ≡ 0 }
    ensures room { OnOk result (count ≤ vec_capacity runs.new) }
    ensures more { vec_capacity runs.old ≤ vec_capacity runs.new }
    ensures none { vec_len runs.new ≡ 0 }
{
    if count > runs.capacity() {
        let more = count.max(runs.capacity().saturating_mul(2));
        *runs = Vec::with_capacity(alloc, more)?;
    }
    Ok(())
}

// Whether this is the place of the access's key.
fn is_at(stretches: &[Stretch], place: usize, access: &Access) -> bool
    ensures { IsTrue result → IsPlaceOf stretches.now (access_key access.now) place }
{
    place < stretches.len() && stretches[place].key.is_of(access)
}

impl Summary {
    ghost use Rattle.std.specs.Prelude.{ℕ};
    ghost use Rattle.stride_summary.specs.declared.key.Key.{Key};
    ghost use Rattle.stride_summary.specs.Summary.{IsPlacing, IsSummed, SumsOneMore, SumsSame};

    /// Nothing so far.
    pub fn new(alloc: Global) -> Result<Summary, Memory>
        ensures { IfOk result (λ summary. (key : Key) (address : ℕ) → IsSummed summary key address → ⊥) }
    {
        Ok(Summary {
            stretches: Vec::new(alloc),
            places: BTreeMap::new(alloc),
            last: 0,
            followers: Vec::new(alloc),
            most: KEYS,
            singles: Singles::new(alloc),
            room: 0,
            runs: Vec::new(alloc),
            alloc,
        })
    }

    /// Adds an access. After an error the accesses are as before.
    pub fn add(&mut self, access: &Access) -> Result<(), Memory>
        ensures added { OnOk result (SumsOneMore self.old self.new (access_key access.now) access.now.addr) }
        ensures refused { OnErr result (SumsSame self.old self.new) }
    {
        match self.place_of(access)? {
            Some(place) => self.add_to(place, access),
            None => self.add_single(access),
        }
    }

    /// The runs of the accesses, in order of their first addresses: of each key the addresses, each once, cut where their
    /// distance changes.
    pub fn finish(self) -> Vec<Run>
        ensures pairs { (key : Key) (address : ℕ) → HasPair result.items key address ↔ IsSummed self key address }
        ensures apart { AreApart result.items }
        ensures ascends { IsNonDecreasingBy (λ run. run.base) result.items }
    {
        let mut summary = self;
        summary.take_runs()
    }

    /// The same runs. No access is left, but the keys and their room may be, for the accesses of the next interval.
    pub fn take_runs(&mut self) -> Vec<Run>
        ensures pairs { (key : Key) (address : ℕ) → HasPair result.items key address ↔ IsSummed self.old key address }
        ensures apart { AreApart result.items }
        ensures ascends { IsNonDecreasingBy (λ run. run.base) result.items }
        ensures emptied { (key : Key) (address : ℕ) → IsSummed self.new key address → ⊥ }
    {
        empty_all(&mut self.stretches, &mut self.runs);
        self.singles.empty_into(&mut self.runs);
        self.room = 0;
        self.runs.sort_unstable_by_key(|run| run.low());
        let runs = hand_out(self.alloc, &mut self.runs);
        self.forget_unless_used(runs.len());
        runs
    }

    // Forgets the keys if there are many more than so many runs. No access stands alone.
    fn forget_unless_used(&mut self, runs: usize)
        requires { self.old.singles.list.items ≡ [] }
        ensures stretches { (key : Key) (address : ℕ) → Holds self.new.stretches.items key address → Holds self.old.stretches.items key address }
        ensures singles { self.new.singles ≡ self.old.singles }
    {
        if runs < self.stretches.len() / MANY {
            self.forget();
        }
    }

    // Forgets all keys. No access stands alone.
    fn forget(&mut self)
        requires { self.old.singles.list.items ≡ [] }
        ensures stretches { self.new.stretches.items ≡ [] }
        ensures singles { self.new.singles ≡ self.old.singles }
    {
        self.stretches.clear();
        self.places = BTreeMap::new(self.alloc);
        self.followers.clear();
        self.last = 0;
        self.room = 0;
    }

    // Adds an access of the key at this place.
    fn add_to(&mut self, place: usize, access: &Access) -> Result<(), Memory>
        requires { IsPlaceOf self.old.stretches.items (access_key access.now) place }
        ensures added { OnOk result (HoldsOneMore self.old.stretches.items self.new.stretches.items (access_key access.now) access.now.addr) }
        ensures refused { OnErr result (HoldsSame self.old.stretches.items self.new.stretches.items) }
        ensures singles { self.new.singles ≡ self.old.singles }
    {
        self.follow(place);
        self.make_room(place)?;
        self.add_at(place, access.addr);
        Ok(())
    }

    // Adds an access that may stand alone.
    fn add_single(&mut self, access: &Access) -> Result<(), Memory>
        requires { MayStandAlone self.old.most self.old.stretches (access_key access.now) }
        ensures added { OnOk result ((key : Key) (address : ℕ) → HoldsSingle self.new.singles.list.items key address ↔ (HoldsSingle self.old.singles.list.items key address ⊎ ((access_key access.now ≡ key) × (access.now.addr ≡ address)))) }
        ensures refused { OnErr result ((single : Single) → Contains self.new.singles.list.items single ↔ Contains self.old.singles.list.items single) }
        ensures stretches { self.new.stretches ≡ self.old.stretches }
    {
        self.make_single_room()?;
        self.singles.put(access);
        Ok(())
    }

    // Has room for an access that stands alone.
    fn make_single_room(&mut self) -> Result<(), Memory>
        ensures room { OnOk result (vec_len self.new.singles.list < self.new.singles.limit) }
        ensures same { (single : Single) → Contains self.new.singles.list.items single ↔ Contains self.old.singles.list.items single }
        ensures stretches { self.new.stretches ≡ self.old.stretches }
        ensures most { self.new.most ≡ self.old.most }
    {
        if self.singles.has_room() {
            return Ok(());
        }
        self.grow_singles()
    }

    // The same where there is none. It stands apart, since it is rare.
    #[inline(never)]
    fn grow_singles(&mut self) -> Result<(), Memory>
        ensures room { OnOk result (vec_len self.new.singles.list < self.new.singles.limit) }
        ensures same { (single : Single) → Contains self.new.singles.list.items single ↔ Contains self.old.singles.list.items single }
        ensures stretches { self.new.stretches ≡ self.old.stretches }
        ensures most { self.new.most ≡ self.old.most }
    {
        self.settle_singles();
        let limit = self.singles.next_limit();
        let count = self.room.saturating_add(limit);
        make_run_room(self.alloc, &mut self.runs, count)?;
        self.singles.grow(limit)
    }

    fn settle_singles(&mut self)
        ensures same { (single : Single) → Contains self.new.singles.list.items single ↔ Contains self.old.singles.list.items single }
        ensures stretches { self.new.stretches ≡ self.old.stretches }
        ensures most { self.new.most ≡ self.old.most }
    {
        self.singles.settle();
    }

    // The place of the access's key, which is a new one if need be, unless the access may stand alone.
    fn place_of(&mut self, access: &Access) -> Result<Option<usize>, Memory>
        ensures found { IfOk result (λ found. IsPlacing self.new (access_key access.now) found) }
        ensures same { HoldsSame self.old.stretches.items self.new.stretches.items }
        ensures singles { self.new.singles ≡ self.old.singles }
    {
        let guess = self.followers.get(self.last).copied().unwrap_or(0);
        if is_at(&self.stretches, guess, access) {
            return Ok(Some(guess));
        }
        self.look_up(access)
    }

    // The same by the map. It stands apart, so that an access whose place was guessed needs no room for what it keeps.
    #[inline(never)]
    fn look_up(&mut self, access: &Access) -> Result<Option<usize>, Memory>
        ensures found { IfOk result (λ found. IsPlacing self.new (access_key access.now) found) }
        ensures same { HoldsSame self.old.stretches.items self.new.stretches.items }
        ensures singles { self.new.singles ≡ self.old.singles }
    {
        let key = Key::of(access);
        if let Some(place) = place_under(&self.places, &key) {
            return Ok(Some(place));
        }
        if self.stretches.len() >= self.most && access.held.ids().is_empty() {
            return Ok(None);
        }
        let place = self.give_place(access, key)?;
        Ok(Some(place))
    }

    // Gives a place to the access's key, which has none.
    fn give_place(&mut self, access: &Access, key: Key) -> Result<usize, Memory>
        requires key { key ≡ access_key access.now }
        requires fresh { place_under self.old.places key ≡ None }
        requires apart { self.old.most ≤ vec_len self.old.stretches → access.now.held.now ≡ [] → ⊥ }
        ensures found { IfOk result (λ place. IsPlaceOf self.new.stretches.items (access_key access.now) place) }
        ensures same { HoldsSame self.old.stretches.items self.new.stretches.items }
        ensures singles { self.new.singles ≡ self.old.singles }
    {
        self.followers.push(0)?;
        let stretch = Stretch::new(self.alloc, Key::of(access));
        add_key(&mut self.stretches, &mut self.places, key, stretch)
    }

    fn follow(&mut self, place: usize)
        ensures { self.new ≡ record self.old { last = self.new.last; followers = self.new.followers } }
    {
        if self.last < self.followers.len() {
            self.followers[self.last] = place;
        }
        self.last = place;
    }

    // Has the stretch at this place have room for an address.
    fn make_room(&mut self, place: usize) -> Result<(), Memory>
        requires place { place < vec_len self.old.stretches }
        ensures count { vec_len self.new.stretches ≡ vec_len self.old.stretches }
        ensures singles { self.new.singles ≡ self.old.singles }
        ensures same { HoldsSame self.old.stretches.items self.new.stretches.items }
        ensures key { (d : Stretch) → (slice_index_or self.new.stretches.items place d).key ≡ (slice_index_or self.old.stretches.items place d).key }
        ensures room { OnOk result ((d : Stretch) → FitsAddress (slice_index_or self.new.stretches.items place d)) }
    {
        if self.stretches[place].has_room() {
            return Ok(());
        }
        let limit = self.prepare(place)?;
        self.raise(place, limit)
    }

    // Prepares the stretch at this place for more addresses, and gives the limit that it may have. It stands apart, since it is
    // rare, like what follows.
    #[inline(never)]
    fn prepare(&mut self, place: usize) -> Result<usize, Memory>
        requires place { place < vec_len self.old.stretches }
        ensures count { vec_len self.new.stretches ≡ vec_len self.old.stretches }
        ensures singles { self.new.singles ≡ self.old.singles }
        ensures same { HoldsSame self.old.stretches.items self.new.stretches.items }
        ensures key { (d : Stretch) → (slice_index_or self.new.stretches.items place d).key ≡ (slice_index_or self.old.stretches.items place d).key }
        ensures room { IfOk result (λ limit. (d : Stretch) → MayHave (slice_index_or self.new.stretches.items place d) limit) }
    {
        self.stretches[place].widen()
    }

    // Gives the stretch at this place the limit, and makes room for the runs.
    #[inline(never)]
    fn raise(&mut self, place: usize, limit: usize) -> Result<(), Memory>
        requires place { place < vec_len self.old.stretches }
        requires limit { (d : Stretch) → MayHave (slice_index_or self.old.stretches.items place d) limit }
        ensures count { vec_len self.new.stretches ≡ vec_len self.old.stretches }
        ensures singles { self.new.singles ≡ self.old.singles }
        ensures same { HoldsSame self.old.stretches.items self.new.stretches.items }
        ensures key { (d : Stretch) → (slice_index_or self.new.stretches.items place d).key ≡ (slice_index_or self.old.stretches.items place d).key }
        ensures room { OnOk result ((d : Stretch) → FitsAddress (slice_index_or self.new.stretches.items place d)) }
    {
        let before = half(self.stretches[place].limit);
        let room = self.room - before + half(limit);
        make_run_room(self.alloc, &mut self.runs, room + self.singles.limit)?;
        self.stretches[place].raise(limit);
        self.room = room;
        Ok(())
    }

    fn add_at(&mut self, place: usize, address: u64)
        requires place { place < vec_len self.old.stretches }
        requires room { (d : Stretch) → FitsAddress (slice_index_or self.old.stretches.items place d) }
        requires end { (d : Stretch) → address + (slice_index_or self.old.stretches.items place d).key.size ≤ 2 ^ 48 }
        ensures added { (d : Stretch) → HoldsOneMore self.old.stretches.items self.new.stretches.items (slice_index_or self.old.stretches.items place d).key address }
        ensures singles { self.new.singles ≡ self.old.singles }
    {
        self.stretches[place].put(address);
    }
}
