//! What is kept of the records of a log that were passed.
ghost use Rattle.std.specs.Prelude.{◌≡◌, ℕ, ◌+◌, ◌-◌, ◌^◌, ◌<◌, cond, List, [], ◌∷◌, ◌++◌};
ghost use Rattle.log_format.specs.declared.record.Record.{Record as LogRecord};
ghost use Rattle.race_model.specs.Race.{held_after_kind};
ghost use Rattle.race_model.specs.Trace.{is_region_kind, is_barrier_kind};
ghost use Rattle.explain.specs.Finding.{IsPlaceAfter, CanCount, MayFollow};

use log_format::{Kind, Record};
use mutex_set::Held;

/// What is kept of the records that were passed.
#[derive(Drop)]
pub struct ReadPlace {
    /// The mutexes that the task holds.
    pub held: Held,
    /// How many records these were.
    pub records: u32,
    /// How many of them are Regions.
    pub regions: u32,
    /// How many of them are Barriers.
    pub barriers: u32,
}

/// Takes or gives back the mutex of a record, where it is one of a mutex.
fn pass_mutex(held: &mut Held, next: &Record)
    ensures { MayFollow held.old next.now → held.new ≡ held_after_kind next.now.kind next.now.addr held.old }
{
    let Ok(mutex) = u16::try_from(next.addr) else {
        return;
    };
    match next.kind {
        Kind::Lock => {
            let _taken = held.enter(mutex);
        }
        Kind::Unlock => {
            let _given = held.leave(mutex);
        }
        Kind::Read
        | Kind::Write
        | Kind::Barrier
        | Kind::Region
        | Kind::Chunk
        | Kind::End
        | Kind::Update => {}
    }
}

fn is_region(kind: Kind) -> bool
    ensures { result ≡ is_region_kind kind }
{
    match kind {
        Kind::Region => true,
        Kind::Read
        | Kind::Write
        | Kind::Lock
        | Kind::Unlock
        | Kind::Barrier
        | Kind::Chunk
        | Kind::End
        | Kind::Update => false,
    }
}

fn is_barrier(kind: Kind) -> bool
    ensures { result ≡ is_barrier_kind kind }
{
    match kind {
        Kind::Barrier => true,
        Kind::Read
        | Kind::Write
        | Kind::Lock
        | Kind::Unlock
        | Kind::Region
        | Kind::Chunk
        | Kind::End
        | Kind::Update => false,
    }
}

/// A count with this one, where it is counted.
fn with_one(count: u32, counts: bool) -> u32
    requires { count < 2 ^ 32 - 1 }
    ensures { result ≡ count + cond counts 1 0 }
{
    if counts { count + 1 } else { count }
}

impl ReadPlace {
    /// Before the first record.
    pub fn start() -> ReadPlace
        ensures after { IsPlaceAfter result [] }
        ensures room { (left : ℕ) → left < 2 ^ 32 → CanCount result left }
    {
        ReadPlace {
            held: Held::none(),
            records: 0,
            regions: 0,
            barriers: 0,
        }
    }

    /// Passes a record.
    pub fn pass(&mut self, next: &Record)
        requires room { CanCount self.old 1 }
        ensures after { (before : List LogRecord) → IsPlaceAfter self.old before → MayFollow self.old.held next.now → IsPlaceAfter self.new (before ++ next.now ∷ []) }
        ensures room { (left : ℕ) → CanCount self.old (left + 1) → CanCount self.new left }
    {
        pass_mutex(&mut self.held, next);
        self.records += 1;
        self.regions = with_one(self.regions, is_region(next.kind));
        self.barriers = with_one(self.barriers, is_barrier(next.kind));
    }
}
