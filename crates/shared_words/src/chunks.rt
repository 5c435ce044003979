//! Counters from which threads draw numbers.
ghost use Rattle.std.specs.Prelude.{◌≡◌, ◌+◌, ◌<◌, ◌≤◌, true, false, IfOk};
ghost use Rattle.shared_words.specs.Handles.{ChunksValue, Belongs, hand_with, with_view};
ghost use Rattle.shared_words.specs.Draws.{SPLITS, whole_share, lent_share, drew, lent, regained, IsFirstAlone, HasEachOnce};

use crate::chunk_hand::ChunkHand;
use crate::chunk_rule::{Deal, Draws, Lends, Looks, Regains};
use crate::share::Share;
use atomic_table::Table;
use std::alloc::Global;
use std::marker::Model;
use sw_base::Memory;

// Word 0 is free.
const FIRST_COUNTER: usize = 1;

/// One counter for each loop, from which threads draw numbers.
#[derive(Drop)]
pub struct Chunks {
    table: Table<(), Share, usize, Deal, Global>,
    loops: usize,
}

impl Model for Chunks {
    ghost Value = { ChunksValue };

    ghost view = { λ c. record { table = c.table.shared.table_id; loops = c.loops } };

    ghost invariant = { λ c. (c.table.shared.table_id.words ≡ 1 + c.loops) × (c.table.shared.key ≡ c.loops) × (1 + c.loops < 18446744073709551616) };
}

impl Chunks {
    /// Each counter is 0.
    pub fn new(alloc: Global, loops: usize) -> Result<(Chunks, ChunkHand), Memory>
        ensures loops { IfOk result (λ r. r.0.loops ≡ loops) }
        ensures hand { IfOk result (λ r. r.1 ≡ hand_with r.0.table whole_share) }
    {
        let Some(count) = loops.checked_add(FIRST_COUNTER) else {
            return Err(Memory);
        };
        let mut words = Vec::new(alloc);
        words.resize(count, 0u64)?;
        let (table, seat) = Table::of_words(alloc, &words, &loops)?;
        Ok((Chunks { table, loops }, ChunkHand::of(seat)))
    }

    /// A number of this loop that nobody else gets.
    pub fn draw(&self, hand: &mut ChunkHand, which: usize) -> u64
        requires hand { Belongs hand.old self.now.table }
        requires which { which < self.now.loops }
        requires left { 0 < hand.old.view.left }
        ensures drawn { hand.new ≡ with_view hand.old (drew hand.old.view which result) }
        ensures all { IsFirstAlone hand.new.view → HasEachOnce hand.new.view }
    {
        let shared = &self.table.shared;
        let mut seat = hand.take();
        let number = shared.fetch_add::<Draws>(&mut seat, FIRST_COUNTER + which, 1);
        *hand = ChunkHand::of(seat);
        number
    }

    pub fn split(&self, hand: &mut ChunkHand) -> ChunkHand
        requires hand { Belongs hand.old self.now.table }
        requires first { hand.old.view.first ≡ true }
        requires splits { hand.old.view.splits < SPLITS }
        ensures kept { hand.new ≡ with_view hand.old (lent hand.old.view) }
        ensures given { result ≡ with_view hand.old lent_share }
    {
        let shared = &self.table.shared;
        let mut seat = hand.take();
        let other = shared.split_seat::<Lends>(&mut seat);
        *hand = ChunkHand::of(seat);
        ChunkHand::of(other)
    }

    /// The numbers of the other hand are the first one's. Where no other is out, it has those below some number, each once.
    pub fn join(&self, hand: &mut ChunkHand, mut other: ChunkHand)
        requires hand { Belongs hand.old self.now.table }
        requires first { hand.old.view.first ≡ true }
        requires other { Belongs other self.now.table }
        requires split { other.view.first ≡ false }
        ensures both { hand.new ≡ with_view hand.old (regained hand.old.view other.view) }
        ensures all { IsFirstAlone hand.new.view → HasEachOnce hand.new.view }
    {
        let shared = &self.table.shared;
        let mut seat = hand.take();
        shared.join_seat::<Regains>(&mut seat, other.take());
        shared.load::<Looks>(&mut seat, 0);
        *hand = ChunkHand::of(seat);
    }
}
