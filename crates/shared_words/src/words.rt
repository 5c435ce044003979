//! Shared words, on one table.
ghost use Rattle.std.specs.Prelude.{◌≡◌, ◌+◌, ◌<◌, ◌≤◌, ◌∷◌, [], length, slice_index, Contains, EachIndex, IfOk, vec_len};
ghost use Rattle.core.specs.Mem.Slots.{slots_items, slots_len, IsFull};
ghost use Rattle.step_history.specs.History.{HasHistory};
ghost use Rattle.step_history.specs.declared.item.Deed.TheVariants.{Read, Write, Update};
ghost use Rattle.shared_words.specs.Handles.{WordsValue, Belongs, IsHome, hand_with, with_view};
ghost use Rattle.shared_words.specs.Rule.{ELEMENTS};
ghost use Rattle.shared_words.specs.Views.{IsAtRest, newcomer, did, locked, unlocked, rest, parted, child, after_meeting};

use crate::hand::Hand;
use crate::rule::{Announces, Law, Loads, Locks, Meets, Parts, Stores, Unlocks, Updates};
use crate::view::View;
use atomic_table::{Seat, Table};
use std::alloc::{AllocError, Global};
use std::marker::Model;
use std::sync::Wait;
use sw_base::Memory;

// The words of the mutexes come first, then one that is free, then the elements.
const FREE: usize = 64;

const FIRST_ELEMENT: usize = 65;

type WordTable = Table<(), View, usize, Law, Global>;

/// Words and mutexes that threads share.
#[derive(Drop)]
pub struct Words {
    table: WordTable,
    // Where the values go at the end.
    room: Vec<u64>,
    locks: usize,
}

/// What the words were at the end.
#[derive(Drop)]
pub struct Closed {
    pub words: Vec<u64>,
}

impl Model for Words {
    ghost Value = { WordsValue };

    ghost view = { λ w. record { table = w.table.shared.table_id; elements = vec_len w.room; locks = w.locks } };

    ghost invariant = { λ w. (w.table.shared.table_id.words ≡ ELEMENTS + vec_len w.room) × (w.table.shared.key ≡ vec_len w.room) × (w.table.shared.table_id.slots ≡ 0) × (w.locks ≤ 64) × (vec_len w.room ≤ 1048576) };
}

// A table whose words are 0, its first seat, and room for the elements.
fn new_table(
    alloc: Global,
    elements: usize,
) -> Result<(WordTable, Seat<(), View>, Vec<u64>), AllocError>
    requires { elements ≤ 1048576 }
    ensures words { IfOk result (λ r. r.0.shared.table_id.words ≡ ELEMENTS + elements) }
    ensures slots { IfOk result (λ r. r.0.shared.table_id.slots ≡ 0) }
    ensures key { IfOk result (λ r. r.0.shared.key ≡ elements) }
    ensures seat { IfOk result (λ r. (r.1.table_id ≡ r.0.shared.table_id) × (r.1.me ≡ (newcomer [], []))) }
    ensures room { IfOk result (λ r. vec_len r.2 ≡ elements) }
{
    let mut room = Vec::new(alloc);
    room.resize(FIRST_ELEMENT + elements, 0u64)?;
    let (table, seat) = Table::of_words(alloc, &room, &elements)?;
    room.truncate(elements);
    Ok((table, seat, room))
}

// The values of the elements.
fn copy_elements(closed: &atomic_table::Closed<(), Global>, room: &mut Vec<u64>)
    requires full { IsFull closed.now.words }
    requires long { ELEMENTS + vec_len room.old ≤ slots_len closed.now.words }
    ensures len { vec_len room.new ≡ vec_len room.old }
    ensures values { EachIndex room.new.items (λ k. slice_index room.new.items k ≡ slice_index (slots_items closed.now.words) (ELEMENTS + k)) }
{
    for (i, word) in room.iter_mut().enumerate() {
        *word = closed.word(FIRST_ELEMENT + i);
    }
}

impl Words {
    /// Each word is 0, and nobody holds a mutex.
    pub fn new(alloc: Global, elements: usize, locks: usize) -> Result<(Words, Hand), Memory>
        requires elements { elements ≤ 1048576 }
        requires locks { locks ≤ 64 }
        ensures counts { IfOk result (λ r. (r.0.elements ≡ elements) × (r.0.locks ≡ locks)) }
        ensures hand { IfOk result (λ r. r.1 ≡ hand_with r.0.table (newcomer [])) }
    {
        let (table, seat, room) = new_table(alloc, elements)?;
        Ok((Words { table, room, locks }, Hand::of(seat)))
    }

    /// The value of an element, which the hand has read.
    pub fn load(&self, hand: &mut Hand, word: usize) -> u64
        requires hand { Belongs hand.old self.now.table }
        requires word { word < self.now.elements }
        ensures { hand.new ≡ with_view hand.old (did hand.old.view (Read word result)) }
    {
        let shared = &self.table.shared;
        let mut seat = hand.take();
        let value = shared.load::<Loads>(&mut seat, FIRST_ELEMENT + word);
        *hand = Hand::of(seat);
        value
    }

    /// Writes a value into an element.
    pub fn store(&self, hand: &mut Hand, word: usize, value: u64)
        requires hand { Belongs hand.old self.now.table }
        requires word { word < self.now.elements }
        ensures { hand.new ≡ with_view hand.old (did hand.old.view (Write word value)) }
    {
        let shared = &self.table.shared;
        let mut seat = hand.take();
        shared.store::<Stores>(&mut seat, FIRST_ELEMENT + word, value);
        *hand = Hand::of(seat);
    }

    /// Adds to an element in one step, modulo 2^64.
    pub fn update(&self, hand: &mut Hand, word: usize, amount: u64)
        requires hand { Belongs hand.old self.now.table }
        requires word { word < self.now.elements }
        ensures { hand.new ≡ with_view hand.old (did hand.old.view (Update word amount)) }
    {
        let shared = &self.table.shared;
        let mut seat = hand.take();
        shared.fetch_add::<Updates>(&mut seat, FIRST_ELEMENT + word, amount);
        *hand = Hand::of(seat);
    }

    /// Waits until the mutex is won.
    pub fn lock<R: Wait>(&self, rt: &R, hand: &mut Hand, mutex: usize)
        requires hand { Belongs hand.old self.now.table }
        requires mutex { mutex < self.now.locks }
        requires not_held { Contains hand.old.view.held mutex → ⊥ }
        ensures { hand.new ≡ with_view hand.old (locked hand.old.view mutex) }
    {
        let shared = &self.table.shared;
        let mut seat = hand.take();
        for _ in rt.forever() {
            let found = shared.compare_exchange::<Locks>(&mut seat, mutex, 0, 1);
            if found == 0 {
                break;
            }
            shared.park(rt, mutex, 1);
        }
        *hand = Hand::of(seat);
    }

    /// Gives back the mutex that was won last, and wakes a thread that waits for it.
    pub fn unlock(&self, hand: &mut Hand, mutex: usize)
        requires hand { Belongs hand.old self.now.table }
        requires mutex { mutex < self.now.locks }
        requires innermost { hand.old.view.held ≡ mutex ∷ rest hand.old.view.held }
        ensures { hand.new ≡ with_view hand.old (unlocked hand.old.view mutex) }
    {
        let shared = &self.table.shared;
        let mut seat = hand.take();
        shared.store::<Unlocks>(&mut seat, mutex, 0);
        shared.wake_one(mutex);
        *hand = Hand::of(seat);
    }

    /// A new hand, for a lane of a team.
    pub fn split(&self, hand: &mut Hand, lane: u16, span: u16) -> Hand
        requires { Belongs hand.old self.now.table }
        ensures rests { IsAtRest hand.old.view }
        ensures kept { hand.new ≡ with_view hand.old (parted hand.old.view lane span) }
        ensures given { result ≡ with_view hand.old (child hand.old.view) }
    {
        let shared = &self.table.shared;
        let mut seat = hand.take();
        shared.compare_exchange::<Announces>(&mut seat, FREE, lane as u64, span as u64);
        let other = shared.split_seat::<Parts>(&mut seat);
        *hand = Hand::of(seat);
        Hand::of(other)
    }

    /// The other hand's part is done.
    pub fn join(&self, hand: &mut Hand, mut other: Hand)
        requires hand { Belongs hand.old self.now.table }
        requires other { Belongs other self.now.table }
        requires home { IsHome hand.old other }
        ensures { hand.new ≡ with_view hand.old (after_meeting hand.old.view other.view) }
    {
        let shared = &self.table.shared;
        let mut seat = hand.take();
        shared.join_seat::<Meets>(&mut seat, other.take());
        *hand = Hand::of(seat);
    }

    /// The last values of the words. What all hands did has one history, which ends in them.
    pub fn close(self, mut hand: Hand) -> Closed
        requires hand { Belongs hand self.table }
        requires first { hand.view.name ≡ [] }
        requires none_out { hand.view.out ≡ [] }
        ensures len { vec_len result.words ≡ self.elements }
        ensures history { HasHistory hand.view.items result.words.items }
    {
        let Words {
            table,
            mut room,
            locks: _,
        } = self;
        let closed = table.close_with(hand.take());
        copy_elements(&closed, &mut room);
        closed.free();
        Closed { words: room }
    }
}
