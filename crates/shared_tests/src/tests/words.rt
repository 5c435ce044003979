//! Hands on words and on counters, alone and on threads.
ghost use Rattle.std.specs.Prelude.{◌≡◌, ◌<◌, ◌≤◌, []};
ghost use denote.Param.Send.{IsSync};
ghost use Rattle.shared_words.specs.Handles.{Belongs, IsFree};
ghost use Rattle.shared_words.specs.Draws.{whole_share};

use shared_words::{ChunkHand, Chunks, Hand, Words};
use std::alloc::Global;
use std::sync::Wait;
use std::sync::atomic::{AtomicU64, Ordering};
use std::test::Fail;
use std::thread::{Threads, join};

const ROUNDS: u64 = 1000;

const CHUNKS: u64 = 10_000;

// How a thread adds 1.
#[derive(Clone, Copy, Drop)]
enum Adding {
    Unguarded,
    UnderMutex,
    Updating,
}

// Adds 1 to a word, in two steps.
fn add(words: &Words, hand: &mut Hand, word: usize)
    requires hand { Belongs hand.old words.now.table }
    requires word { word < words.now.elements }
    ensures hand { Belongs hand.new words.now.table }
    ensures held { hand.new.view.held ≡ hand.old.view.held }
    ensures name { hand.new.view.name ≡ hand.old.view.name }
    ensures out { hand.new.view.out ≡ hand.old.view.out }
{
    let value = words.load(hand, word);
    words.store(hand, word, value.wrapping_add(1));
}

// Adds 1 to a word; the mutex, where one is taken, is 1.
fn add_one<R: Wait>(rt: &R, words: &Words, hand: &mut Hand, word: usize, adding: Adding)
    requires free { IsFree hand.old words.now.table }
    requires mutex { 1 < words.now.locks }
    requires word { word < words.now.elements }
    ensures free { IsFree hand.new words.now.table }
    ensures name { hand.new.view.name ≡ hand.old.view.name }
    ensures out { hand.new.view.out ≡ hand.old.view.out }
{
    match adding {
        Adding::Unguarded => add(words, hand, word),
        Adding::UnderMutex => {
            words.lock(rt, hand, 1);
            add(words, hand, word);
            words.unlock(hand, 1);
        }
        Adding::Updating => words.update(hand, word, 1),
    }
}

fn add_many<R: Wait>(rt: &R, words: &Words, mut hand: Hand, word: usize, adding: Adding) -> Hand
    requires free { IsFree hand words.now.table }
    requires mutex { 1 < words.now.locks }
    requires word { word < words.now.elements }
    ensures free { IsFree result words.now.table }
    ensures name { result.view.name ≡ hand.view.name }
    ensures out { result.view.out ≡ hand.view.out }
{
    for _ in 0..ROUNDS {
        add_one(rt, words, &mut hand, word, adding);
    }
    hand
}

// As many threads as this, each with a hand of its own, split from the one before. They take the first words in turn.
#[cycle(team)]
fn add_in_threads<R: Threads + Wait + Sync>(
    rt: &R,
    words: &Words,
    mut hand: Hand,
    threads: usize,
    width: usize,
    adding: Adding,
) -> Hand
    requires free { IsFree hand words.now.table }
    requires none_out { hand.view.out ≡ [] }
    requires mutex { 1 < words.now.locks }
    requires some_word { 0 < width }
    requires width { width ≤ words.now.elements }
    ensures free { IsFree result words.now.table }
    ensures none_out { result.view.out ≡ [] }
    ensures name { result.view.name ≡ hand.view.name }
{
    let word = threads % width;
    if threads < 2 {
        return add_many(rt, words, hand, word, adding);
    }
    let other = words.split(&mut hand, 0, 1);
    let (mut hand, other) = join(
        rt,
        || -> Hand
            requires { IsSync R.row × IsFree hand words.now.table × (1 < words.now.locks) × (word < words.now.elements) }
            ensures { IsFree result words.entry.now.table × (result.view.name ≡ hand.view.name) × (result.view.out ≡ hand.view.out) }
        { add_many(rt, words, hand, word, adding) },
        || -> Hand
            requires { IsSync R.row × IsFree other words.now.table × (other.view.out ≡ []) × (1 < words.now.locks) × (0 < width) × (width ≤ words.now.elements) × (1 < threads) }
            ensures { IsFree result words.entry.now.table × (result.view.name ≡ other.view.name) × (result.view.out ≡ []) }
        { add_in_threads(rt, words, other, threads - 1, width, adding) },
    );
    words.join(&mut hand, other);
    hand
}

// Draws until there is no chunk left, and counts how often each number was drawn.
fn draw_chunks(chunks: &Chunks, mut hand: ChunkHand, drawn: &[AtomicU64]) -> ChunkHand
    requires hand { Belongs hand chunks.now.table }
    requires loops { 0 < chunks.now.loops }
    requires left { 10000 < hand.view.left }
    ensures hand { Belongs result chunks.now.table }
    ensures first { result.view.first ≡ hand.view.first }
{
    for _round in 0..=CHUNKS {
        let number = chunks.draw(&mut hand, 0);
        let Some(times) = drawn.get(number as usize) else {
            break;
        };
        times.fetch_add(1, Ordering::SeqCst);
    }
    hand
}

#[test]
fn one_hand_finds_what_it_stored(rt: HostRuntime) -> Result<(), Fail> {
    let (words, mut hand) = Words::new(rt.alloc(), 4, 1)?;
    let before = words.load(&mut hand, 3);
    words.store(&mut hand, 3, 7);
    let after = words.load(&mut hand, 3);
    let closed = words.close(hand);
    assert!(rt; before == 0 && after == 7);
    assert!(rt; closed.words.as_slice() == [0, 0, 0, 7].as_slice());
    Ok(())
}

#[test]
fn mutexes_nest_in_both_orders(rt: HostRuntime) -> Result<(), Fail> {
    let (words, mut hand) = Words::new(rt.alloc(), 1, 2)?;
    words.lock(&rt, &mut hand, 0);
    words.lock(&rt, &mut hand, 1);
    words.unlock(&mut hand, 1);
    words.unlock(&mut hand, 0);
    words.lock(&rt, &mut hand, 1);
    words.lock(&rt, &mut hand, 0);
    words.unlock(&mut hand, 0);
    words.unlock(&mut hand, 1);
    let closed = words.close(hand);
    assert!(rt; closed.words.as_slice() == [0].as_slice());
    Ok(())
}

#[test]
fn hands_split_inside_a_split(rt: HostRuntime) -> Result<(), Fail> {
    let (words, mut hand) = Words::new(rt.alloc(), 2, 0)?;
    let mut one = words.split(&mut hand, 0, 1);
    let mut deep = words.split(&mut one, 0, 1);
    words.store(&mut deep, 1, 5);
    words.join(&mut one, deep);
    let found = words.load(&mut one, 1);
    words.store(&mut one, 0, found.wrapping_add(1));
    words.join(&mut hand, one);
    let closed = words.close(hand);
    assert!(rt; closed.words.as_slice() == [6, 5].as_slice());
    Ok(())
}

// Whether each of these is within the bounds.
fn are_within(sums: &[u64], least: u64, most: u64) -> bool {
    for sum in sums {
        if *sum < least || most < *sum {
            return false;
        }
    }
    true
}

// Whether each of so many words has a sum within these bounds when so many threads have added to them.
fn sums_are<R: Threads + Wait + Sync>(
    rt: &R,
    alloc: Global,
    threads: usize,
    width: usize,
    adding: Adding,
    least: u64,
    most: u64,
) -> Option<bool>
    requires { (0 < width) × (width ≤ 8) }
{
    let (words, hand) = Words::new(alloc, width, 2).ok()?;
    let hand = add_in_threads(rt, &words, hand, threads, width, adding);
    let sums = words.close(hand).words;
    Some(sums.len() == width && are_within(sums.as_slice(), least, most))
}

#[test]
fn eight_threads_add_under_a_mutex(rt: HostRuntime) {
    let sum = 8 * ROUNDS;
    assert!(rt; sums_are(&rt, rt.alloc(), 8, 1, Adding::UnderMutex, sum, sum) == Some(true));
}

// When one of two threads has ended nobody gives the mutex back again, so the other would sleep for ever at a free one.
#[test]
fn no_thread_sleeps_at_a_free_mutex(rt: HostRuntime) {
    let sum = 2 * ROUNDS;
    for _ in 0..200 {
        assert!(rt; sums_are(&rt, rt.alloc(), 2, 1, Adding::UnderMutex, sum, sum) == Some(true));
    }
}

#[test]
fn without_a_mutex_a_sum_may_be_lost(rt: HostRuntime) {
    let sum = 8 * ROUNDS;
    assert!(rt; sums_are(&rt, rt.alloc(), 8, 1, Adding::Unguarded, 2, sum) == Some(true));
}

#[test]
fn updates_of_many_threads_lose_nothing(rt: HostRuntime) {
    for (width, sum) in [(1, 64 * ROUNDS), (8, 8 * ROUNDS)] {
        assert!(rt; sums_are(&rt, rt.alloc(), 64, width, Adding::Updating, sum, sum) == Some(true));
    }
}

#[test]
fn an_update_wraps_past_the_end(rt: HostRuntime) -> Result<(), Fail> {
    let (words, mut hand) = Words::new(rt.alloc(), 2, 0)?;
    words.store(&mut hand, 0, u64::MAX - 1);
    words.update(&mut hand, 0, 5);
    let wrapped = words.load(&mut hand, 0);
    words.update(&mut hand, 1, u64::MAX);
    let below = words.load(&mut hand, 1);
    words.update(&mut hand, 1, u64::MAX - 1);
    let closed = words.close(hand);
    assert!(rt; wrapped == 3 && below == u64::MAX);
    assert!(rt; closed.words.as_slice() == [3, u64::MAX - 2].as_slice());
    Ok(())
}

fn draw_in_two<R: Threads>(
    rt: &R,
    chunks: &Chunks,
    one: ChunkHand,
    two: ChunkHand,
    drawn: &[AtomicU64],
) -> (ChunkHand, ChunkHand)
    requires one { Belongs one chunks.now.table }
    requires two { Belongs two chunks.now.table }
    requires loops { 0 < chunks.now.loops }
    requires left_one { 10000 < one.view.left }
    requires left_two { 10000 < two.view.left }
    ensures one { Belongs result.0 chunks.now.table }
    ensures two { Belongs result.1 chunks.now.table }
    ensures first_one { result.0.view.first ≡ one.view.first }
    ensures first_two { result.1.view.first ≡ two.view.first }
{
    join(
        rt,
        || -> ChunkHand
            requires { Belongs one chunks.now.table × (0 < chunks.now.loops) × (10000 < one.view.left) }
            ensures { Belongs result chunks.entry.now.table × (result.view.first ≡ one.view.first) }
        { draw_chunks(chunks, one, drawn) },
        || -> ChunkHand
            requires { Belongs two chunks.now.table × (0 < chunks.now.loops) × (10000 < two.view.left) }
            ensures { Belongs result chunks.entry.now.table × (result.view.first ≡ two.view.first) }
        { draw_chunks(chunks, two, drawn) },
    )
}

// Four threads draw, and the hand that was made with the counters gets back what the others drew.
fn draw_in_four<R: Threads + Sync>(
    rt: &R,
    chunks: &Chunks,
    mut hand: ChunkHand,
    drawn: &[AtomicU64],
)
    requires hand { Belongs hand chunks.now.table }
    requires loops { 0 < chunks.now.loops }
    requires new { hand.view ≡ whole_share }
{
    let one = chunks.split(&mut hand);
    let two = chunks.split(&mut hand);
    let three = chunks.split(&mut hand);
    let ((mut hand, one), (two, three)) = join(
        rt,
        || -> (ChunkHand, ChunkHand)
            requires { IsSync R.row × Belongs hand chunks.now.table × Belongs one chunks.now.table × (0 < chunks.now.loops) × (10000 < hand.view.left) × (10000 < one.view.left) }
            ensures { Belongs result.0 chunks.entry.now.table × Belongs result.1 chunks.entry.now.table × (result.0.view.first ≡ hand.view.first) × (result.1.view.first ≡ one.view.first) }
        { draw_in_two(rt, chunks, hand, one, drawn) },
        || -> (ChunkHand, ChunkHand)
            requires { IsSync R.row × Belongs two chunks.now.table × Belongs three chunks.now.table × (0 < chunks.now.loops) × (10000 < two.view.left) × (10000 < three.view.left) }
            ensures { Belongs result.0 chunks.entry.now.table × Belongs result.1 chunks.entry.now.table × (result.0.view.first ≡ two.view.first) × (result.1.view.first ≡ three.view.first) }
        { draw_in_two(rt, chunks, two, three, drawn) },
    );
    chunks.join(&mut hand, one);
    chunks.join(&mut hand, two);
    chunks.join(&mut hand, three);
}

// Whether each of these is 1.
fn are_once(drawn: &[AtomicU64]) -> bool {
    for times in drawn {
        if times.load(Ordering::SeqCst) != 1 {
            return false;
        }
    }
    true
}

#[test]
fn four_threads_draw_each_chunk_once(rt: HostRuntime) -> Result<(), Fail> {
    let mut drawn = Vec::new(rt.alloc());
    for _ in 0..CHUNKS {
        drawn.push(AtomicU64::new(0))?;
    }
    let (chunks, hand) = Chunks::new(rt.alloc(), 1)?;
    draw_in_four(&rt, &chunks, hand, drawn.as_slice());
    assert!(rt; are_once(drawn.as_slice()));
    Ok(())
}

#[test]
fn draws_count_from_zero(rt: HostRuntime) {
    let (chunks, mut hand) = Chunks::new(rt.alloc(), 2).expect(&rt, "memory");
    let first = chunks.draw(&mut hand, 1);
    let second = chunks.draw(&mut hand, 1);
    let mut other = chunks.split(&mut hand);
    let third = chunks.draw(&mut other, 1);
    let elsewhere = chunks.draw(&mut other, 0);
    chunks.join(&mut hand, other);
    assert!(rt; [first, second, third, elsewhere] == [0, 1, 2, 0]);
}

#[test]
fn counters_that_no_memory_holds_are_refused(rt: HostRuntime) {
    assert!(rt; Chunks::new(rt.alloc(), usize::MAX).is_err());
}
