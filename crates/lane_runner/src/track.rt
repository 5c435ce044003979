//! What a lane steps with: its hand on the shared words, and the buffer before its log. Each step has a place in the log before it
//! is taken.
ghost use Rattle.std.specs.Prelude.{◌≡◌, ◌+◌, ◌<◌, ◌≤◌, None, List, [], length, IfOk, OnOk, ℤ, Contains};
ghost use Rattle.log_format.specs.Limit.{record_limit};
ghost use Rattle.kernel_model.specs.Value as model;
ghost use Rattle.kernel_model.specs.Value.{read};
ghost use Rattle.kernel_model.specs.Changing.{kind_of};
ghost use Rattle.kernel_model.specs.State.{put, event};
ghost use Rattle.log_format.specs.declared.record.Kind.TheVariants as kind;
ghost use Rattle.lane_runner.specs.World.{WorldValue};
ghost use Rattle.lane_runner.specs.Going.{CanGo, CanPut, Goes, GoesPast, IsWonLast, IsSameLog, MakesRoom, lane_answer, site, TakesOrHalts, stop_for};
ghost use Rattle.shared_words.specs.Handles.{Belongs, with_view};
ghost use Rattle.kernel_syntax.specs.Program.{team_of, code_of};
ghost use Rattle.kernel_syntax.specs.Tree as tree;
ghost use Rattle.kernel_model.specs.Trace.{run, draw};
ghost use Rattle.lane_runner.specs.Children.{AreNewLogs};
ghost use Rattle.lane_runner.specs.Forking.{RunsTeam};
ghost use Rattle.lane_runner.specs.Drawing.{HasCounters};
ghost use Rattle.lane_runner.specs.Handed.{entries_of};
ghost use Rattle.shared_words.specs.Views.{did, locked, unlocked};
ghost use Rattle.log_format.specs.Fitting.{fitted};
ghost use Rattle.lane_runner.specs.Placing.{StandsIn, change_deed};
ghost use Rattle.task_place.specs.Placing.{meant};

use crate::children::children;
use crate::stop::{Halt, Stop};
use crate::world::World;
use event_buffer::{Buffer, BufferFault};
use kernel_model::Change;
use kernel_syntax::{Team, fit};
use log_format::{Kind, TASK_LIMIT};
use shared_words::{ChunkHand, Hand, Words};
use std::alloc::Global;
use std::marker::{Model, Send};
use std::mem;
use std::sync::Wait;
use std::thread::Threads;
use sw_base::{ClosedLog, Log, Path};
use task_place::{Element, Locals, access, event};

/// A lane's hand on the shared words, the buffer before its log, its hand on the counters of its team's loops, and the logs that the
/// regions of its task handed on.
#[derive(Drop)]
pub struct Track<L: Log> {
    hand: Hand,
    buffer: Buffer<L>,
    draws: ChunkHand,
    next_loop: usize,
    forked: u32,
    done: Vec<ClosedLog<L>>,
}

impl<L: Log> Model for Track<L> {
    ghost use Rattle.lane_runner.specs.Going.{Progress};
    ghost use Rattle.lane_runner.specs.Handed.{entries_of};

    ghost Value = { Progress };

    ghost view = { λ t. record {
      hand = t.hand;
      buffer = t.buffer;
      tally = record { draws = t.draws; next_loop = t.next_loop; forked = t.forked };
      done = entries_of L.Log t.done.items;
    } };
}

// Why a record of this line has no place.
fn stop_for(fault: BufferFault, line: u32) -> Stop
    ensures { result ≡ stop_for fault line }
{
    match fault {
        BufferFault::LogFull => Stop::LogFull { line },
        BufferFault::Trouble(trouble) => Stop::Trouble(trouble),
    }
}

// The loop that is open after a draw.
fn loop_after(next_loop: usize, drawn: u64, chunks: u64) -> usize
    requires { next_loop + 1 < 18446744073709551616 }
    ensures open { drawn < chunks → result ≡ next_loop }
    ensures closed { chunks ≤ drawn → result ≡ next_loop + 1 }
{
    if drawn < chunks {
        next_loop
    } else {
        next_loop + 1
    }
}

// Stores or adds a number, in one step.
fn take_step(words: &Words, hand: &mut Hand, change: Change, word: usize, bits: u64)
    requires hand { Belongs hand.old words.now.table }
    requires word { word < words.now.elements }
    ensures { hand.new ≡ with_view hand.old (did hand.old.view (change_deed change word bits)) }
{
    match change {
        Change::Store => words.store(hand, word, bits),
        Change::Update { minus: _ } => words.update(hand, word, bits),
    }
}

impl<L: Log> Track<L> {
    /// The steps of a lane that begins: it has drawn from no loop and forked no region.
    pub fn new(alloc: Global, hand: Hand, buffer: Buffer<L>, draws: ChunkHand) -> Track<L>
        ensures { result ≡ record { hand = hand; buffer = buffer; tally = record { draws = draws; next_loop = 0; forked = 0 }; done = [] } }
    {
        Track {
            hand,
            buffer,
            draws,
            next_loop: 0,
            forked: 0,
            done: Vec::new(alloc),
        }
    }

    /// The lane goes on with this hand, and gives back the one that it had.
    pub fn trade(&mut self, hand: Hand) -> Hand
        ensures given { result ≡ self.old.hand }
        ensures goes_on { self.new ≡ record self.old { hand = hand } }
    {
        mem::replace(&mut self.hand, hand)
    }

    /// The hand, the buffer, the hand on the counters, and the logs handed on.
    pub fn into_parts(self) -> (Hand, Buffer<L>, ChunkHand, Vec<ClosedLog<L>>)
        ensures hand { result.0 ≡ self.hand }
        ensures buffer { result.1 ≡ self.buffer }
        ensures draws { result.2 ≡ self.tally.draws }
        ensures done { entries_of L.Log result.3.items ≡ self.done }
    {
        (self.hand, self.buffer, self.draws, self.done)
    }

    // Makes room for the record of a line.
    #[inline(always)]
    fn ready<R: Threads + Wait + Copy + Send + 'static>(
        &mut self,
        rt: &R,
        alloc: Global,
        line: u32,
    ) -> Result<(), Stop>
        requires { self.old.buffer.refused ≡ None }
        ensures room { MakesRoom line self.old self.new (lane_answer result) }
        ensures log { IsSameLog self.old.buffer self.new.buffer }
        ensures tally { self.new.tally ≡ self.old.tally }
    {
        if let Err(fault) = self.buffer.ready(rt, alloc) {
            return Err(stop_for(fault, line));
        }
        Ok(())
    }

    /// Reads an element, whose value is its word fitted to it, and puts the record.
    pub fn read<R: Threads + Wait + Copy + Send + 'static>(
        &mut self,
        rt: &R,
        alloc: Global,
        world: &World,
        element: &Element,
        line: u32,
        site: u16,
    ) -> Result<i64, Stop>
        requires can { CanGo world.now self.old }
        requires stands { StandsIn world.now element.now }
        requires line { 1 ≤ line }
        ensures goes { (slots : List ℤ) → Goes world.now (read (meant element.now) site line) slots slots self.old self.new (lane_answer result) }
        ensures log { IsSameLog self.old.buffer self.new.buffer }
        ensures tally { self.new.tally ≡ self.old.tally }
    {
        self.ready(rt, alloc, line)?;
        let bits = world.words().load(&mut self.hand, element.word);
        let found = fit(bits.cast_signed(), element.width);
        let event = access(Kind::Read, element, line, site, found);
        self.buffer.put(&event);
        Ok(found)
    }

    /// Stores or adds a value that the element can have, and puts the record.
    pub fn change<R: Threads + Wait + Copy + Send + 'static>(
        &mut self,
        rt: &R,
        alloc: Global,
        world: &World,
        change: Change,
        element: &Element,
        value: i64,
        line: u32,
        site: u16,
    ) -> Result<(), Halt>
        requires can { CanGo world.now self.old }
        requires stands { StandsIn world.now element.now }
        requires fits { fitted value element.now.width ≡ value }
        requires line { 1 ≤ line }
        ensures goes { (slots : List ℤ) → Goes world.now (put (model.access (kind_of change) (meant element.now) site line value)) slots slots self.old self.new result }
        ensures log { IsSameLog self.old.buffer self.new.buffer }
        ensures tally { self.new.tally ≡ self.old.tally }
    {
        let bits = value.cast_unsigned();
        self.ready(rt, alloc, line)?;
        take_step(world.words(), &mut self.hand, change, element.word, bits);
        let event = access(change.kind(), element, line, site, value);
        self.buffer.put(&event);
        Ok(())
    }

    /// Waits for a mutex that it doesn't hold, and puts the record.
    pub fn lock<R: Threads + Wait + Copy + Send + 'static>(
        &mut self,
        rt: &R,
        alloc: Global,
        world: &World,
        mutex: u16,
        line: u32,
    ) -> Result<(), Halt>
        requires can { CanGo world.now self.old }
        requires mutex { mutex < world.now.words.locks }
        requires not_held { Contains self.old.hand.view.held mutex → ⊥ }
        ensures takes { TakesOrHalts (event kind.Lock line mutex 0) (locked self.old.hand.view mutex) self.old self.new result }
        ensures can { OnOk result (CanGo world.now self.new) }
        ensures log { IsSameLog self.old.buffer self.new.buffer }
        ensures tally { self.new.tally ≡ self.old.tally }
    {
        self.ready(rt, alloc, line)?;
        world.words().lock(rt, &mut self.hand, usize::from(mutex));
        let event = event(Kind::Lock, line, u64::from(mutex), 0);
        self.buffer.put(&event);
        Ok(())
    }

    /// Gives back the mutex that it won last, and puts the record.
    pub fn unlock<R: Threads + Wait + Copy + Send + 'static>(
        &mut self,
        rt: &R,
        alloc: Global,
        world: &World,
        mutex: u16,
        line: u32,
    ) -> Result<(), Halt>
        requires can { CanGo world.now self.old }
        requires innermost { IsWonLast world.now self.old.hand.view mutex }
        ensures takes { TakesOrHalts (event kind.Unlock line mutex 0) (unlocked self.old.hand.view mutex) self.old self.new result }
        ensures log { IsSameLog self.old.buffer self.new.buffer }
        ensures tally { self.new.tally ≡ self.old.tally }
    {
        self.ready(rt, alloc, line)?;
        world.words().unlock(&mut self.hand, usize::from(mutex));
        let event = event(Kind::Unlock, line, u64::from(mutex), 0);
        self.buffer.put(&event);
        Ok(())
    }

    /// Gives back the mutex that it won last at a stop, without a record.
    pub fn release(&mut self, world: &World, mutex: u16)
        requires belongs { Belongs self.old.hand world.now.words.table }
        requires innermost { IsWonLast world.now self.old.hand.view mutex }
        ensures hand { self.new.hand ≡ with_view self.old.hand (unlocked self.old.hand.view mutex) }
        ensures log { self.new.buffer ≡ self.old.buffer }
        ensures tally { self.new.tally ≡ self.old.tally }
        ensures done { self.new.done ≡ self.old.done }
    {
        world.words().unlock(&mut self.hand, usize::from(mutex));
    }

    // Puts a record that no step on the shared words belongs to.
    fn note<R: Threads + Wait + Copy + Send + 'static>(
        &mut self,
        rt: &R,
        alloc: Global,
        kind: Kind,
        line: u32,
    ) -> Result<(), Halt>
        requires puts { CanPut self.old }
        ensures takes { TakesOrHalts (event kind line 0 0) self.old.hand.view self.old self.new result }
        ensures log { IsSameLog self.old.buffer self.new.buffer }
        ensures tally { self.new.tally ≡ self.old.tally }
    {
        self.ready(rt, alloc, line)?;
        let event = event(kind, line, 0, 0);
        self.buffer.put(&event);
        Ok(())
    }

    /// Puts the record of a barrier of the team.
    pub fn meet<R: Threads + Wait + Copy + Send + 'static>(
        &mut self,
        rt: &R,
        alloc: Global,
        line: u32,
    ) -> Result<(), Halt>
        requires puts { CanPut self.old }
        requires line { 1 ≤ line }
        ensures goes { (w : WorldValue) (slots : List ℤ) → CanGo w self.old → GoesPast 1 w (put (event kind.Barrier line 0 0)) slots slots self.old self.new result }
        ensures can { (w : WorldValue) → CanGo w self.old → OnOk result (CanGo w self.new) }
        ensures log { IsSameLog self.old.buffer self.new.buffer }
        ensures tally { self.new.tally ≡ self.old.tally }
    {
        self.note(rt, alloc, Kind::Barrier, line)
    }

    /// Puts the record of the task's end.
    pub fn finish<R: Threads + Wait + Copy + Send + 'static>(
        &mut self,
        rt: &R,
        alloc: Global,
        line: u32,
    ) -> Result<(), Halt>
        requires puts { CanPut self.old }
        requires line { 1 ≤ line }
        ensures takes { TakesOrHalts (event kind.End line 0 0) self.old.hand.view self.old self.new result }
        ensures goes { (w : WorldValue) (slots : List ℤ) → CanGo w self.old → Goes w (put (event kind.End line 0 0)) slots slots self.old self.new result }
        ensures can { (w : WorldValue) → CanGo w self.old → OnOk result (CanGo w self.new) }
        ensures log { IsSameLog self.old.buffer self.new.buffer }
        ensures tally { self.new.tally ≡ self.old.tally }
    {
        self.note(rt, alloc, Kind::End, line)
    }

    // Makes new logs for the lanes of a region, and puts the record of the fork.
    fn fork<R: Threads + Wait + Copy + Send + 'static>(
        &mut self,
        rt: &R,
        alloc: Global,
        line: u32,
        span: u16,
    ) -> Result<Vec<L>, Halt>
        requires puts { CanPut self.old }
        requires path { length self.old.buffer.path < 4 }
        ensures takes { TakesOrHalts (event kind.Region line 0 span) self.old.hand.view self.old self.new result }
        ensures logs { IfOk result (λ logs. AreNewLogs L.Log self.old.buffer self.old.tally.forked span logs.items) }
        ensures log { IsSameLog self.old.buffer self.new.buffer }
        ensures tally { self.new.tally ≡ self.old.tally }
    {
        self.ready(rt, alloc, line)?;
        let logs = match children(rt, alloc, &mut self.buffer, self.forked, span) {
            Ok(logs) => logs,
            Err(trouble) => return Err(Halt::Own(Stop::Trouble(trouble))),
        };
        let event = event(Kind::Region, line, 0, u64::from(span));
        self.buffer.put(&event);
        Ok(logs)
    }

    /// Executes a region: makes the logs of its lanes, puts its record, and has the lanes run from these locals. The logs of the
    /// region's tasks are kept with those of the regions before.
    pub fn parallel<
        R: Threads + Wait + Copy + Send + 'static,
        F: Fn(
            &mut Hand,
            &Locals,
            u32,
            Vec<L>,
            &Team,
            &mut Vec<ClosedLog<L>>,
        ) -> Result<(), (Path, Stop)>,
    >(
        &mut self,
        rt: &R,
        alloc: Global,
        world: &World,
        locals: &Locals,
        team: &Team,
        region: &F,
    ) -> Result<(), Halt>
        requires can { CanGo world.now self.old }
        requires free { self.old.hand.view.held ≡ [] }
        requires line { 1 ≤ team.now.line }
        requires path { length self.old.buffer.path < 4 }
        requires runs { RunsTeam world.now (F.pre region.now) (F.post region.now) L.Log self.old.buffer (team_of team.now) }
        ensures goes { Goes world.now (run (site world.now) (tree.Parallel team.now.span team.now.line team.now.end (code_of team.now.body.stmts.items) tree.Done)) locals.now.slots.items locals.now.slots.items self.old self.new result }
        ensures log { IsSameLog self.old.buffer self.new.buffer }
        ensures loops { self.new.tally.next_loop ≡ self.old.tally.next_loop }
    {
        let logs = self.fork(rt, alloc, team.line, team.span)?;
        let number = self.forked;
        self.forked += 1;
        if let Err((path, stop)) = region(
            &mut self.hand,
            locals,
            number,
            logs,
            team,
            &mut self.done,
        ) {
            return Err(Halt::Region(path, stop));
        }
        if self.done.len() > TASK_LIMIT {
            return Err(Halt::Own(Stop::Tasks { line: team.line }));
        }
        Ok(())
    }

    /// Draws a chunk of the loop that is open, of so many, and puts the record. The count of chunks where none is left.
    pub fn draw<R: Threads + Wait + Copy + Send + 'static>(
        &mut self,
        rt: &R,
        alloc: Global,
        world: &World,
        line: u32,
        chunks: u64,
    ) -> Result<u64, Halt>
        requires can { CanGo world.now self.old }
        requires counter { HasCounters 1 self.old.tally.next_loop world.now.chunks }
        requires line { 1 ≤ line }
        ensures goes { (slots : List ℤ) → Goes world.now (draw line chunks) slots slots self.old self.new result }
        ensures within { IfOk result (λ number. number ≤ chunks) }
        ensures open { IfOk result (λ number. number < chunks → self.new.tally.next_loop ≡ self.old.tally.next_loop) }
        ensures closed { IfOk result (λ number. chunks ≤ number → self.new.tally.next_loop ≡ self.old.tally.next_loop + 1) }
        ensures below { IfOk result (λ _. self.old.buffer.count < record_limit) }
        ensures count { IfOk result (λ _. self.new.buffer.count ≡ self.old.buffer.count + 1) }
        ensures log { IsSameLog self.old.buffer self.new.buffer }
    {
        self.ready(rt, alloc, line)?;
        let number = world.chunks().draw(&mut self.draws, self.next_loop);
        let drawn = number.min(chunks);
        self.next_loop = loop_after(self.next_loop, drawn, chunks);
        let event = event(Kind::Chunk, line, drawn, chunks);
        self.buffer.put(&event);
        Ok(drawn)
    }
}
