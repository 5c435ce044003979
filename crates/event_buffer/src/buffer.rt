//! A buffer before a task's log.
ghost use Rattle.std.specs.Prelude.{◌≡◌, ◌⊎◌, ◌+◌, ◌*◌, ◌<◌, ◌≤◌, ◌↔◌, [], ◌∷◌, ◌++◌, length, List, ℕ, Some, None, Err, is_some, IfOk, IfErr, OnOk, OnErr, IsErr, IsErrOf, IsTrue};
ghost use Rattle.std.specs.Option.{option_map};
ghost use Rattle.log_format.specs.declared.format.TheConstants.{FORMAT};
ghost use Rattle.log_format.specs.Format.{log_header};
ghost use Rattle.log_format.specs.Limit.{record_limit};
ghost use Rattle.log_format.specs.declared.record.Record.{Record};
ghost use Rattle.log_format.specs.Spelling.{spelling};
ghost use Rattle.sw_base.specs.Environment.{WhereTold, HasCause, Rose, TearsPiece, empty_text, with_piece};
ghost use Rattle.event_buffer.specs.Buffered.{FitsRecord, MayPut, IsTornBy, IsRefusedBy, IsStill, CountsFault, flushed, caught_up};
ghost use Rattle.event_buffer.specs.Logged.{HoldsRecords, HasAll, KeepsPrefix};

use crate::fault::BufferFault;
use event_block::Block;
use flush_writer::Flusher;
use log_format::{RECORD_LIMIT, RECORD_SIZE, Record, encode};
use std::alloc::Global;
use std::marker::{Model, Send};
use std::sync::Wait;
use std::thread::Threads;
use sw_base::{Log, Trouble};

/// Takes a task's records for its log.
#[derive(Drop)]
pub struct Buffer<L: Log> {
    flusher: Flusher<L>,
    // The block that is filled. It is away only while a call hands it on.
    block: Option<Block>,
    count: u32,
}

impl<L: Log> Model for Buffer<L> {
    ghost use Rattle.std.specs.Prelude.{◌≡◌, ◌≤◌, Some, length};
    ghost use Rattle.event_buffer.specs.Buffered.{Buffered, buffered, bytes_in};
    ghost use Rattle.log_format.specs.Limit.{record_limit};

    ghost Value = { Buffered };

    ghost view = { λ b. buffered b.flusher (bytes_in b.block) b.count };

    ghost invariant = { λ b. (24 ≤ b.flusher.size) × (b.block ≡ Some (record { size = b.flusher.size; bytes = bytes_in b.block }))
        × (length (bytes_in b.block) ≤ b.flusher.size) × (b.count ≤ record_limit) };
}

impl<L: Log> Buffer<L> {
    /// A buffer of this size, whose log begins with the header.
    pub fn start<R: Threads>(
        rt: &R,
        alloc: Global,
        log: L,
        size: usize,
    ) -> Result<Buffer<L>, (Trouble, L)>
        requires size { (24 ≤ size) × (size ≤ 4194304) }
        requires empty { WhereTold (L.text log) (λ text. text ≡ empty_text) }
        requires no_faults { L.faults log ≡ 0 }

        ensures started { IfOk result (λ b. b ≡ record {
          dir = L.dir log;
          path = L.path log;
          text = option_map (with_piece (log_header FORMAT)) (L.text log);
          faults = b.faults;
          size = size;
          sent = [];
          waiting = [];
          count = 0;
          refused = None;
        }) }
        ensures records { IfOk result (λ b. HoldsRecords (log_header FORMAT) b []) }

        ensures given_back { IfErr result (λ error. (L.dir error.1 ≡ L.dir log) × (L.path error.1 ≡ L.path log)) }
        ensures torn { IfErr result (λ error. TearsPiece (L.text log) (L.text error.1) (log_header FORMAT)) }
        ensures memory { IfErr result (λ error. error.0 ≡ Trouble.Memory → (L.text error.1 ≡ L.text log) × (L.faults error.1 ≡ L.faults log)) }
        ensures fault { IfErr result (λ error. CountsFault error.0 (L.faults error.1)) }
    {
        let (flusher, block) = Flusher::start(rt, alloc, log, size)?;
        Ok(Buffer {
            flusher,
            block: Some(block),
            count: 0,
        })
    }

    /// Makes room for one record: gives the block to the log's writer, where the record doesn't fit.
    #[inline(always)]
    pub fn ready<R: Threads + Wait + Copy + Send + 'static>(
        &mut self,
        rt: &R,
        alloc: Global,
    ) -> Result<(), BufferFault>
        ensures ready { OnOk result (MayPut self.new) }
        ensures room { FitsRecord self.old → self.new ≡ self.old }
        ensures flushed { (FitsRecord self.old → ⊥) → OnOk result (self.new ≡ flushed self.old) }

        ensures full { IsErrOf result BufferFault.LogFull ↔ ((self.old.refused ≡ None) × (record_limit ≤ self.old.count)) }
        ensures full_same { IsErrOf result BufferFault.LogFull → self.new ≡ self.old }
        ensures again { (trouble : Trouble) → self.old.refused ≡ Some trouble
            → IsErrOf result (BufferFault.Trouble trouble) × (self.new ≡ self.old) }
        ensures refused { (trouble : Trouble) → IsErrOf result (BufferFault.Trouble trouble) → self.new.refused ≡ Some trouble }
        ensures torn { (trouble : Trouble) → self.old.refused ≡ None → IsErrOf result (BufferFault.Trouble trouble)
            → IsTornBy trouble self.old self.new }
        ensures fault { IsErrOf result (BufferFault.Trouble Trouble.Failed) → 0 < self.new.faults }
        ensures cause { self.old.refused ≡ None → IsErrOf result (BufferFault.Trouble Trouble.Failed) → Rose self.old.faults self.new.faults }

        ensures records { (header : List ℕ) (records : List Record) → HoldsRecords header self.old records → HoldsRecords header self.new records }
        ensures still { IsStill self.old self.new }
    {
        if let Some(trouble) = self.flusher.refused() {
            return Err(BufferFault::Trouble(trouble));
        }
        if self.is_full() {
            return Err(BufferFault::LogFull);
        }
        if self.has_room() {
            return Ok(());
        }
        self.flush(rt, alloc)?;
        Ok(())
    }

    /// Adds a record.
    #[inline(always)]
    pub fn put(&mut self, event: &Record)
        requires { MayPut self.old }
        ensures put { self.new ≡ record self.old { waiting = self.old.waiting ++ spelling event.now; count = self.old.count + 1 } }
        ensures records { (header : List ℕ) (records : List Record) → HoldsRecords header self.old records
            → HoldsRecords header self.new (records ++ event.now ∷ []) }
    {
        let Some(block) = &mut self.block else {
            unreachable!();
        };
        block.push(&encode(event));
        self.count += 1;
    }

    /// How many records were put.
    pub fn count(&self) -> u32
        ensures count { result ≡ self.now.count }
        ensures within { result ≤ record_limit }
    {
        self.count
    }

    /// A new empty log of the same folder, for a lane of one of the task's regions, when the log has what was sent.
    pub fn child<R: Wait>(
        &mut self,
        rt: &R,
        alloc: Global,
        region: u32,
        lane: u16,
        span: u16,
    ) -> Result<L, Trouble>
        requires path { length self.old.path < 4 }
        requires unrefused { self.old.refused ≡ None }

        ensures child_dir { IfOk result (λ log. L.dir log ≡ self.old.dir) }
        ensures child_path { IfOk result (λ log. L.path log ≡ self.old.path ++ record { region = region; lane = lane; span = span } ∷ []) }
        ensures child_text { IfOk result (λ log. L.text log ≡ option_map (λ _. empty_text) self.old.text) }
        ensures child_faults { IfOk result (λ log. L.faults log ≡ 0) }

        ensures done { OnOk result (self.new ≡ caught_up self.old) }
        ensures stopped { IfErr result (λ trouble. IsTornBy trouble self.old self.new ⊎ IsRefusedBy trouble (caught_up self.old) self.new) }
        ensures still { IsStill self.old self.new }
        ensures waiting { self.new.waiting ≡ self.old.waiting }
        ensures unrefused { OnOk result (self.new.refused ≡ None) }
        ensures refused { IfErr result (λ trouble. self.new.refused ≡ Some trouble) }
        ensures cause { HasCause self.old.faults self.new.faults result }

        ensures records { (header : List ℕ) (records : List Record) → HoldsRecords header self.old records → HoldsRecords header self.new records }
    {
        self.flusher.child(rt, alloc, region, lane, span)
    }

    /// Hands on all that is left, and gives the log.
    pub fn close<R: Wait>(self, rt: &R, alloc: Global) -> Result<L, (Trouble, L)>
        ensures dir { IfOk result (λ log. (L.dir log ≡ self.dir) × (L.path log ≡ self.path)) }
        ensures given_back { IfErr result (λ error. (L.dir error.1 ≡ self.dir) × (L.path error.1 ≡ self.path)) }

        ensures closed { IfOk result (λ log. (header : List ℕ) (records : List Record) → HoldsRecords header self records
            → WhereTold (L.text log) (HasAll header records self.size)) }
        ensures prefix { IfErr result (λ error. (header : List ℕ) (records : List Record) → HoldsRecords header self records
            → WhereTold (L.text error.1) (KeepsPrefix header records self.size)) }

        ensures tells { IfOk result (λ log. is_some (L.text log) ≡ is_some self.text) }
        ensures error_tells { IfErr result (λ error. is_some (L.text error.1) ≡ is_some self.text) }

        ensures again { (trouble : Trouble) → self.refused ≡ Some trouble
            → IsErr result × IfErr result (λ error. (error.0 ≡ trouble) × (L.text error.1 ≡ self.text)) }
        ensures fault { IfErr result (λ error. CountsFault error.0 (L.faults error.1)) }
        ensures no_fault { IfOk result (λ log. L.faults log ≡ 0) }
        ensures error_later { IfErr result (λ error. self.faults ≤ L.faults error.1) }
    {
        let Buffer {
            flusher,
            block,
            count: _,
        } = self;
        let Some(rest) = block else {
            unreachable!();
        };
        flusher.finish(rt, alloc, rest)
    }

    // Whether the log may have no further record.
    #[inline(always)]
    fn is_full(&self) -> bool
        ensures { IsTrue result ↔ (record_limit ≤ self.now.count) }
    {
        self.count >= RECORD_LIMIT
    }

    // Whether the bytes of one more record fit.
    #[inline(always)]
    fn has_room(&self) -> bool
        ensures { IsTrue result ↔ FitsRecord self.now }
    {
        match &self.block {
            Some(block) => block.size() - block.len() >= RECORD_SIZE,
            None => false,
        }
    }

    // Gives the block to the writer, and takes the other.
    #[inline(never)]
    fn flush<R: Threads + Wait + Copy + Send + 'static>(
        &mut self,
        rt: &R,
        alloc: Global,
    ) -> Result<(), Trouble>
        requires unrefused { self.old.refused ≡ None }
        requires some { 0 < length self.old.waiting }
        ensures flushed { OnOk result (self.new ≡ flushed self.old) }
        ensures torn { IfErr result (λ trouble. IsTornBy trouble self.old self.new) }
        ensures cause { HasCause self.old.faults self.new.faults result }
    {
        let Some(full) = self.block.take() else {
            unreachable!();
        };
        match self.flusher.give(rt, alloc, full) {
            Ok(empty) => {
                self.block = Some(empty);
                Ok(())
            }
            Err((trouble, full)) => {
                self.block = Some(full);
                Err(trouble)
            }
        }
    }
}
