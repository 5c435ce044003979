//! A task's log behind its writer.
ghost use Rattle.std.specs.Prelude.{◌≡◌, ◌⊎◌, ◌+◌, ◌<◌, ◌≤◌, [], ◌∷◌, ◌++◌, length, Some, None, IfOk, IfErr, OnOk, IsErr, IfSome};
ghost use Rattle.std.specs.Option.{option_map};
ghost use Rattle.log_format.specs.declared.format.TheConstants.{FORMAT};
ghost use Rattle.log_format.specs.Format.{log_header};
ghost use Rattle.sw_base.specs.Environment.{WhereTold, TearsPiece, empty_text, with_piece};
ghost use Rattle.sw_base.specs.declared.trouble.Trouble.{Trouble};
ghost use Rattle.flush_writer.specs.Held.{IsNewChild, EndsPending, RefusesPiece, RefusesPending, IsStoppedBy, given, settled};
ghost use Rattle.flush_writer.specs.Placed.{IsIdle, IsKept, held};

use crate::errand::Errand;
use crate::writer::Writer;
use event_block::Block;
use log_format::FORMAT;
use std::alloc::Global;
use std::marker::{Model, Send};
use std::sync::Wait;
use std::thread::Threads;
use sw_base::{Log, Trouble};

/// The least block that is handed over. A smaller one is appended sooner than another thread is woken for it.
const LEAST_BLOCK: usize = 16_384;

/// The stack of a writer, which only appends.
const STACK: usize = 256 * 1024;

/// A task's log, and one of its two blocks.
#[derive(Drop)]
pub struct Flusher<L: Log> {
    // The log and the block, while the writer doesn't have them.
    home: Option<Errand<L>>,
    writer: Writer<L>,
}

impl<L: Log> Model for Flusher<L> {
    ghost use Rattle.flush_writer.specs.Held.{Held, IsCounted};
    ghost use Rattle.flush_writer.specs.Placed.{IsKept, held};

    ghost Value = { Held };

    ghost view = { λ f. held f.home f.writer };

    ghost invariant = { λ f. IsKept f.home f.writer × IsCounted (held f.home f.writer) };
}

// The log and the block, when what was given is appended or refused.
fn brought<L: Log, R: Wait>(
    rt: &R,
    alloc: Global,
    home: Option<Errand<L>>,
    writer: &mut Writer<L>,
) -> Errand<L>
    requires placed { IsKept home writer.old }
    ensures settles { EndsPending (held home writer.old) result }
    ensures idle { IsIdle writer.new }
{
    match home {
        Some(errand) => {
            let mut errand = errand;
            errand.settle(alloc);
            errand
        }
        None => writer.collect(rt),
    }
}

impl<L: Log> Flusher<L> {
    /// A log that begins with the header, and the first empty block of this size.
    pub fn start<R: Threads>(
        _rt: &R,
        alloc: Global,
        log: L,
        size: usize,
    ) -> Result<(Flusher<L>, Block), (Trouble, L)>
        requires size { (24 ≤ size) × (size ≤ 4194304) }
        requires empty { WhereTold (L.text log) (λ text. text ≡ empty_text) }
        requires no_faults { L.faults log ≡ 0 }

        ensures started { IfOk result (λ r. r.0 ≡ record {
          dir = L.dir log;
          path = L.path log;
          text = option_map (with_piece (log_header FORMAT)) (L.text log);
          faults = 0;
          size = size;
          pending = [];
          refused = None;
        }) }
        ensures block { IfOk result (λ r. r.1 ≡ record { size = size; bytes = [] }) }

        ensures given_back { IfErr result (λ error. (L.dir error.1 ≡ L.dir log) × (L.path error.1 ≡ L.path log)) }
        ensures refused { IfErr result (λ error. RefusesPiece error.0 (log_header FORMAT) (L.text log) (L.text error.1) (L.faults log) (L.faults error.1)) }
    {
        let mut log = log;
        let Some((first, second)) = blocks(alloc, size) else {
            return Err((Trouble::Memory, log));
        };
        match log.append(alloc, &FORMAT.log_header()) {
            Ok(()) => Ok((Flusher::at_home(log, first), second)),
            Err(trouble) => Err((trouble, log)),
        }
    }

    /// The same with a writer for blocks of any size, which has this much stack if it is started from now on.
    pub fn with_stack(self, stack: usize) -> Flusher<L>
        ensures { result ≡ self }
    {
        let Flusher { home, writer } = self;
        Flusher {
            home,
            writer: writer.with_stack(stack),
        }
    }

    /// Why a call on the log was refused, where that is known.
    #[inline(always)]
    pub fn refused(&self) -> Option<Trouble>
        ensures refused { result ≡ self.now.refused }
        ensures fault { result ≡ Some Trouble.Failed → 0 < self.now.faults }
        ensures no_fault { result ≡ None → self.now.faults ≡ 0 }
    {
        match &self.home {
            Some(errand) => errand.refused(),
            None => None,
        }
    }

    /// Takes a full block and gives an empty one, when what was given before is appended.
    pub fn give<R: Threads + Wait + Copy + Send + 'static>(
        &mut self,
        rt: &R,
        alloc: Global,
        full: Block,
    ) -> Result<Block, (Trouble, Block)>
        requires size { full.size ≡ self.old.size }
        requires some { 0 < length full.bytes }
        requires unrefused { self.old.refused ≡ None }

        ensures given { OnOk result (self.new ≡ given full.bytes self.old) }
        ensures empty { IfOk result (λ block. block ≡ record { size = self.old.size; bytes = [] }) }

        ensures given_back { IfErr result (λ error. error.1 ≡ full) }
        ensures refused { IfErr result (λ error. RefusesPending error.0 self.old self.new) }
    {
        let mut errand = brought(rt, alloc, self.home.take(), &mut self.writer);
        if let Some(trouble) = errand.refused() {
            self.home = Some(errand);
            return Err((trouble, full));
        }
        let empty = errand.swap(full);
        self.writer.ask(rt, alloc);
        self.home = self.writer.send(errand);
        Ok(empty)
    }

    /// A new empty log of the same folder, for a lane of one of the task's regions, when all that was given is appended.
    pub fn child<R: Wait>(
        &mut self,
        rt: &R,
        alloc: Global,
        region: u32,
        lane: u16,
        span: u16,
    ) -> Result<L, Trouble>
        requires path { length self.old.path < 4 }
        requires unrefused { self.old.refused ≡ None }

        ensures child { IfOk result (λ log.
            IsNewChild self.old (record { region = region; lane = lane; span = span }) (L.dir log) (L.path log) (L.text log) (L.faults log)) }

        ensures done { OnOk result (self.new ≡ settled self.old) }
        ensures refused { IfErr result (λ trouble. RefusesPending trouble self.old self.new ⊎ IsStoppedBy trouble (settled self.old) self.new) }
    {
        let mut errand = brought(rt, alloc, self.home.take(), &mut self.writer);
        if let Some(trouble) = errand.refused() {
            self.home = Some(errand);
            return Err(trouble);
        }
        let outcome = errand.child(alloc, region, lane, span);
        self.home = Some(errand);
        outcome
    }

    /// Ends the writer, and gives the log, when all that was given and the rest is appended.
    pub fn finish<R: Wait>(self, rt: &R, alloc: Global, rest: Block) -> Result<L, (Trouble, L)>
        ensures place { IfOk result (λ log. (L.dir log ≡ self.dir) × (L.path log ≡ self.path)) }
        ensures text { IfOk result (λ log. L.text log ≡ (settled (given rest.bytes self)).text) }
        ensures no_fault { IfOk result (λ log. L.faults log ≡ 0) }

        ensures given_back { IfErr result (λ error. (L.dir error.1 ≡ self.dir) × (L.path error.1 ≡ self.path)) }
        ensures again { (trouble : Trouble) → self.refused ≡ Some trouble
            → IsErr result × IfErr result (λ error. (error.0 ≡ trouble) × (L.text error.1 ≡ self.text) × (L.faults error.1 ≡ self.faults)) }
        ensures refused { self.refused ≡ None → IfErr result (λ error.
            RefusesPiece error.0 self.pending self.text (L.text error.1) self.faults (L.faults error.1)
            ⊎ RefusesPiece error.0 rest.bytes (settled self).text (L.text error.1) self.faults (L.faults error.1)) }
        ensures fault { IfErr result (λ error. error.0 ≡ Trouble.Failed → 0 < L.faults error.1) }
    {
        let Flusher { home, mut writer } = self;
        let errand = brought(rt, alloc, home, &mut writer);
        writer.close();
        errand.finish(alloc, rest)
    }

    // A log at home, with an empty block.
    fn at_home(log: L, block: Block) -> Flusher<L>
        requires empty { block.bytes ≡ [] }
        requires no_faults { L.faults log ≡ 0 }
        ensures { result ≡ record {
          dir = L.dir log;
          path = L.path log;
          text = L.text log;
          faults = 0;
          size = block.size;
          pending = [];
          refused = None;
        } }
    {
        let is_wanted = block.size() >= LEAST_BLOCK;
        Flusher {
            home: Some(Errand::new(log, block)),
            writer: Writer::new(is_wanted, STACK),
        }
    }
}

// Two empty blocks of this size, if there is memory for them.
fn blocks(alloc: Global, size: usize) -> Option<(Block, Block)>
    requires { (24 ≤ size) × (size ≤ 4194304) }
    ensures { IfSome result (λ r. (r.0 ≡ record { size = size; bytes = [] }) × (r.1 ≡ record { size = size; bytes = [] })) }
{
    let first = Block::new(alloc, size).ok()?;
    let second = Block::new(alloc, size).ok()?;
    Some((first, second))
}
