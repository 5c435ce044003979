//! What goes to a writer and comes back.
ghost use Rattle.std.specs.Prelude.{◌≡◌, ◌+◌, ◌<◌, ◌≤◌, ◌↔◌, ℕ, [], ◌∷◌, ◌++◌, length, Some, None, IfOk, IfErr, OnOk, IsErr, IsTrue};
ghost use Rattle.sw_base.specs.declared.trouble.Trouble.{Trouble};
ghost use Rattle.flush_writer.specs.Held.{Held, IsNewChild, IsSentBack, RefusesPiece, EndsPending, IsStoppedBy, settled};

use event_block::Block;
use hand_over::Parcel;
use std::alloc::Global;
use std::marker::Model;
use std::mem;
use sw_base::{Log, Trouble};

/// A log, a block for it, and why a call on the log was refused.
#[derive(Drop)]
pub(crate) struct Errand<L: Log> {
    log: L,
    block: Block,
    refused: Option<Trouble>,
}

impl<L: Log> Model for Errand<L> {
    ghost use Rattle.flush_writer.specs.Held.{Held};

    ghost Value = { Held };

    ghost view = { λ e. record {
      dir = L.dir e.log;
      path = L.path e.log;
      text = L.text e.log;
      faults = L.faults e.log;
      size = e.block.size;
      pending = e.block.bytes;
      refused = e.refused;
    } };
}

impl<L: Log> Parcel for Errand<L> {
    ghost use Rattle.flush_writer.specs.Held.{IsSentBack};
    ghost use Rattle.flush_writer.specs.Placed.{CanBeSent};

    type About = ();

    ghost fits = { λ _ errand. CanBeSent errand };

    ghost follows = { λ _ sent back. IsSentBack sent back };
}

impl<L: Log> Errand<L> {
    /// A log and an empty block, of which nothing was refused.
    pub(crate) fn new(log: L, block: Block) -> Errand<L>
        ensures { result ≡ record {
          dir = L.dir log;
          path = L.path log;
          text = L.text log;
          faults = L.faults log;
          size = block.size;
          pending = block.bytes;
          refused = None;
        } }
    {
        Errand {
            log,
            block,
            refused: None,
        }
    }

    /// Why a call on the log was refused.
    pub(crate) fn refused(&self) -> Option<Trouble>
        ensures { result ≡ self.now.refused }
    {
        self.refused
    }

    /// Appends the block to the log as one piece, and empties it.
    pub(crate) fn append(&mut self, alloc: Global)
        requires unrefused { self.old.refused ≡ None }
        ensures { IsSentBack self.old self.new }
    {
        match self.log.append(alloc, self.block.bytes()) {
            Ok(()) => self.block.clear(),
            Err(trouble) => self.refused = Some(trouble),
        }
    }

    // Whether the block may be appended, and has something.
    fn is_due(&self) -> bool
        ensures { IsTrue result ↔ ((self.now.refused ≡ None) × (0 < length self.now.pending)) }
    {
        self.refused.is_none() && self.block.len() > 0
    }

    /// Appends what the block has, unless a call was refused.
    #[tactic(auto, using(crate::proofs::Settling::ends_same, crate::proofs::Settling::ends_appended))]
    pub(crate) fn settle(&mut self, alloc: Global)
        ensures { EndsPending self.old self.new }
    {
        if self.is_due() {
            self.append(alloc);
        }
    }

    /// Takes another block in place of the one that it has.
    pub(crate) fn swap(&mut self, block: Block) -> Block
        ensures swapped { self.new ≡ record self.old { size = block.size; pending = block.bytes } }
        ensures given { result ≡ record { size = self.old.size; bytes = self.old.pending } }
    {
        mem::replace(&mut self.block, block)
    }

    /// A new empty log of the same folder.
    pub(crate) fn child(
        &mut self,
        alloc: Global,
        region: u32,
        lane: u16,
        span: u16,
    ) -> Result<L, Trouble>
        requires path { length self.old.path < 4 }
        requires unrefused { self.old.refused ≡ None }

        ensures child { IfOk result (λ log.
            IsNewChild self.old (record { region = region; lane = lane; span = span }) (L.dir log) (L.path log) (L.text log) (L.faults log)) }

        ensures done { OnOk result (self.new ≡ self.old) }
        ensures refused { IfErr result (λ trouble. IsStoppedBy trouble self.old self.new) }
    {
        let outcome = self.log.child(alloc, region, lane, span);
        if let Err(trouble) = outcome {
            self.refused = Some(trouble);
        }
        outcome
    }

    /// Appends the rest, if there is any and nothing was refused, and gives the log.
    pub(crate) fn finish(self, alloc: Global, rest: Block) -> Result<L, (Trouble, L)>
        ensures place { IfOk result (λ log. (L.dir log ≡ self.dir) × (L.path log ≡ self.path)) }
        ensures unrefused { IfOk result (λ log. self.refused ≡ None) }
        ensures text { IfOk result (λ log. L.text log ≡ (settled (record self { size = rest.size; pending = rest.bytes })).text) }
        ensures same_faults { IfOk result (λ log. L.faults log ≡ self.faults) }

        ensures given_back { IfErr result (λ error. (L.dir error.1 ≡ self.dir) × (L.path error.1 ≡ self.path)) }
        ensures again { (trouble : Trouble) → self.refused ≡ Some trouble
            → IsErr result × IfErr result (λ error. (error.0 ≡ trouble) × (L.text error.1 ≡ self.text) × (L.faults error.1 ≡ self.faults)) }
        ensures refused { self.refused ≡ None → IfErr result (λ error.
            RefusesPiece error.0 rest.bytes self.text (L.text error.1) self.faults (L.faults error.1)) }
    {
        let mut errand = self;
        if let Some(trouble) = errand.refused {
            return Err((trouble, errand.into_log()));
        }
        errand.swap(rest);
        errand.settle(alloc);
        match errand.refused {
            None => Ok(errand.into_log()),
            Some(trouble) => Err((trouble, errand.into_log())),
        }
    }

    // The log alone.
    fn into_log(self) -> L
        ensures dir { L.dir result ≡ self.dir }
        ensures path { L.path result ≡ self.path }
        ensures text { L.text result ≡ self.text }
        ensures faults { L.faults result ≡ self.faults }
    {
        let Errand {
            log,
            block,
            refused: _,
        } = self;
        drop(block);
        log
    }
}
