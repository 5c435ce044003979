//! What all regions of a run have in common.
ghost use Rattle.std.specs.Prelude.{◌≡◌};
ghost use Rattle.region_runner.specs.Answer.{IsBufferSize};
ghost use Rattle.region_runner.specs.Ground.{IsGround, crew_of};

use crate::crew::Crew;
use kernel_syntax::Array;
use shared_words::{Chunks, Words};
use std::marker::Model;
use std::thread::Builder;
use team_live::LiveGate;

// The kernel's arrays, the shared words, the gate that lanes enter, the size of a buffer, and whether a team's threads stay from its first
// phase to its last.
#[derive(Drop)]
pub(crate) struct Ground<'a, G: LiveGate> {
    arrays: &'a [Array],
    words: &'a Words,
    gate: &'a G,
    size: usize,
    stays: bool,
}

impl<'a, G: LiveGate> Model for Ground<'a, G> {
    ghost use Rattle.region_runner.specs.Ground.{GroundValue, IsGround};

    ghost Value = { GroundValue };

    ghost view = { λ g. record { arrays = g.arrays.now; words = g.words.now; size = g.size } };

    ghost invariant = { λ g. IsGround (record { arrays = g.arrays.now; words = g.words.now; size = g.size }) };
}

impl<'a, G: LiveGate> Ground<'a, G> {
    pub(crate) fn new(
        arrays: &'a [Array],
        words: &'a Words,
        gate: &'a G,
        size: usize,
        stays: bool,
    ) -> Ground<'a, G>
        requires { IsGround (record { arrays = arrays.now; words = words.now; size = size }) }
        ensures { result ≡ record { arrays = arrays.now; words = words.now; size = size } }
    {
        Ground {
            arrays,
            words,
            gate,
            size,
            stays,
        }
    }

    // The crew of a team of so many lanes with these counters.
    pub(crate) fn crew<'c>(&'c self, chunks: &'c Chunks, span: u16) -> Crew<'c>
        ensures { result ≡ crew_of self.now chunks.now span }
    {
        Crew::new(self.arrays, self.words, chunks, span)
    }

    // The shared words.
    pub(crate) fn words(&self) -> &'a Words
        ensures { result.now ≡ self.now.words }
    {
        self.words
    }

    // The size of a buffer.
    pub(crate) fn size(&self) -> usize
        ensures is { result ≡ self.now.size }
        ensures bounds { IsBufferSize result }
    {
        self.size
    }

    // Whether a team's threads stay.
    pub(crate) fn stays(&self) -> bool {
        self.stays
    }

    // How the thread of a lane is started that stays.
    pub(crate) fn thread(&self, lane: usize) -> Builder {
        self.gate.thread(lane)
    }

    // The thread of a lane starts, and stays.
    pub(crate) fn started(&self, lane: usize) {
        self.gate.started(lane);
    }

    // A lane enters its phase.
    pub(crate) fn enter(&self, lane: usize) {
        self.gate.enter(lane);
    }
}
