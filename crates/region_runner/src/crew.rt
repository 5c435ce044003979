//! What the lanes of a team have in common.
ghost use Rattle.std.specs.Prelude.{◌≡◌, ◌<◌};
ghost use Rattle.region_runner.specs.Crew.{IsCrew, world_of};

use kernel_syntax::Array;
use lane_runner::World;
use shared_words::{Chunks, Words};
use std::marker::Model;

// The kernel's arrays, the shared words, the team's counters, and how many lanes it has.
#[derive(Drop)]
pub(crate) struct Crew<'a> {
    arrays: &'a [Array],
    words: &'a Words,
    chunks: &'a Chunks,
    span: u16,
}

impl<'a> Model for Crew<'a> {
    ghost use Rattle.region_runner.specs.Crew.{CrewValue, IsCrew};

    ghost Value = { CrewValue };

    ghost view = { λ c. record { arrays = c.arrays.now; words = c.words.now; chunks = c.chunks.now; span = c.span } };

    ghost invariant = { λ c. IsCrew (record { arrays = c.arrays.now; words = c.words.now; chunks = c.chunks.now; span = c.span }) };
}

impl<'a> Crew<'a> {
    pub(crate) fn new(
        arrays: &'a [Array],
        words: &'a Words,
        chunks: &'a Chunks,
        span: u16,
    ) -> Crew<'a>
        requires { IsCrew (record { arrays = arrays.now; words = words.now; chunks = chunks.now; span = span }) }
        ensures { result ≡ record { arrays = arrays.now; words = words.now; chunks = chunks.now; span = span } }
    {
        Crew {
            arrays,
            words,
            chunks,
            span,
        }
    }

    // Where a lane of the team runs.
    pub(crate) fn world(&self, lane: u16) -> World<'a>
        requires { lane < self.now.span }
        ensures { result ≡ world_of self.now lane }
    {
        World::new(self.arrays, self.words, self.chunks, lane, self.span)
    }

    // How many lanes the team has.
    pub(crate) fn span(&self) -> u16
        ensures { result ≡ self.now.span }
    {
        self.span
    }
}
