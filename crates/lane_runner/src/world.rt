//! Where a lane runs.
ghost use Rattle.std.specs.Prelude.{◌≡◌, ◌<◌, IfSome, MatchOption, None, Some};
ghost use Rattle.kernel_model.specs.Value.{element_at};
ghost use Rattle.lane_runner.specs.Placing.{StandsIn};
ghost use Rattle.lane_runner.specs.World.{IsWorld};
ghost use Rattle.task_place.specs.Placing.{meant};

use kernel_syntax::Array;
use shared_words::{Chunks, Words};
use std::marker::Model;
use task_place::{Element, TaskPlace};

/// Where a lane runs: the place of its task, the shared words, and the team's counters. Each element of an array is a word of its own.
#[derive(Drop)]
pub struct World<'a> {
    place: TaskPlace<'a>,
    words: &'a Words,
    chunks: &'a Chunks,
}

impl<'a> Model for World<'a> {
    ghost use Rattle.lane_runner.specs.World.{WorldValue, IsWorld};

    ghost Value = { WorldValue };

    ghost view = { λ w. record { arrays = w.place.arrays; words = w.words.now; chunks = w.chunks.now; lane = w.place.lane; span = w.place.span } };

    ghost invariant = { λ w. IsWorld (record { arrays = w.place.arrays; words = w.words.now; chunks = w.chunks.now; lane = w.place.lane; span = w.place.span }) };
}

impl<'a> World<'a> {
    pub fn new(
        arrays: &'a [Array],
        words: &'a Words,
        chunks: &'a Chunks,
        lane: u16,
        span: u16,
    ) -> World<'a>
        requires { IsWorld (record { arrays = arrays.now; words = words.now; chunks = chunks.now; lane = lane; span = span }) }
        ensures { result ≡ record { arrays = arrays.now; words = words.now; chunks = chunks.now; lane = lane; span = span } }
    {
        World {
            place: TaskPlace::new(arrays, lane, span),
            words,
            chunks,
        }
    }

    /// The lane's number in its team.
    pub fn lane(&self) -> u16
        ensures { result ≡ self.now.lane }
    {
        self.place.lane()
    }

    /// How many lanes the team has.
    pub fn span(&self) -> u16
        ensures span { result ≡ self.now.span }
        ensures within { self.now.lane < result }
    {
        self.place.span()
    }

    /// The shared words.
    pub fn words(&self) -> &Words
        ensures { result.now ≡ self.now.words }
    {
        self.words
    }

    /// The counters of the team's loops whose chunks are drawn.
    pub fn chunks(&self) -> &Chunks
        ensures { result.now ≡ self.now.chunks }
    {
        self.chunks
    }

    /// The element of an array at an index. None outside the array.
    pub fn element(&self, array: u32, index: i64) -> Option<Element>
        ensures is { MatchOption result (element_at self.now.arrays array index ≡ None) (λ e. element_at self.now.arrays array index ≡ Some (meant e)) }
        ensures stands { IfSome result (StandsIn self.now) }
    {
        self.place.element(array, index)
    }
}
