ghost use Rattle.std.specs.Prelude.{◌≡◌, ◌+◌, ◌^◌, ◌-◌, ◌<◌, ◌↔◌, List, [], ◌∷◌, ◌++◌, length, All, IsTrue};
ghost use Rattle.std.specs.Option.{ForSome};
ghost use Rattle.race_model.specs.Label.{Triple as ModelTriple, IsLabelBefore, IsConcurrent};
ghost use Rattle.span_label.specs.Levels.{HasSpan, HasLevels, own_level};

use crate::triple::{Triple, is_before};
use arrayvec::ArrayVec;
use std::marker::Model;

/// The most levels that a label has: the root's and four nested regions.
const LEVELS: usize = 5;

/// Where a task stands among the forks, joins and barriers, as one triple a level, from the root down. Contracts see
/// the list of triples.
#[derive(Drop)]
pub struct Label {
    triples: ArrayVec<Triple, LEVELS>,
}

impl Model for Label {
    ghost use Rattle.std.specs.Prelude.{List};
    ghost use Rattle.race_model.specs.Label.{Triple as ModelTriple};
    ghost use Rattle.span_label.specs.Levels.{HasLevels};

    ghost Value = { List ModelTriple };

    ghost view = { λ label. label.triples.items };

    ghost invariant = { λ label. HasLevels label.triples.items };
}

impl Label {
    /// The root's label before it forks.
    pub fn root() -> Label
        ensures { result ≡ record { offset = 0; span = 1; barrier = 0 } ∷ [] }
    {
        let mut triples = ArrayVec::new();
        triples.push(Triple::default());
        Label { triples }
    }

    /// The triples, from the root down, one to five.
    pub fn triples(&self) -> &[Triple]
        ensures triples { result.now ≡ self.now }
        ensures levels { HasLevels self.now }
    {
        self.triples.as_slice()
    }

    /// The same label.
    pub fn copy(&self) -> Label
        ensures same { result ≡ self.now }
        ensures levels { HasLevels self.now }
    {
        let mut triples = ArrayVec::new();
        triples
            .try_extend_from_slice(self.triples.as_slice())
            .unwrap();
        Label { triples }
    }

    /// The label of a lane of a region that this task forks.
    pub fn fork(&self, lane: u16, span: u16) -> Label
        requires room { length self.now < 5 }
        requires in_team { lane < span }
        ensures { result ≡ self.now ++ record { offset = lane; span = span; barrier = 0 } ∷ [] }
    {
        let mut label = self.copy();
        label.triples.push(Triple {
            offset: u64::from(lane),
            span,
            barrier: 0,
        });
        label
    }

    /// The label after the join of a region: its own level's offset is raised by the span.
    pub fn joined(&self) -> Label
        requires { ForSome (own_level self.now) (λ own. own.offset < 2 ^ 40) }
        ensures levels { length result ≡ length self.now }
        ensures raised { (above : List ModelTriple) (own : ModelTriple) → self.now ≡ above ++ own ∷ []
            → result ≡ above ++ record own { offset = own.offset + own.span } ∷ [] }
    {
        let mut label = self.copy();
        if let Some(mut own) = label.triples.pop() {
            own.offset += u64::from(own.span);
            label.triples.push(own);
        }
        label
    }

    /// The label after a barrier of the task's team: its own level's barrier number is one more.
    pub fn barrier(&self) -> Label
        requires { ForSome (own_level self.now) (λ own. own.barrier < 2 ^ 32 - 1) }
        ensures levels { length result ≡ length self.now }
        ensures raised { (above : List ModelTriple) (own : ModelTriple) → self.now ≡ above ++ own ∷ []
            → result ≡ above ++ record own { barrier = own.barrier + 1 } ∷ [] }
    {
        let mut label = self.copy();
        if let Some(mut own) = label.triples.pop() {
            own.barrier += 1;
            label.triples.push(own);
        }
        label
    }

    /// Whether all that this label stands for is ordered before all that the other stands for.
    pub fn before(&self, other: &Label) -> bool
        ensures { IsTrue result ↔ IsLabelBefore self.now other.now }
    {
        precedes(self.triples(), other.triples())
    }

    /// Whether the labels differ and neither is before the other.
    pub fn concurrent(&self, other: &Label) -> bool
        ensures { IsTrue result ↔ IsConcurrent self.now other.now }
    {
        if self.is_same(other) || self.before(other) {
            return false;
        }
        !other.before(self)
    }

    fn is_same(&self, other: &Label) -> bool
        ensures { IsTrue result ↔ (self.now ≡ other.now) }
    {
        self.triples() == other.triples()
    }
}

fn precedes(x: &[Triple], y: &[Triple]) -> bool
    requires { All HasSpan x.now }
    ensures { IsTrue result ↔ IsLabelBefore x.now y.now }
{
    let Some((b, ys)) = y.split_first() else {
        return false;
    };
    let Some((a, xs)) = x.split_first() else {
        return true;
    };
    if a == b {
        precedes(xs, ys)
    } else {
        is_before(a, b)
    }
}
