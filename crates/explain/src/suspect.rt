//! A barrier interval in which a record may race with another.
ghost use Rattle.std.specs.Prelude.{◌≡◌, ◌<◌, All, ℕ, Some, IsTrue, IfOk, IfSome};
ghost use Rattle.pair_compare.specs.Compare.{IsRacingPair};
ghost use Rattle.pair_compare.specs.Conflict.{line_pair};

use crate::stretch::RecordRange;
use interval_tree::{Steps, Tree};
use log_segment::Segment;
use segment_groups::compare;
use std::alloc::Global;
use std::collections::BTreeSet;
use std::marker::{Brand, Model};
use std::sync::ledger::{Blank, Ledger};
use stride_summary::Run;
use sw_base::Memory;

/// The line of the runs, where they are all of one line.
pub fn line_of(runs: &[Run]) -> Option<u32>
    ensures { IfSome result (λ line. All (λ run. run.line ≡ line) runs.now) }
{
    let line = runs.first()?.line;
    for run in runs {
        if run.line != line {
            return None;
        }
    }
    Some(line)
}

/// Whether accesses of these lines may be of this line pair. Where no line is told, it may be any.
fn may_pair(one: Option<u32>, other: Option<u32>, lines: (u32, u32)) -> bool
    ensures { (line beside : ℕ) → IfSome one (λ n. line ≡ n) → IfSome other (λ n. beside ≡ n) → lines ≡ line_pair line beside → IsTrue result }
{
    match (one, other) {
        (Some(line), Some(beside)) => lines == (line.min(beside), line.max(beside)),
        _ => true,
    }
}

/// A barrier interval, the tree of its runs, and the line of all of them, where there is one. Contracts see the interval.
#[derive(Drop)]
pub struct Suspect<'s> {
    segment: &'s Segment,
    tree: Tree<'s>,
    line: Option<u32>,
}

impl<'s> Model for Suspect<'s> {
    ghost use Rattle.std.specs.Prelude.{◌≡◌, All, IfSome};
    ghost use Rattle.interval_tree.specs.Order.{IsInOrder};
    ghost use Rattle.log_segment.specs.declared.segment.Segment.{Segment};

    ghost Value = { Segment };

    ghost view = { λ s. s.segment.now };

    ghost invariant = { λ s. IsInOrder s.segment.now.runs.items s.tree × IfSome s.line (λ line. All (λ run. run.line ≡ line) s.segment.now.runs.items) };
}

impl<'s> Suspect<'s> {
    /// The interval with the tree of its runs.
    pub fn build(alloc: Global, segment: &'s Segment) -> Result<Suspect<'s>, Memory>
        ensures { IfOk result (λ suspect. suspect ≡ segment.now) }
    {
        let tree = Tree::build(alloc, &segment.runs)?;
        let line = line_of(&segment.runs);
        Ok(Suspect {
            segment,
            tree,
            line,
        })
    }

    /// The interval.
    pub fn segment(&self) -> &'s Segment
        ensures { result.now ≡ self.now }
    {
        self.segment
    }

    /// The line of all its accesses, where there is one.
    pub fn line(&self) -> Option<u32>
        ensures { IfSome result (λ line. All (λ run. run.line ≡ line) self.now.runs.items) }
    {
        self.line
    }

    /// The records of the interval.
    pub fn stretch(&self) -> RecordRange
        ensures path { result.path ≡ self.now.path }
        ensures first { result.first ≡ self.now.first }
        ensures last { result.last ≡ self.now.last }
    {
        RecordRange {
            path: self.segment.path.copy(),
            first: self.segment.first,
            last: self.segment.last,
        }
    }

    // Counts steps that nobody asks for.
    fn has_race_counted<L: Ledger>(
        &self,
        alloc: Global,
        other: &Segment,
        lines: (u32, u32),
        blank: Blank,
    ) -> Result<bool, Memory>
        requires name { blank.name ≡ L.name }
        requires parts { blank.parts ≡ L.parts }
        requires some { 0 < blank.parts }
        ensures { IfOk result (λ yes. IsRacingPair other.now self.now lines → IsTrue yes) }
    {
        let mut pairs = BTreeSet::new(alloc);
        let mut steps = Steps::<L>::new(blank);
        compare(
            alloc,
            other,
            self.segment,
            &self.tree,
            &mut pairs,
            &mut steps,
        )?;
        Ok(pairs.contains(&lines))
    }

    /// Whether an access of another interval races in these lines with one of this. All accesses of the other are of the line that is told.
    pub fn has_race(
        &self,
        alloc: Global,
        other: &Segment,
        line: Option<u32>,
        lines: (u32, u32),
    ) -> Result<bool, Memory>
        requires { IfSome line (λ n. All (λ run. run.line ≡ n) other.now.runs.items) }
        ensures { IfOk result (λ yes. IsRacingPair other.now self.now lines → IsTrue yes) }
    {
        if !may_pair(line, self.line, lines) {
            return Ok(false);
        }
        self.has_race_counted::<Brand>(alloc, other, lines, Blank::new(1))
    }
}
