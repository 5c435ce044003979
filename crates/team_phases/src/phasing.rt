//! The phases of a team.
ghost use Rattle.std.specs.Prelude.{◌≡◌, ◌++◌, ◌≤◌, ◌<◌, ◌+◌, ◌^◌, [], ◌∷◌, All, IfOk, OnOk, map, length};
ghost use Rattle.kernel_syntax.specs.Program.{team_of};
ghost use Rattle.kernel_model.specs.State.{State};
ghost use Rattle.kernel_model.specs.Value.{Site};
ghost use Rattle.kernel_model.specs.Trace.{run};
ghost use Rattle.kernel_model.specs.Lawful.{IsEven};
ghost use Rattle.std.specs.Prelude.{List};
ghost use Rattle.kernel_model.specs.Parts.{Part, Set, Bar, parts_of, run_parts, is_drawn_schedule, is_drawn, drawn_count};
ghost use Rattle.kernel_model.specs.Phases.{ArePhases, part_of_stmt, items_in, parts_in, AreDivided, HaveNumbers, MeetsOnlyAtBars};
ghost use Rattle.team_phases.specs.Pieces.{part_of_piece, IsPhasing};

use crate::unrolling::{Piece, add_body};
use kernel_model::{Item, Phase};
use kernel_syntax::{Schedule, Stmt, Team};
use std::alloc::Global;
use std::mem;
use sw_base::Memory;

// The phases that have ended, the items of the one that goes on, and how many loops whose chunks are
// drawn stand in them.
#[derive(Drop)]
pub(crate) struct Phasing<'k> {
    pub(crate) ended: Vec<Phase<'k>>,
    pub(crate) items: Vec<Item<'k>>,
    pub(crate) drawn: u32,
}

// Whether chunks are drawn.
fn is_dynamic(schedule: Schedule) -> bool
    ensures { result ≡ is_drawn_schedule schedule }
{
    match schedule {
        Schedule::Dynamic(_) => true,
        Schedule::Even | Schedule::Static(_) => false,
    }
}

/// Whether the statement is a worksharing loop whose chunks are drawn.
pub fn is_drawing(stmt: &Stmt) -> bool
    ensures { result ≡ is_drawn (part_of_stmt stmt.now) }
{
    match stmt {
        Stmt::For { schedule, .. } => is_dynamic(*schedule),
        _ => false,
    }
}

impl<'k> Phasing<'k> {
    // Nothing yet.
    fn new(alloc: Global) -> Self
        ensures { IsPhasing [] result }
    {
        Phasing {
            ended: Vec::new(alloc),
            items: Vec::new(alloc),
            drawn: 0,
        }
    }

    // A variable gets its value.
    fn set(&mut self, slot: u32, value: i64) -> Result<(), Memory>
        ensures { (parts : List Part) → IsPhasing parts self.old → OnOk result (IsPhasing (parts ++ Set slot value ∷ []) self.new) }
    {
        self.items.push(Item::Set { slot, value })?;
        Ok(())
    }

    // A statement runs.
    fn run(&mut self, stmt: &'k Stmt) -> Result<(), Memory>
        ensures { (parts : List Part) → IsPhasing parts self.old → OnOk result (IsPhasing (parts ++ part_of_stmt stmt.now ∷ []) self.new) }
    {
        let which = self.drawn;
        self.items.push(Item::Run { stmt, which })?;
        if is_drawing(stmt) {
            let Some(next) = which.checked_add(1) else {
                return Err(Memory);
            };
            self.drawn = next;
        }
        Ok(())
    }

    // The lanes meet, and a phase ends.
    fn bar(&mut self, alloc: Global, line: u32) -> Result<(), Memory>
        ensures { (parts : List Part) → IsPhasing parts self.old → OnOk result (IsPhasing (parts ++ Bar line ∷ []) self.new) }
    {
        self.items.push(Item::Bar { line })?;
        let items = mem::replace(&mut self.items, Vec::new(alloc));
        self.ended.push(Phase::new(items))?;
        Ok(())
    }

    // Adds a part.
    fn add(&mut self, alloc: Global, piece: Piece<'k>) -> Result<(), Memory>
        ensures { (parts : List Part) → IsPhasing parts self.old → OnOk result (IsPhasing (parts ++ part_of_piece piece.entry ∷ []) self.new) }
    {
        match piece {
            Piece::Set { slot, value } => self.set(slot, value),
            Piece::Run { stmt } => self.run(stmt),
            Piece::Bar { line } => self.bar(alloc, line),
        }
    }

    // The last phase ends.
    fn finish(self) -> Result<Vec<Phase<'k>>, Memory>
        ensures { (parts : List Part) → IsPhasing parts self.entry → IfOk result (λ phases. ArePhases parts phases.items) }
    {
        let mut phases = self.ended;
        phases.push(Phase::new(self.items))?;
        Ok(phases)
    }
}

// The phases of parts.
fn divide<'k>(alloc: Global, pieces: &[Piece<'k>]) -> Result<Vec<Phase<'k>>, Memory>
    ensures { IfOk result (λ phases. ArePhases (map part_of_piece pieces.now) phases.items) }
{
    let mut phasing = Phasing::new(alloc);
    for piece in pieces {
        phasing.add(alloc, *piece)?;
    }
    phasing.finish()
}

/// The phases of a team: what each of its lanes executes, divided after each barrier. Loops that hold a
/// barrier or a worksharing loop of the same region are unrolled; each other statement is one item. With
/// more than 2^32 - 1 loops whose chunks are drawn it is out of memory, too; no lawful kernel has so many.
pub fn phases<'k>(alloc: Global, team: &'k Team) -> Result<Vec<Phase<'k>>, Memory>
    ensures parts { IfOk result (λ phases. parts_in phases.items ≡ parts_of (team_of team.now).body) }
    ensures runs { IfOk result (λ phases. (at : Site) (s : State) → run_parts at (parts_in phases.items) s ≡ run at (team_of team.now).body s) }
    ensures barriers { IsEven (team_of team.now).body → IfOk result (λ phases. All MeetsOnlyAtBars (parts_in phases.items)) }
    ensures divided { IfOk result (λ phases. AreDivided phases.items) }
    ensures numbered { IfOk result (λ phases. HaveNumbers (items_in phases.items)) }
{
    let mut pieces = Vec::new(alloc);
    add_body(alloc, &team.body, &mut pieces)?;
    divide(alloc, pieces.as_slice())
}
