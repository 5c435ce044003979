//! A region: its lanes on threads of their own, phase by phase.
ghost use Rattle.std.specs.Prelude.{◌≡◌, ◌+◌, ◌-◌, ◌<◌, ◌≤◌, ℕ, [], length, All, Some, slice_index_or};
ghost use contract.BorrowLft.{◌⊑◌};
ghost use Rattle.std.specs.Thread.{IsSend, IsSync};
ghost use Rattle.std.specs.Vec.{vec_capacity, vec_len};
ghost use Rattle.race_model.specs.Listing.{lane_of};
ghost use Rattle.event_buffer.specs.Buffered.{Buffered};
ghost use Rattle.kernel_syntax.specs.Program.{team_of};
ghost use Rattle.lane_runner.specs.Children.{AreNewLogs};
ghost use Rattle.lane_runner.specs.Forking.{IsReady, RanRegion};
ghost use Rattle.lane_runner.specs.Handed.{entries_of};
ghost use Rattle.lane_runner.specs.World.{WorldValue};
ghost use Rattle.region_runner.specs.Crew.{world_of};
ghost use Rattle.region_runner.specs.Ground.{AreLanesLogs, IsOurLane, IsOurPhase, IsOurTeam, crew_of};
ghost use Rattle.kernel_model.specs.Parts.{drawn_count};
ghost use Rattle.kernel_model.specs.Phases.{AreDivided, parts_in};
ghost use Rattle.shared_words.specs.Handles.{Belongs};
ghost use Rattle.lane_runner.specs.Lane.{CanGoOn};
ghost use Rattle.region_runner.specs.Hands.{IsLaneHand};
ghost use Rattle.region_runner.specs.LastPhase.{IsLast, WentOn};
ghost use Rattle.region_runner.specs.Meeting.{MeetsSo, PartsHands};
ghost use Rattle.region_runner.specs.Plan.{CanBegin, Did, IsPlan, MayDo, plan_of, team_of_plan};
ghost use Rattle.region_runner.specs.Stands.{IsFresh, TeamClosed, TeamRan};

use crate::closing::{Closed, close_all};
use crate::crew::Crew;
use crate::ending::put_end;
use crate::gathering::gather;
use crate::going::go_through;
use crate::ground::Ground;
use crate::handing::{meet_lanes, part_lanes};
use crate::loops::drawn_in;
use crate::opening::{Opened, open};
use kernel_model::Phase;
use kernel_syntax::Team;
use lane_runner::{Lane, Locals, Stop};
use shared_words::{Chunks, Hand};
use std::alloc::Global;
use std::marker::Send;
use std::mem;
use std::sync::Wait;
use std::thread::Threads;
use sw_base::{ClosedLog, Log, Path, Trouble};
use team_live::LiveGate;
use team_phases::phases;

// A task executes a phase, and puts its End, where a line is given for it; the regions that it forks are run in turn.
#[cycle(region)]
pub(crate) fn run_task<R: Threads + Wait + Sync + Copy + Send + 'static, L: Log, G: LiveGate>(
    rt: &R,
    alloc: Global,
    depth: u32,
    ground: &Ground<'_, G>,
    crew: &Crew<'_>,
    phase: &Phase<'_>,
    end: Option<u32>,
    index: usize,
    lane: &mut Lane<L>,
)
    requires crew { crew.now ≡ crew_of ground.now crew.now.chunks crew.now.span }
    requires number { crew.now.chunks.loops < 4294967296 }
    requires span { crew.now.span ≤ 64 }
    requires phase { IsOurPhase ground.now (4 - depth) phase.now }
    requires last { (line : ℕ) → end ≡ Some line → IsLast phase.now line }
    requires index { index < crew.now.span }
    requires can { CanGoOn (world_of crew.now index) phase.now lane.old }
    requires own { IsOurLane ground.now depth lane.old }
    ensures went { WentOn (world_of crew.now index) phase.now end lane.old lane.new }
{
    let path = lane.path();
    let world = crew.world(index as u16);
    // The lane notes why it doesn't go on, if it doesn't.
    let _ = lane.run_phase(
        phase,
        rt,
        alloc,
        &world,
        &|hand: &mut Hand, locals: &Locals, number: u32, logs: Vec<L>, team: &Team, done: &mut Vec<
            ClosedLog<L>,
        >| -> Result<(), (Path, Stop)>
            requires sync { IsSync R.row × IsSend R.row × IsSend L.row }
            requires lives { ([] ⊑ R.row.lives) × ([] ⊑ L.row.lives) }
            requires inner { 0 < depth }
            requires deep { length path + depth ≡ 4 }
            requires team { IsOurTeam ground.now (length path + 1) (team_of team.now) }
            requires ready { IsReady hand.old ground.now.words }
            requires logs { AreLanesLogs ground.now L.Log path number team.now.span logs.items }
            ensures ran { (w : WorldValue) (task : Buffered) → w.arrays ≡ ground.entry.now.arrays → task.path ≡ path → task.size ≡ ground.entry.now.size
                → AreNewLogs L.Log task number team.now.span logs.items
                → RanRegion w (team_of team.now) locals.now.slots.items task number hand.old hand.new
                (entries_of L.Log done.old.items) (entries_of L.Log done.new.items) result }
        {
            region(
                rt,
                alloc,
                depth - 1,
                ground,
                &path,
                hand,
                locals,
                number,
                logs,
                team,
                done,
            )
        },
    );
    put_end(rt, alloc, end, lane);
}

// A lane of a team does its part of the phase of this number.
#[cycle(region)]
fn run_part<R: Threads + Wait + Sync + Copy + Send + 'static, L: Log, G: LiveGate>(
    rt: &R,
    alloc: Global,
    depth: u32,
    ground: &Ground<'_, G>,
    crew: &Crew<'_>,
    phases: &[Phase<'_>],
    end: u32,
    number: usize,
    index: usize,
    lane: &mut Lane<L>,
)
    requires plan { IsPlan (plan_of ground.now depth crew.now phases.now end) }
    requires may { MayDo (plan_of ground.now depth crew.now phases.now end) number index lane.old }
    ensures did { Did (plan_of ground.now depth crew.now phases.now end) number index lane.old lane.new }
{
    ground.enter(index);
    let line = if number + 1 == phases.len() {
        Some(end)
    } else {
        None
    };
    run_task(
        rt,
        alloc,
        depth,
        ground,
        crew,
        &phases[number],
        line,
        index,
        lane,
    );
}

// The lanes of a team execute its phases, until a lane doesn't go on. After the last phase each that does puts its End.
#[cycle(region)]
fn run_phases<R: Threads + Wait + Sync + Copy + Send + 'static, L: Log, G: LiveGate>(
    rt: &R,
    alloc: Global,
    depth: u32,
    ground: &Ground<'_, G>,
    crew: &Crew<'_>,
    phases: &[Phase<'_>],
    end: u32,
    hand: &mut Hand,
    lanes: Vec<Lane<L>>,
) -> Vec<Lane<L>>
    requires shared { IsSync R.row }
    requires sent { IsSend R.row }
    requires lanes_sent { IsSend L.row }
    requires gate_shared { IsSync G.row }
    requires lives { ([] ⊑ R.row.lives) × ([] ⊑ L.row.lives) }
    requires begin { CanBegin (team_of_plan (plan_of ground.now depth crew.now phases.now end) hand.old lanes.items) }
    ensures ran { TeamRan crew.now phases.now end hand.old hand.new lanes.items result.items }
{
    let own = mem::replace(hand, Hand::blank());
    let (home, after) = go_through(
        rt,
        alloc,
        depth,
        &*ground,
        &*crew,
        &*phases,
        end,
        own,
        lanes,
        &|number: usize, index: usize, lane: &mut Lane<L>|
            requires sync { IsSync R.row × IsSend R.row × IsSend L.row }
            requires lives { ([] ⊑ R.row.lives) × ([] ⊑ L.row.lives) }
            requires plan { IsPlan (plan_of ground.now depth crew.now phases.now end) }
            requires may { MayDo (plan_of ground.now depth crew.now phases.now end) number index lane.old }
            ensures did { Did (plan_of ground.entry.now depth crew.entry.now phases.entry.now end) number index lane.old lane.new }
        {
            run_part(
                rt, alloc, depth, ground, crew, phases, end, number, index, lane,
            )
        },
        &|hand: &mut Hand, lanes: &mut Vec<Lane<L>>|
            requires lives { [] ⊑ L.row.lives }
            requires belongs { Belongs hand.old ground.now.words.table }
            requires count { length lanes.old.items ≡ crew.now.span }
            ensures parts { PartsHands crew.entry.now.span hand.old hand.new lanes.old.items lanes.new.items }
        { part_lanes(ground.words(), hand, lanes, crew.span()) },
        &|hand: &mut Hand, lanes: &mut Vec<Lane<L>>| -> bool
            requires lives { [] ⊑ L.row.lives }
            requires belongs { Belongs hand.old ground.now.words.table }
            requires home { (k : ℕ) (d : _) → k < length lanes.old.items → IsLaneHand ground.now.words.table hand.old.view.name (slice_index_or lanes.old.items k d).hand }
            ensures meets { MeetsSo result hand.old hand.new lanes.old.items lanes.new.items }
        { meet_lanes(ground.words(), hand, lanes) },
    );
    *hand = home;
    after
}

// The lanes of a team execute its phases, and their logs are closed.
#[cycle(region)]
fn run_team<R: Threads + Wait + Sync + Copy + Send + 'static, L: Log, G: LiveGate>(
    rt: &R,
    alloc: Global,
    depth: u32,
    ground: &Ground<'_, G>,
    crew: &Crew<'_>,
    phases: &[Phase<'_>],
    end: u32,
    hand: &mut Hand,
    lanes: Vec<Lane<L>>,
    room: Vec<Closed<L>>,
) -> Vec<Closed<L>>
    requires crew { crew.now ≡ crew_of ground.now crew.now.chunks crew.now.span }
    requires number { crew.now.chunks.loops < 4294967296 }
    requires span { crew.now.span ≤ 64 }
    requires lawful { All (IsOurPhase ground.now (4 - depth)) phases.now }
    requires divided { AreDivided phases.now }
    requires counters { drawn_count (parts_in phases.now) ≤ crew.now.chunks.loops }
    requires end { 1 ≤ end }
    requires count { length lanes.items ≡ crew.now.span }
    requires some { 1 ≤ crew.now.span }
    requires belongs { Belongs hand.old ground.now.words.table }
    requires none_out { hand.old.view.out ≡ [] }
    requires fresh { (i : ℕ) (d : _) → i < length lanes.items → IsFresh crew.now (slice_index_or lanes.items i d) }
    requires own { (i : ℕ) (d : _) → i < length lanes.items → IsOurLane ground.now depth (slice_index_or lanes.items i d) }
    requires empty { room.items ≡ [] }
    requires none { vec_len room ≡ 0 }
    requires room { crew.now.span ≤ vec_capacity room }
    ensures closed { TeamClosed crew.now phases.now end hand.old hand.new lanes.items result.items }
{
    let after = run_phases(rt, alloc, depth, ground, crew, phases, end, hand, lanes);
    close_all(rt, alloc, after, room)
}

// What a region answers for which no memory was found: the first of its lanes is named.
fn no_memory(path: &Path, number: u32, span: u16) -> (Path, Stop)
    requires { length path.now < 4 }
    ensures { result ≡ (lane_of path.now number 0 span, Stop.Trouble Trouble.Memory) }
{
    (path.child(number, 0, span), Stop::Trouble(Trouble::Memory))
}

// Runs the region of this number of the task at this path, from these locals.
#[cycle(region)]
pub(crate) fn region<R: Threads + Wait + Sync + Copy + Send + 'static, L: Log, G: LiveGate>(
    rt: &R,
    alloc: Global,
    depth: u32,
    ground: &Ground<'_, G>,
    path: &Path,
    hand: &mut Hand,
    locals: &Locals,
    number: u32,
    logs: Vec<L>,
    team: &Team,
    done: &mut Vec<ClosedLog<L>>,
) -> Result<(), (Path, Stop)>
    requires deep { length path.now + depth + 1 ≡ 4 }
    requires team { IsOurTeam ground.now (length path.now + 1) (team_of team.now) }
    requires ready { IsReady hand.old ground.now.words }
    requires logs { AreLanesLogs ground.now L.Log path.now number team.now.span logs.items }
    ensures ran { (w : WorldValue) (task : Buffered) → w.arrays ≡ ground.now.arrays → task.path ≡ path.now → task.size ≡ ground.now.size
        → AreNewLogs L.Log task number team.now.span logs.items
        → RanRegion w (team_of team.now) locals.now.slots.items task number hand.old hand.new
        (entries_of L.Log done.old.items) (entries_of L.Log done.new.items) result }
{
    let (Ok(phases), Ok(room)) = (
        phases(alloc, team),
        Vec::with_capacity(alloc, usize::from(team.span)),
    ) else {
        return Err(no_memory(path, number, team.span));
    };
    let Some(loops) = drawn_in(&phases) else {
        return Err(no_memory(path, number, team.span));
    };
    let Ok((chunks, mut share)) = Chunks::new(alloc, loops as usize) else {
        return Err(no_memory(path, number, team.span));
    };
    let lanes = match open(
        rt, alloc, ground, path, number, team.span, locals, &chunks, &mut share, logs,
    ) {
        Opened::Team(lanes) => {
            let crew = (&*ground).crew(&chunks, team.span);
            run_team(
                rt, alloc, depth, ground, &crew, &phases, team.end, hand, lanes, room,
            )
        }
        Opened::Torn(lanes) => lanes,
        Opened::Nothing => return Err(no_memory(path, number, team.span)),
    };
    gather(&chunks, &mut share, lanes, done)
}
