//! The logs of a team's lanes, opened.
ghost use Rattle.std.specs.Prelude.{◌≡◌, ◌<◌, ◌≤◌, ℕ, [], true, false, length, map, is_some, IfSome, IfOk, None, Some, Ok, slice_index_or};
ghost use Rattle.sw_base.specs.Environment.{WhereTold, empty_text};
ghost use Rattle.event_buffer.specs.Buffered.{Buffered};
ghost use Rattle.race_model.specs.Listing.{lane_of};
ghost use Rattle.shared_words.specs.Draws.{whole_share};
ghost use Rattle.shared_words.specs.Handles.{Belongs};
ghost use Rattle.lane_runner.specs.Handed.{entry_of, log_place};
ghost use Rattle.lane_runner.specs.Children.{AreNewLogs};
ghost use Rattle.lane_runner.specs.Lane.{IsLanePath};
ghost use Rattle.region_runner.specs.Answer.{IsBufferSize};
ghost use Rattle.region_runner.specs.Ground.{AreLanesLogs};
ghost use Rattle.region_runner.specs.Opening.{AllOpen, ClosesAs, OneTorn, OpensAs, OpensTeam, lent_hand, lent_to};

use crate::closing::{Closed, close};
use crate::ground::Ground;
use event_buffer::Buffer;
use lane_runner::{Lane, Locals, Track};
use shared_words::{ChunkHand, Chunks, Hand};
use std::alloc::{AllocError, Global};
use std::sync::Wait;
use std::thread::Threads;
use sw_base::{ClosedLog, Log, Path, Trouble};
use team_live::LiveGate;

// The lanes of a team, which begin; or what they gave, where the log of one refused; or nothing, where no memory was found for them.
#[derive(Drop)]
pub(crate) enum Opened<L: Log> {
    Team(Vec<Lane<L>>),
    Torn(Vec<Closed<L>>),
    Nothing,
}

// A lane whose log could not be opened.
fn torn<L: Log>(alloc: Global, path: Path, log: L, draws: ChunkHand, trouble: Trouble) -> Closed<L>
    ensures { result ≡ record {
      path = path;
      own = entry_of L.Log (record { path = path; log = log; records = 0 });
      below = [];
      halt = None;
      refused = Some trouble;
      draws = draws;
    } }
{
    Closed {
        own: ClosedLog {
            path,
            log,
            records: 0,
        },
        below: Vec::new(alloc),
        draws,
        stopped: None,
        refused: Some(trouble),
    }
}

// For how many locals a lane's copy has room, at least. Shorter ones lie side by side, and lanes that write to one cache line wait for each other.
const ROOM: usize = 16;

// A lane's copy of the locals.
fn copied(alloc: Global, slots: &Vec<i64>) -> Result<Vec<i64>, AllocError>
    ensures { IfOk result (λ copy. copy.items ≡ slots.now.items) }
{
    let mut copy = Vec::with_capacity(alloc, slots.len().max(ROOM))?;
    copy.extend_from_slice(slots)?;
    Ok(copy)
}

// Opens the log of a lane with these locals.
pub(crate) fn open_lane<R: Threads, L: Log>(
    rt: &R,
    alloc: Global,
    size: usize,
    path: Path,
    locals: &Locals,
    draws: ChunkHand,
    log: L,
) -> Result<Lane<L>, Closed<L>>
    requires size { IsBufferSize size }
    requires lane { IsLanePath path }
    requires path { L.path log ≡ path }
    requires empty { WhereTold (L.text log) (λ text. text ≡ empty_text) }
    requires no_faults { L.faults log ≡ 0 }
    ensures opens { OpensAs (record { dir = L.dir log; size = size; tells = is_some (L.text log) }) path locals.now.slots.items draws result }
{
    let Ok(slots) = copied(alloc, &locals.slots) else {
        return Err(torn(alloc, path, log, draws, Trouble::Memory));
    };
    match Buffer::start(rt, alloc, log, size) {
        Ok(buffer) => {
            let track = Track::new(alloc, Hand::blank(), buffer, draws);
            let locals = Locals { slots };
            Ok(Lane::new(path, locals, track))
        }
        Err((trouble, log)) => Err(torn(alloc, path, log, draws, trouble)),
    }
}

// Opens the logs of all lanes of the region of this number.
fn open_all<R: Threads, L: Log, G: LiveGate>(
    rt: &R,
    alloc: Global,
    ground: &Ground<'_, G>,
    at: &Path,
    number: u32,
    span: u16,
    locals: &Locals,
    chunks: &Chunks,
    share: &mut ChunkHand,
    logs: Vec<L>,
) -> Option<Vec<Result<Lane<L>, Closed<L>>>>
    requires depth { length at.now < 4 }
    requires span { span ≤ 64 }
    requires share { Belongs share.old chunks.now.table }
    requires whole { share.old.view ≡ whole_share }
    requires logs { AreLanesLogs ground.now L.Log at.now number span logs.items }
    ensures count { IfSome result (λ opened. length opened.items ≡ span) }
    ensures share { IfSome result (λ opened. share.new ≡ lent_to span share.old) }
    ensures opens { (task : Buffered) → task.path ≡ at.now → task.size ≡ ground.now.size
        → AreNewLogs L.Log task number span logs.items
        → IfSome result (λ opened. (k : ℕ) (d : _) → k < span → OpensAs (log_place task) (lane_of at.now number k span) locals.now.slots.items (lent_hand share.old) (slice_index_or opened.items k d)) }
{
    let mut opened = Vec::new(alloc);
    let mut lane = 0u16;
    for log in logs {
        let own = at.child(number, lane, span);
        let draws = chunks.split(share);
        opened
            .push(open_lane(rt, alloc, ground.size(), own, locals, draws, log))
            .ok()?;
        lane += 1;
    }
    Some(opened)
}

// Whether all logs were opened.
fn all_open<L: Log>(opened: &[Result<Lane<L>, Closed<L>>]) -> bool
    ensures all { result ≡ true → AllOpen opened.now }
    ensures some { result ≡ false → OneTorn opened.now }
{
    for lane in opened {
        if lane.is_err() {
            return false;
        }
    }
    true
}

// The lanes, all of whose logs were opened.
fn lanes_of<L: Log>(alloc: Global, opened: Vec<Result<Lane<L>, Closed<L>>>) -> Option<Vec<Lane<L>>>
    requires { AllOpen opened.items }
    ensures { IfSome result (λ lanes. opened.items ≡ map (λ m. Ok m) lanes.items) }
{
    let mut lanes = Vec::new(alloc);
    for lane in opened {
        let Ok(begun) = lane else { unreachable!() };
        lanes.push(begun).ok()?;
    }
    Some(lanes)
}

// What the lanes gave, none of which executed anything.
fn closed_of<R: Wait, L: Log>(
    rt: &R,
    alloc: Global,
    opened: Vec<Result<Lane<L>, Closed<L>>>,
) -> Option<Vec<Closed<L>>>
    ensures { IfSome result (λ lanes. (length lanes.items ≡ length opened.items)
        × ((k : ℕ) (d : _) (e : _) → k < length opened.items → ClosesAs (slice_index_or opened.items k d) (slice_index_or lanes.items k e))) }
{
    let mut lanes = Vec::new(alloc);
    for lane in opened {
        let lane = match lane {
            Ok(begun) => close(rt, alloc, begun),
            Err(torn) => torn,
        };
        lanes.push(lane).ok()?;
    }
    Some(lanes)
}

// Opens the logs of all lanes of the region of this number; where one refuses, closes the others.
pub(crate) fn open<R: Threads + Wait, L: Log, G: LiveGate>(
    rt: &R,
    alloc: Global,
    ground: &Ground<'_, G>,
    at: &Path,
    number: u32,
    span: u16,
    locals: &Locals,
    chunks: &Chunks,
    share: &mut ChunkHand,
    logs: Vec<L>,
) -> Opened<L>
    requires depth { length at.now < 4 }
    requires span { span ≤ 64 }
    requires share { Belongs share.old chunks.now.table }
    requires whole { share.old.view ≡ whole_share }
    requires logs { AreLanesLogs ground.now L.Log at.now number span logs.items }
    ensures opens { (task : Buffered) → task.path ≡ at.now → task.size ≡ ground.now.size
        → AreNewLogs L.Log task number span logs.items
        → OpensTeam (log_place task) at.now number span locals.now.slots.items share.old share.new result }
{
    let Some(opened) = open_all(
        rt, alloc, ground, at, number, span, locals, chunks, share, logs,
    ) else {
        return Opened::Nothing;
    };
    if all_open(&opened) {
        match lanes_of(alloc, opened) {
            Some(lanes) => Opened::Team(lanes),
            None => Opened::Nothing,
        }
    } else {
        match closed_of(rt, alloc, opened) {
            Some(lanes) => Opened::Torn(lanes),
            None => Opened::Nothing,
        }
    }
}
