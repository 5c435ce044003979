//! The calls by which parcels go and come back.
ghost use Rattle.std.specs.Prelude.{◌≡◌, ◌<◌, ◌≤◌, ℕ, [], ◌∷◌, true, false, length, replicate, slice_index_or, vec_len, None, Some, IfOk, IfSome, IfNone};
ghost use Rattle.atomic_table.specs.Seated.{TableId};
ghost use Rattle.hand_over.specs.Handles.{LanePlaceValue, new_place, with_turn};
ghost use Rattle.hand_over.specs.Views.{emptying_lane, first_view, idle_view, turn_at, with_lane};
ghost use Rattle.hand_over.specs.declared.view.Turn.TheVariants.{Closed, Idle, Out};

use crate::desk::Desk;
use crate::parcel::Parcel;
use crate::place::LanePlace;
use crate::plays::{Adds, Ends, Frees, Looks, Opens, Returns, Sends, Takes};
use crate::turns::{Lanes, Token};
use atomic_table::Table;
use std::alloc::Global;
use std::marker::Model;
use std::sync::Wait;
use std::thread;
use sw_base::Memory;

/// The word of a lane: it is the desk's turn, a parcel was sent, or the lane is closed.
const FREE: u64 = 0;

const SENT: u64 = 1;

const CLOSED: u64 = 2;

/// How often a thread that waits lets others run before it sleeps.
const YIELDS: u32 = 4;

/// Lanes on which parcels go and come back.
#[derive(Drop)]
pub struct Parcels<P: Parcel> {
    table: Lanes<P>,
}

impl<P: Parcel> Model for Parcels<P> {
    ghost Value = { TableId };

    ghost view = { λ p. p.table.shared.table_id };
}

// A table of so many lanes whose turns are the desk's, and the desk's seat. No place is made.
fn laid<P: Parcel>(
    alloc: Global,
    lanes: usize,
    about: &P::About,
) -> Result<(Parcels<P>, Token<P>), Memory>
    ensures counts { IfOk result (λ r. (r.0.words ≡ lanes) × (r.0.slots ≡ lanes)) }
    ensures seat { IfOk result (λ r. (r.1.table_id ≡ r.0) × (r.1.me ≡ (first_view about.now, []))) }
{
    let mut words = Vec::new(alloc);
    words.resize(lanes, FREE)?;
    let (table, token) = Table::vacant(alloc, &words, lanes, about)?;
    Ok((Parcels { table }, token))
}

impl<P: Parcel> Parcels<P> {
    /// So many lanes, 1 to 64. Each turn is the desk's, and no parcel is out.
    pub fn new(
        alloc: Global,
        lanes: usize,
        about: &P::About,
    ) -> Result<(Parcels<P>, Desk<P>, Vec<LanePlace<P>>), Memory>
        requires { (1 ≤ lanes) × (lanes ≤ 64) }
        ensures table { IfOk result (λ r. r.1.table ≡ r.0) }
        ensures about { IfOk result (λ r. r.1.about ≡ about.now) }
        ensures turns { IfOk result (λ r. r.1.turns ≡ replicate lanes Idle) }
        ensures count { IfOk result (λ r. vec_len r.2 ≡ lanes) }
        ensures places { IfOk result (λ r. (lane : ℕ) (d : LanePlaceValue P.About P) → lane < lanes → slice_index_or r.2.items lane d ≡ new_place r.0 about.now lane) }
    {
        let (parcels, mut token) = laid(alloc, lanes, about)?;
        let places = parcels.places(alloc, &mut token, lanes)?;
        Ok((parcels, Desk { token }, places))
    }

    // The places of so many lanes, which are all.
    fn places(
        &self,
        alloc: Global,
        token: &mut Token<P>,
        lanes: usize,
    ) -> Result<Vec<LanePlace<P>>, Memory>
        requires table { token.old.table_id ≡ self.now }
        requires all { (self.now.words ≡ lanes) × (self.now.slots ≡ lanes) }
        requires fresh { token.old.me ≡ (first_view token.old.me.0.about, []) }
        ensures table { token.new.table_id ≡ token.old.table_id }
        ensures desk { IfOk result (λ places. token.new.me ≡ (idle_view token.old.me.0.about lanes, [])) }
        ensures count { IfOk result (λ places. vec_len places ≡ lanes) }
        ensures places { IfOk result (λ places. (lane : ℕ) (d : LanePlaceValue P.About P) → lane < lanes → slice_index_or places.items lane d ≡ new_place self.now token.old.me.0.about lane) }
    {
        let mut places = Vec::new(alloc);
        for lane in 0..lanes {
            places.push(self.place(token, lane))?;
        }
        Ok(places)
    }

    // The place of the desk's next lane.
    fn place(&self, token: &mut Token<P>, lane: usize) -> LanePlace<P>
        requires table { token.old.table_id ≡ self.now }
        requires square { self.now.slots ≡ self.now.words }
        requires desk { token.old.me.0.is_desk ≡ true }
        requires next { lane ≡ length token.old.me.0.turns }
        requires inside { lane < self.now.words }
        ensures table { token.new.table_id ≡ token.old.table_id }
        ensures desk { token.new.me ≡ (with_lane token.old.me.0, token.old.me.1) }
        ensures place { result ≡ new_place self.now token.old.me.0.about lane }
    {
        let token = self.table.shared.split_seat::<Adds>(token);
        LanePlace { token, lane }
    }

    // Lets others run until the word has changed, or for a while.
    fn wait<R: Wait>(&self, rt: &R, lane: usize, found: u32)
        requires { lane < self.now.words }
    {
        let shared = &self.table.shared;
        for _ in 0..YIELDS {
            if shared.peek(lane) != u64::from(found) {
                return;
            }
            thread::yield_now();
        }
        shared.park(rt, lane, found);
    }

    /// Sends the lane a parcel.
    pub fn send(&self, desk: &mut Desk<P>, lane: usize, parcel: P)
        requires table { desk.old.table ≡ self.now }
        requires idle { turn_at desk.old.turns lane ≡ Idle }
        requires fits { P.fits desk.old.about parcel }
        ensures { desk.new ≡ with_turn desk.old lane (Out parcel) }
    {
        let shared = &self.table.shared;
        shared.load::<Opens>(&mut desk.token, lane);
        shared.exchange(&mut desk.token, lane, Some(parcel));
        shared.store::<Sends>(&mut desk.token, lane, SENT);
        shared.wake_one(lane);
    }

    // Waits for the lane's parcel, and takes it out of its slot.
    fn taken<R: Wait>(&self, rt: &R, token: &mut Token<P>, lane: usize) -> Option<P>
        requires table { token.old.table_id ≡ self.now }
        requires square { self.now.slots ≡ self.now.words }
        requires inside { lane < self.now.words }
        requires place { (token.old.me.0.is_desk ≡ false) × (token.old.me.0.lane ≡ lane) }
        requires none { (token.old.me.0.took ≡ None) × (token.old.me.1 ≡ []) }
        ensures table { token.new.table_id ≡ token.old.table_id }
        ensures some { IfSome result (λ parcel. token.new.me ≡ (record token.old.me.0 { took = Some parcel }, (lane, None) ∷ [])) }
        ensures fits { IfSome result (λ parcel. P.fits token.old.me.0.about parcel) }
        ensures closed { IfNone result (token.new.me ≡ (record token.old.me.0 { closed = true }, [])) }
    {
        let shared = &self.table.shared;
        for _ in rt.forever() {
            let found = shared.load::<Takes<P>>(token, lane);
            if found == SENT {
                return shared.exchange(token, lane, None);
            }
            if found == CLOSED {
                return None;
            }
            self.wait(rt, lane, 0);
        }
        unreachable!()
    }

    /// Waits for the lane's parcel. There is none exactly where the lane is closed.
    pub fn take<R: Wait>(&self, rt: &R, place: &mut LanePlace<P>) -> Option<P>
        requires table { place.old.table ≡ self.now }
        requires none { place.old.took ≡ None }
        ensures some { IfSome result (λ parcel. place.new ≡ record place.old { took = Some parcel }) }
        ensures fits { IfSome result (λ parcel. P.fits place.old.about parcel) }
        ensures closed { IfNone result (place.new ≡ record place.old { closed = true }) }
    {
        let lane = place.lane;
        self.taken(rt, &mut place.token, lane)
    }

    /// Gives back a parcel that follows the one which the place took.
    pub fn give_back(&self, place: &mut LanePlace<P>, parcel: P)
        requires table { place.old.table ≡ self.now }
        requires follows { (sent : P) × (place.old.took ≡ Some sent) × P.follows place.old.about sent parcel }
        ensures { place.new ≡ record place.old { took = None } }
    {
        let shared = &self.table.shared;
        let lane = place.lane;
        shared.exchange(&mut place.token, lane, Some(parcel));
        shared.store::<Returns>(&mut place.token, lane, FREE);
        shared.wake_one(lane);
    }

    // Waits until the lane's parcel is back, and takes it out of its slot.
    fn collected<R: Wait>(&self, rt: &R, token: &mut Token<P>, lane: usize) -> P
        requires table { token.old.table_id ≡ self.now }
        requires square { self.now.slots ≡ self.now.words }
        requires inside { lane < self.now.words }
        requires desk { (token.old.me.0.is_desk ≡ true) × (token.old.me.0.opened ≡ None) × (token.old.me.1 ≡ []) }
        requires out { (sent : P) × (turn_at token.old.me.0.turns lane ≡ Out sent) }
        ensures table { token.new.table_id ≡ token.old.table_id }
        ensures desk { token.new.me ≡ (emptying_lane token.old.me.0 lane, (lane, None) ∷ []) }
        ensures follows { (sent : P) → turn_at token.old.me.0.turns lane ≡ Out sent → P.follows token.old.me.0.about sent result }
    {
        let shared = &self.table.shared;
        for _ in rt.forever() {
            let found = shared.load::<Looks<P>>(token, lane);
            if found == FREE {
                return shared.exchange(token, lane, None).unwrap();
            }
            self.wait(rt, lane, 1);
        }
        unreachable!()
    }

    /// Waits until the lane's parcel is back: it follows the one that was sent.
    pub fn collect<R: Wait>(&self, rt: &R, desk: &mut Desk<P>, lane: usize) -> P
        requires table { desk.old.table ≡ self.now }
        requires out { (sent : P) × (turn_at desk.old.turns lane ≡ Out sent) }
        ensures follows { (sent : P) → turn_at desk.old.turns lane ≡ Out sent → P.follows desk.old.about sent result }
        ensures idle { desk.new ≡ with_turn desk.old lane Idle }
    {
        let parcel = self.collected(rt, &mut desk.token, lane);
        self.table.shared.load::<Frees>(&mut desk.token, lane);
        parcel
    }

    /// Closes the lane.
    pub fn close(&self, desk: &mut Desk<P>, lane: usize)
        requires table { desk.old.table ≡ self.now }
        requires idle { turn_at desk.old.turns lane ≡ Idle }
        ensures { desk.new ≡ with_turn desk.old lane Closed }
    {
        let shared = &self.table.shared;
        shared.store::<Ends>(&mut desk.token, lane, CLOSED);
        shared.wake_one(lane);
    }
}
