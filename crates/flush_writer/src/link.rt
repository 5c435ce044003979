//! A writer's thread, and the way to it.
ghost use Rattle.std.specs.Prelude.{◌≡◌, [], None, IfOk, IfSome};
ghost use contract.BorrowLft.{◌⊑◌};
ghost use Rattle.std.specs.Arc.{arc_value};
ghost use Rattle.std.specs.Thread.{IsSend};
ghost use Rattle.hand_over.specs.Views.{turn_at};
ghost use Rattle.hand_over.specs.declared.view.Turn.TheVariants.{Idle, Out};
ghost use Rattle.flush_writer.specs.Held.{Held, IsSentBack};
ghost use Rattle.flush_writer.specs.Placed.{CanBeSent};

use crate::errand::Errand;
use hand_over::{Desk, LanePlace, Parcels};
use std::alloc::Global;
use std::marker::{Model, Send};
use std::sync::{Arc, Wait};
use std::thread::{Builder, Threads};
use sw_base::{Log, Memory};

/// The lane's end of the way to its writer. It is seen as what the lane sent.
#[derive(Drop)]
pub(crate) struct Link<L: Log> {
    parcels: Arc<Parcels<Errand<L>>>,
    desk: Desk<Errand<L>>,
}

impl<L: Log> Model for Link<L> {
    ghost use Rattle.std.specs.Prelude.{◌≡◌};
    ghost use Rattle.std.specs.Arc.{arc_value};
    ghost use Rattle.hand_over.specs.Views.{turn_at};
    ghost use Rattle.hand_over.specs.declared.view.Turn.{Turn};
    ghost use Rattle.flush_writer.specs.Held.{Held};

    ghost Value = { Turn Held };

    ghost view = { λ l. turn_at l.desk.turns 0 };

    ghost invariant = { λ l. l.desk.table ≡ arc_value l.parcels };
}

// Appends what the lane sends, until it closes.
fn serve<L: Log, R: Wait>(
    rt: &R,
    alloc: Global,
    parcels: &Parcels<Errand<L>>,
    place: &mut LanePlace<Errand<L>>,
)
    requires table { place.old.table ≡ parcels.now }
    requires none { place.old.took ≡ None }
{
    for _ in rt.forever() {
        let Some(mut errand) = parcels.take(rt, place) else {
            return;
        };
        errand.append(alloc);
        parcels.give_back(place, errand);
    }
}

// A way of one lane, and its two ends.
fn way<L: Log>(
    alloc: Global,
) -> Result<(Parcels<Errand<L>>, Desk<Errand<L>>, LanePlace<Errand<L>>), Memory>
    ensures desk { IfOk result (λ r. (r.1.table ≡ r.0) × (turn_at r.1.turns 0 ≡ Idle)) }
    ensures place { IfOk result (λ r. (r.2.table ≡ r.0) × (r.2.took ≡ None)) }
{
    let (parcels, desk, mut places) = Parcels::new(alloc, 1, &())?;
    let Some(place) = places.pop() else {
        return Err(Memory);
    };
    Ok((parcels, desk, place))
}

impl<L: Log> Link<L> {
    /// Starts a writer with this much stack. There is none where no memory was found, or no thread could be made.
    pub(crate) fn start<R: Threads + Wait + Copy + Send + 'static>(
        rt: &R,
        alloc: Global,
        stack: usize,
    ) -> Option<Link<L>>
        ensures { IfSome result (λ link. link ≡ Idle) }
    {
        let (parcels, desk, mut place) = way(alloc).ok()?;
        let parcels = Arc::new(alloc, parcels).ok()?;
        let theirs = Arc::try_clone(&parcels).ok()?;
        let threads = *rt;
        let work = move || -> ()
            requires sent { IsSend L.row × IsSend R.row }
            requires lives { [] ⊑ L.row.lives }
            requires place { (place.table ≡ arc_value theirs) × (place.took ≡ None) }
        { serve(&threads, alloc, &theirs, &mut place) };
        let _thread = Builder::new().stack_size(stack).spawn(rt, work).ok()?;
        Some(Link { parcels, desk })
    }

    /// Sends the writer a log and what is to be appended.
    pub(crate) fn send(&mut self, errand: Errand<L>)
        requires idle { self.old ≡ Idle }
        requires fits { CanBeSent errand }
        ensures { self.new ≡ Out errand }
    {
        self.parcels.send(&mut self.desk, 0, errand)
    }

    /// Waits until it is back.
    pub(crate) fn collect<R: Wait>(&mut self, rt: &R) -> Errand<L>
        requires out { (sent : Held) × (self.old ≡ Out sent) }
        ensures follows { (sent : Held) → self.old ≡ Out sent → IsSentBack sent result }
        ensures idle { self.new ≡ Idle }
    {
        self.parcels.collect(rt, &mut self.desk, 0)
    }

    /// Ends the writer.
    pub(crate) fn close(self)
        requires idle { self ≡ Idle }
    {
        let Link { parcels, mut desk } = self;
        parcels.close(&mut desk, 0);
    }
}
