//! What each step tells.
use crate::parcel::Parcel;
use crate::view::View;
use atomic_table::{Play, Split};
use std::marker::PhantomData;

/// The desk takes an idle lane's slot.
pub(crate) struct Opens;

impl<A, P> Play<Option<P>, View<A, P>> for Opens {
    ghost use Rattle.hand_over.specs.Steps.{opens};

    ghost then = { opens };
}

/// The desk gives the slot back with a parcel.
pub(crate) struct Sends;

impl<A, P> Play<Option<P>, View<A, P>> for Sends {
    ghost use Rattle.hand_over.specs.Steps.{sends};

    ghost then = { sends };
}

/// The desk looks whether a parcel is back, and takes the slot if so.
pub(crate) struct Looks<P> {
    parcel: PhantomData<P>,
}

impl<P: Parcel> Play<Option<P>, View<P::About, P>> for Looks<P> {
    ghost use Rattle.hand_over.specs.Steps.{looks};

    ghost then = { looks P.follows };
}

/// The desk gives the slot back empty.
pub(crate) struct Frees;

impl<A, P> Play<Option<P>, View<A, P>> for Frees {
    ghost use Rattle.hand_over.specs.Steps.{frees};

    ghost then = { frees };
}

/// The desk closes a lane.
pub(crate) struct Ends;

impl<A, P> Play<Option<P>, View<A, P>> for Ends {
    ghost use Rattle.hand_over.specs.Steps.{ends};

    ghost then = { ends };
}

/// A place looks whether a parcel is there, and takes the slot if so.
pub(crate) struct Takes<P> {
    parcel: PhantomData<P>,
}

impl<P: Parcel> Play<Option<P>, View<P::About, P>> for Takes<P> {
    ghost use Rattle.hand_over.specs.Steps.{takes};

    ghost then = { takes P.fits };
}

/// A place gives the slot back with a parcel.
pub(crate) struct Returns;

impl<A, P> Play<Option<P>, View<A, P>> for Returns {
    ghost use Rattle.hand_over.specs.Steps.{returns};

    ghost then = { returns };
}

/// The desk makes the place of the next lane.
pub(crate) struct Adds;

impl<A, P> Split<View<A, P>> for Adds {
    ghost use Rattle.hand_over.specs.Views.{next_place, with_lane};

    ghost left = { with_lane };

    ghost right = { next_place };
}
