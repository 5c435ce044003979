//! The table of the lanes, and its rule.
use crate::parcel::Parcel;
use crate::view::View;
use atomic_table::{Seat, Table, TableRule};
use std::alloc::Global;
use std::marker::PhantomData;

/// The rule of the turns: whose turn each lane's word says it is, what its slot holds, and what desk and place know of it.
pub struct Turns<P> {
    parcel: PhantomData<P>,
}

impl<P: Parcel> TableRule<Option<P>, View<P::About, P>, P::About> for Turns<P> {
    ghost use Rattle.hand_over.specs.Rule.{Kept};
    ghost use Rattle.hand_over.specs.Views.{first_view};

    ghost holds = { Kept P.fits P.follows };

    ghost first = { first_view };
}

pub(crate) type Lanes<P: Parcel> = Table<Option<P>, View<P::About, P>, P::About, Turns<P>, Global>;

pub(crate) type Token<P: Parcel> = Seat<Option<P>, View<P::About, P>>;
