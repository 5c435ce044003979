//! Where a lane's parcels are taken.
ghost use Rattle.std.specs.Prelude.{◌≡◌, ◌<◌, false};
ghost use Rattle.hand_over.specs.Handles.{LanePlaceValue, carried};

use crate::parcel::Parcel;
use crate::turns::Token;
use std::marker::Model;

/// What one thread takes a lane's parcels with and gives them back.
#[derive(Drop)]
pub struct LanePlace<P: Parcel> {
    pub(crate) token: Token<P>,
    pub(crate) lane: usize,
}

impl<P: Parcel> Model for LanePlace<P> {
    ghost Value = { LanePlaceValue P.About P };

    ghost view = { λ p. record { table = p.token.table_id; about = p.token.me.0.about; lane = p.lane; took = p.token.me.0.took; closed = p.token.me.0.closed } };

    ghost invariant = { λ p. (p.token.me.0.is_desk ≡ false) × (p.token.me.0.lane ≡ p.lane) × (p.lane < p.token.table_id.words) × (p.token.table_id.slots ≡ p.token.table_id.words) × (p.token.me.1 ≡ carried p.lane p.token.me.0.took) };
}
