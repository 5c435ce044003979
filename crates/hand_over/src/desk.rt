//! What hands parcels out.
ghost use Rattle.std.specs.Prelude.{◌≡◌, true, [], length, None};
ghost use Rattle.hand_over.specs.Handles.{DeskValue};

use crate::parcel::Parcel;
use crate::turns::Token;
use std::marker::Model;

/// What one thread sends and collects parcels with. It has no bytes.
#[derive(Drop)]
pub struct Desk<P: Parcel> {
    pub(crate) token: Token<P>,
}

impl<P: Parcel> Model for Desk<P> {
    ghost Value = { DeskValue P.About P };

    ghost view = { λ d. record { table = d.token.table_id; about = d.token.me.0.about; turns = d.token.me.0.turns } };

    ghost invariant = { λ d. (d.token.me.0.is_desk ≡ true) × (d.token.me.0.opened ≡ None) × (d.token.me.1 ≡ []) × (length d.token.me.0.turns ≡ d.token.table_id.words) × (d.token.table_id.slots ≡ d.token.table_id.words) };
}
