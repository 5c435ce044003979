//! A thread's right to draw numbers.
ghost use Rattle.std.specs.Prelude.{◌≡◌, true, false, [], ◌∷◌};
ghost use Rattle.shared_words.specs.declared.share.Share.{Share};
ghost use Rattle.shared_words.specs.Handles.{HandValue, hand_with, is_there, view_or, AtMostOne};
ghost use Rattle.shared_words.specs.Draws.{IsLive, used_up};

use crate::share::Share;
use atomic_table::{Badge, Seat};
use std::marker::Model;
use std::mem;

/// What one thread draws numbers with. It has no bytes, and may be blank.
#[derive(Drop)]
pub struct ChunkHand {
    badge: Badge<Share>,
}

impl Model for ChunkHand {
    ghost Value = { HandValue Share };

    ghost view = { λ h. record { table = h.badge.table_id; there = is_there h.badge.views; view = view_or used_up h.badge.views } };

    ghost invariant = { λ h. AtMostOne IsLive h.badge.views };
}

impl ChunkHand {
    /// A hand with which nothing can be drawn.
    pub fn blank() -> ChunkHand
        ensures { result.there ≡ false }
    {
        ChunkHand {
            badge: Badge::blank(),
        }
    }

    // The hand in its place is blank until another is put there.
    pub(crate) fn take(&mut self) -> Seat<(), Share>
        requires { self.old.there ≡ true }
        ensures table { result.table_id ≡ self.old.table }
        ensures view { result.me ≡ (self.old.view, []) }
        ensures live { IsLive result.me.0 }
    {
        mem::replace(&mut self.badge, Badge::blank()).into_seat()
    }

    pub(crate) fn of(seat: Seat<(), Share>) -> ChunkHand
        requires slots { seat.me.1 ≡ [] }
        requires live { IsLive seat.me.0 }
        ensures { result ≡ hand_with seat.table_id seat.me.0 }
    {
        ChunkHand {
            badge: seat.into_badge(),
        }
    }
}
