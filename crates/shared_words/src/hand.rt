//! A thread's right to use the shared words.
ghost use Rattle.std.specs.Prelude.{◌≡◌, true, false, [], ◌∷◌};
ghost use Rattle.shared_words.specs.declared.view.View.{View};
ghost use Rattle.shared_words.specs.Views.{IsAtRest, spent};
ghost use Rattle.shared_words.specs.Handles.{HandValue, hand_with, is_there, view_or, AtMostOne};

use crate::view::View;
use atomic_table::{Badge, Seat};
use std::marker::Model;
use std::mem;

/// What one thread uses the words with. It has no bytes, and may be blank: then it can stand in for one that was taken out of its place.
#[derive(Drop)]
pub struct Hand {
    badge: Badge<View>,
}

impl Model for Hand {
    ghost Value = { HandValue View };

    ghost view = { λ h. record { table = h.badge.table_id; there = is_there h.badge.views; view = view_or spent h.badge.views } };

    ghost invariant = { λ h. AtMostOne IsAtRest h.badge.views };
}

impl Hand {
    /// A hand with which nothing can be done.
    pub fn blank() -> Hand
        ensures { result.there ≡ false }
    {
        Hand {
            badge: Badge::blank(),
        }
    }

    // The hand in its place is blank until `put` gives it back.
    pub(crate) fn take(&mut self) -> Seat<(), View>
        requires { self.old.there ≡ true }
        ensures table { result.table_id ≡ self.old.table }
        ensures view { result.me ≡ (self.old.view, []) }
        ensures rests { IsAtRest result.me.0 }
    {
        mem::replace(&mut self.badge, Badge::blank()).into_seat()
    }

    pub(crate) fn of(seat: Seat<(), View>) -> Hand
        requires slots { seat.me.1 ≡ [] }
        requires rests { IsAtRest seat.me.0 }
        ensures { result ≡ hand_with seat.table_id seat.me.0 }
    {
        Hand {
            badge: seat.into_badge(),
        }
    }
}
