//! The rule of the counters, and what each step tells.
use crate::share::Share;
use atomic_table::{Join, Play, Split, TableRule};

pub(crate) struct Deal;

impl TableRule<(), Share, usize> for Deal {
    ghost use Rattle.shared_words.specs.Draws.{Dealt, whole_share};

    ghost holds = { Dealt };

    ghost first = { λ _. whole_share };
}

pub(crate) struct Draws;

impl Play<(), Share> for Draws {
    ghost use Rattle.shared_words.specs.Draws.{Drawing};

    ghost then = { Drawing };
}

pub(crate) struct Looks;

impl Play<(), Share> for Looks {
    ghost use Rattle.shared_words.specs.Draws.{Looking};

    ghost then = { Looking };
}

pub(crate) struct Lends;

impl Split<Share> for Lends {
    ghost use Rattle.shared_words.specs.Draws.{lent, lent_share};

    ghost left = { lent };

    ghost right = { λ _. lent_share };
}

pub(crate) struct Regains;

impl Join<Share> for Regains {
    ghost use Rattle.shared_words.specs.Draws.{regained, used_up};

    ghost both = { regained };

    ghost spent = { used_up };
}
