//! The rule of the words, and what each step tells.
use crate::view::View;
use atomic_table::{Join, Play, Split, TableRule};

pub(crate) struct Law;

impl TableRule<(), View, usize> for Law {
    ghost use Rattle.std.specs.Prelude.{[]};
    ghost use Rattle.shared_words.specs.Rule.{Kept};
    ghost use Rattle.shared_words.specs.Views.{newcomer};

    ghost holds = { Kept };

    ghost first = { λ _. newcomer [] };
}

pub(crate) struct Loads;

impl Play<(), View> for Loads {
    ghost use Rattle.shared_words.specs.Steps.{loads};

    ghost then = { loads };
}

pub(crate) struct Stores;

impl Play<(), View> for Stores {
    ghost use Rattle.shared_words.specs.Steps.{stores};

    ghost then = { stores };
}

pub(crate) struct Updates;

impl Play<(), View> for Updates {
    ghost use Rattle.shared_words.specs.Steps.{updates};

    ghost then = { updates };
}

pub(crate) struct Locks;

impl Play<(), View> for Locks {
    ghost use Rattle.shared_words.specs.Steps.{Locking};

    ghost then = { Locking };
}

pub(crate) struct Unlocks;

impl Play<(), View> for Unlocks {
    ghost use Rattle.shared_words.specs.Steps.{unlocks};

    ghost then = { unlocks };
}

pub(crate) struct Announces;

impl Play<(), View> for Announces {
    ghost use Rattle.shared_words.specs.Steps.{announces};

    ghost then = { announces };
}

pub(crate) struct Parts;

impl Split<View> for Parts {
    ghost use Rattle.shared_words.specs.Views.{child};
    ghost use Rattle.shared_words.specs.Steps.{parts};

    ghost left = { parts };

    ghost right = { child };
}

pub(crate) struct Meets;

impl Join<View> for Meets {
    ghost use Rattle.shared_words.specs.Views.{after_meeting, spent};

    ghost both = { after_meeting };

    ghost spent = { spent };
}
