//! What the phases of a team do, told by a type.
use std::marker::Brand;

/// What a lane does in a phase, by the phase's number and its own. A call at `Brand` picks it.
pub trait LaneKey<M> {
    ghost use Rattle.std.specs.Prelude.{ℕ};

    /// This lane may do its part of the phase.
    ghost may: { ℕ → ℕ → M → Type 0 };

    /// The first became the second by it.
    ghost did: { ℕ → ℕ → M → M → Type 0 };
}

impl<M> LaneKey<M> for Brand {
    ghost may = { λ _ _ _. Unit {0} };

    ghost did = { λ _ _ _ _. Unit {0} };
}

/// How a team stands between its phases: what its lanes have in common, and the lanes in their order. A call at `Brand` picks it.
pub trait TeamKey<H, M> {
    ghost use Rattle.std.specs.Prelude.{ℕ, List};

    /// Before the phase of this number, or after the last one.
    ghost stands: { ℕ → H → List M → Type 0 };

    /// When the lanes are parted for the phase of this number.
    ghost parted: { ℕ → H → List M → Type 0 };

    /// After the phase of this number, where the team stopped.
    ghost stopped: { ℕ → H → List M → Type 0 };
}

impl<H, M> TeamKey<H, M> for Brand {
    ghost stands = { λ _ _ _. Unit {0} };

    ghost parted = { λ _ _ _. Unit {0} };

    ghost stopped = { λ _ _ _. Unit {0} };
}
