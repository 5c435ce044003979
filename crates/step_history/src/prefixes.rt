ghost use Rattle.std.specs.Prelude.{◌≡◌, ◌≢◌, ◌∷◌, ◌<◌, ℕ, List, [], Some, slice_get, take};
ghost use Rattle.step_history.specs.History.{Name, item, of, Legal};
ghost use Rattle.step_history.specs.declared.item.Item.{Item};
ghost use Rattle.step_history.specs.declared.item.Deed.TheVariants.{Split, Home};

/// A prefix of a legal history has all that leads to what it has: with a step of a hand it has the hand's split, and with a
/// homecoming all that the hand did.
pub fn prefixes_have_what_leads_to_them()
    ensures down { (log : List Item) (n : ℕ) (parent : Name) (k : ℕ) → Legal log → (of (k ∷ parent) (take n log) ≢ []) →
        (place : ℕ) × (lane : ℕ) × (span : ℕ) × (slice_get (take n log) place ≡ Some (item parent (Split k lane span))) }
    ensures up { (log : List Item) (n place : ℕ) (parent : Name) (k : ℕ) → Legal log → slice_get (take n log) place ≡ Some (item parent (Home k)) →
        of (k ∷ parent) (take n log) ≡ of (k ∷ parent) log }
{}
