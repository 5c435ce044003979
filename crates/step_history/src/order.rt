ghost use Rattle.std.specs.Prelude.{◌≡◌, ◌∷◌, ◌<◌, ℕ, List, Some, slice_get};
ghost use Rattle.step_history.specs.History.{Name, item, Legal};
ghost use Rattle.step_history.specs.declared.item.Item.{Item};
ghost use Rattle.step_history.specs.declared.item.Deed.TheVariants.{Split, Home};

/// What a hand does stands after the split that made it, and before it comes home. So where one hand comes home before another
/// is split off, all that the first does stands before all that the other does.
pub fn hands_work_between_split_and_home()
    ensures split { (log : List Item) (n : ℕ) (x : Item) (parent : Name) (k : ℕ) → Legal log → slice_get log n ≡ Some x → x.name ≡ k ∷ parent →
        (place : ℕ) × (lane : ℕ) × (span : ℕ) × (place < n) × (slice_get log place ≡ Some (item parent (Split k lane span))) }
    ensures home { (log : List Item) (n place : ℕ) (x : Item) (parent : Name) (k : ℕ) → Legal log → slice_get log n ≡ Some x → x.name ≡ k ∷ parent →
        slice_get log place ≡ Some (item parent (Home k)) → n < place }
    ensures order { (log : List Item) (m n place : ℕ) (x y : Item) (parent : Name) (j k : ℕ) → Legal log →
        slice_get log m ≡ Some x → x.name ≡ j ∷ parent → slice_get log n ≡ Some y → y.name ≡ k ∷ parent →
        slice_get log place ≡ Some (item parent (Home j)) →
        ((split lane span : ℕ) → slice_get log split ≡ Some (item parent (Split k lane span)) → place < split) → m < n }
{}
