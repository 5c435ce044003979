ghost use Rattle.std.specs.Prelude.{◌∷◌, ◌++◌, ℕ, List, Contains};
ghost use Rattle.step_history.specs.History.{Name, item, Legal};
ghost use Rattle.step_history.specs.declared.item.Item.{Item};
ghost use Rattle.step_history.specs.declared.item.Deed.TheVariants.{Lock, Unlock};

/// Between two locks of one mutex, whoever locked it first unlocks it.
pub fn critical_sections_exclude_each_other()
    ensures { (before mid after : List Item) (first second : Name) (mutex : ℕ) → Legal (before ++ item first (Lock mutex) ∷ (mid ++ item second (Lock mutex) ∷ after)) → Contains mid (item first (Unlock mutex)) }
{}
