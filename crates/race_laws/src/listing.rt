ghost use Rattle.std.specs.Prelude.{◌≡◌, ◌↔◌, List, [], ◌∷◌, ◌++◌, All};
ghost use Rattle.sw_base.specs.declared.path.Step.{Step};
ghost use Rattle.race_model.specs.Listing.{IsListing, BeginsListing, IsLastLane, IsNextPath};

/// A list of paths begins a depth-first listing of a tree of tasks exactly where its first path is the root's and each further
/// one is the next after the one before. It is a whole listing exactly where its last path is one of last lanes, too.
pub fn listing_by_next_paths()
    ensures none { BeginsListing [] }
    ensures root { (path : List Step) → BeginsListing (path ∷ []) ↔ (path ≡ []) }
    ensures next { (paths : List (List Step)) (path next : List Step) →
        BeginsListing (paths ++ path ∷ next ∷ []) ↔ (BeginsListing (paths ++ path ∷ []) × IsNextPath path next) }
    ensures whole { (paths : List (List Step)) (path : List Step) →
        IsListing (paths ++ path ∷ []) ↔ (BeginsListing (paths ++ path ∷ []) × All IsLastLane path) }
    ensures not_empty { IsListing [] → ⊥ }
{}
