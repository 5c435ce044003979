ghost use Rattle.std.specs.Prelude.{◌≡◌, ◌<◌, ℕ, List, Some, slice_index};
ghost use Rattle.sw_base.specs.declared.path.Step.{Step};
ghost use Rattle.sw_base.specs.Environment.{Files};
ghost use Rattle.log_format.specs.declared.format.Format.{Format};
ghost use Rattle.race_model.specs.BadPlace.{BadPlace};
ghost use Rattle.race_model.specs.FirstBad.{HoldsTrace, IsFirstBad};
ghost use Rattle.race_model.specs.Trace.{Trace};
ghost use Rattle.race_model.specs.WellFormed.{IsWellFormed};
ghost use Rattle.log_walk.specs.Walk.{IsLogRow};

/// A folder has at most one first bad place.
pub fn first_bad_place_is_unique()
    ensures { (format : Format) (files : Files) (dir : List ℕ) (place other : BadPlace) → IsFirstBad format files dir place → IsFirstBad format files dir other → place ≡ other }
{}

/// The number of a row tells the path of its task.
pub fn row_tells_its_task()
    ensures { (format : Format) (files : Files) (dir : List ℕ) (path other : List Step) (row : ℕ) → IsLogRow format files dir path row → IsLogRow format files dir other row → path ≡ other }
{}

/// A folder that is bad nowhere, and whose files are made of bytes, holds a run.
pub fn well_formed_folder_holds_a_run()
    ensures { (format : Format) (files : Files) (dir : List ℕ) →
        ((name bytes : List ℕ) → files name ≡ Some bytes → (i : ℕ) → slice_index bytes i < 256) →
        IsWellFormed format files dir → (trace : Trace) × HoldsTrace format files dir trace }
{}
