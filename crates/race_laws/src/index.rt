ghost use Rattle.std.specs.Prelude.{◌≡◌, ℕ, List};
ghost use Rattle.sw_base.specs.Environment.{Files, with_file};
ghost use Rattle.sw_base.specs.Names.{index_name};
ghost use Rattle.log_format.specs.declared.format.Format.{Format};
ghost use Rattle.race_model.specs.BadPlace.{BadPlace};
ghost use Rattle.race_model.specs.Row.{Row, index_bytes};
ghost use Rattle.race_model.specs.IndexFault.{AreRows, IsIndex, IsBadIndexPlace, IsFirstBadIndexPlace};

/// A folder with a well-formed index is bad at no place of the index.
pub fn well_formed_index_has_no_bad_place()
    ensures { (format : Format) (files : Files) (dir : List ℕ) (rows : List Row) (place : BadPlace) →
        IsIndex format files dir rows → IsBadIndexPlace format files dir place → ⊥ }
{}

/// An index has at most one first bad place.
pub fn first_bad_index_place_is_unique()
    ensures { (format : Format) (files : Files) (dir : List ℕ) (place other : BadPlace) →
        IsFirstBadIndexPlace format files dir place → IsFirstBadIndexPlace format files dir other → place ≡ other }
{}

/// A folder has at most one well-formed index, and well-formed rows whose bytes were put are its index.
pub fn index_tells_its_rows()
    ensures once { (format : Format) (files : Files) (dir : List ℕ) (rows others : List Row) → IsIndex format files dir rows → IsIndex format files dir others → rows ≡ others }
    ensures put { (format : Format) (files : Files) (dir : List ℕ) (rows : List Row) →
        AreRows rows → IsIndex format (with_file (index_name dir) (index_bytes format rows) files) dir rows }
{}
