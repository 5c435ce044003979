ghost use Rattle.std.specs.Prelude.{◌≡◌, ◌<◌, ℕ, List, Some, slice_index};
ghost use Rattle.sw_base.specs.Environment.{Files};
ghost use Rattle.sw_base.specs.Names.{index_name};
ghost use Rattle.log_format.specs.declared.format.Format.{Format};
ghost use Rattle.race_model.specs.BadPlace.{BadPlace};
ghost use Rattle.race_model.specs.Row.{Row};
ghost use Rattle.race_model.specs.IndexFault.{IsIndex, IsBadIndexPlace};

/// A folder that is bad at no place of the index, and whose index is made of bytes, has a well-formed index.
pub fn index_without_a_bad_place_is_well_formed()
    ensures { (format : Format) (files : Files) (dir : List ℕ) →
        ((bytes : List ℕ) → files (index_name dir) ≡ Some bytes → (i : ℕ) → slice_index bytes i < 256) →
        ((place : BadPlace) → IsBadIndexPlace format files dir place → ⊥) →
        (rows : List Row) × IsIndex format files dir rows }
{}
