ghost use Rattle.std.specs.Prelude.{◌≡◌, List, ℕ, All};
ghost use Rattle.log_format.specs.declared.format.Format.{Format};
ghost use Rattle.log_format.specs.declared.format.Format.TheVariants.{First, Second};
ghost use Rattle.log_format.specs.declared.record.Record.{Record};
ghost use Rattle.log_format.specs.Format.{log_header};
ghost use Rattle.log_format.specs.Spelling.{log_bytes};
ghost use Rattle.log_format.specs.Table.{IsTabled, Spells};

/// Bytes spell at most one record.
pub fn spelled_once()
    ensures { (format : Format) (bytes : List ℕ) (r s : Record) → Spells format bytes r → Spells format bytes s → r ≡ s }
{}

/// The bytes of a log tell its records.
pub fn logged_once()
    ensures { (format : Format) (rs ss : List Record) → All (IsTabled format) rs → All (IsTabled format) ss
        → log_bytes (log_header format) rs ≡ log_bytes (log_header format) ss → rs ≡ ss }
{}

/// A record of the first format's table is one of the second's.
pub fn first_is_second()
    ensures { (r : Record) → IsTabled First r → IsTabled Second r }
{}
