//! What a statement does to an element.
ghost use Rattle.std.specs.Prelude.{◌≡◌};
ghost use Rattle.kernel_syntax.specs.Arithmetic.{negated};
ghost use Rattle.kernel_model.specs.Changing.{kind_of, amount};

use log_format::Kind;

/// How a statement changes an element.
#[derive(Clone, Copy)]
pub enum Change {
    /// It stores the value.
    Store,
    /// It adds the value in one step, or with a minus its negative (OpenMP 5.2: an atomic update).
    Update { minus: bool },
}

/// The negative of a value.
pub fn negate(value: i64) -> i64
    ensures { result ≡ negated value }
{
    0i64.wrapping_sub(value)
}

impl Change {
    /// The kind of its record.
    pub fn kind(self) -> Kind
        ensures { result ≡ kind_of self }
    {
        match self {
            Change::Store => Kind::Write,
            Change::Update { minus: _ } => Kind::Update,
        }
    }

    /// What it stores or adds, where this is the statement's value.
    pub fn amount(self, value: i64) -> i64
        ensures { result ≡ amount self value }
    {
        match self {
            Change::Store => value,
            Change::Update { minus } => { if minus { negate(value) } else { value } }
        }
    }
}
