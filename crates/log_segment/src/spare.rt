ghost use Rattle.std.specs.Prelude.{ℕ};
ghost use Rattle.stride_summary.specs.Summary.{IsSummed};
ghost use Rattle.stride_summary.specs.declared.key.Key.{Key};

use stride_summary::Summary;

/// A summary of no access. It may have the keys and the room of an interval that was closed.
#[derive(Drop)]
pub struct Spare {
    summary: Summary,
    ghost none: { (key : Key) (address : ℕ) → IsSummed summary key address → ⊥ },
}

impl Spare {
    /// Keeps a summary of no access.
    pub fn of(summary: Summary) -> Spare
        requires { (key : Key) (address : ℕ) → IsSummed summary key address → ⊥ }
    {
        Spare { summary }
    }

    /// The summary.
    pub fn into_summary(self) -> Summary
        ensures { (key : Key) (address : ℕ) → IsSummed result key address → ⊥ }
    {
        self.summary
    }
}
