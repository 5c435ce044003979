//! The turns of a loop.
ghost use Rattle.std.specs.Prelude.{◌≡◌, ◌+◌, ◌-◌, ◌^◌, pos, ◌+ℤ◌, ◌≤ℤ◌};
ghost use Rattle.kernel_model.specs.Iterations.{total_of};

/// How many turns a loop has.
pub fn total_of(from: i64, to: i64) -> u64
    ensures count { result ≡ total_of from to }
    ensures top { (from +ℤ pos result) ≤ℤ pos (2 ^ 63 - 1) }
{
    if from < to { to.abs_diff(from) } else { 0 }
}

/// The value of a loop's variable in turn `i` after the turn `first`.
pub fn number_at(from: i64, first: u64, i: u64) -> i64
    requires { (from +ℤ pos (first + i)) ≤ℤ pos (2 ^ 63 - 1) }
    ensures { result ≡ from +ℤ pos (first + i) }
{
    from.wrapping_add_unsigned(first + i)
}
