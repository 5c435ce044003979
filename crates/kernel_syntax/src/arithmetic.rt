//! The arithmetic of a kernel's values.
ghost use Rattle.std.specs.Prelude.{◌≡◌, ◌^◌, pos, unsigned_abs, ◌≤ℤ◌};
ghost use Rattle.log_format.specs.Fitting.{fitted, wrapped, IsWidth};
ghost use Rattle.kernel_syntax.specs.Arithmetic.{applied, truth};

use crate::syntax::Op;

/// The operation on two values. None exactly where a quotient or remainder has the divisor 0.
#[inline(always)]
pub fn apply(op: Op, left: i64, right: i64) -> Option<i64>
    ensures { result ≡ applied op left right }
{
    match op {
        Op::Add => Some(left.wrapping_add(right)),
        Op::Sub => Some(left.wrapping_sub(right)),
        Op::Mul => Some(left.wrapping_mul(right)),
        Op::Div => quotient(left, right),
        Op::Rem => remainder(left, right),
        Op::Eq => Some(truth(left == right)),
        Op::Ne => Some(truth(left != right)),
        Op::Lt => Some(truth(left < right)),
        Op::Le => Some(truth(left <= right)),
        Op::Gt => Some(truth(left > right)),
        Op::Ge => Some(truth(left >= right)),
    }
}

fn quotient(left: i64, right: i64) -> Option<i64>
    ensures { result ≡ applied Op.Div left right }
{
    if right == 0 {
        None
    } else {
        Some(left.wrapping_div(right))
    }
}

fn remainder(left: i64, right: i64) -> Option<i64>
    ensures { result ≡ applied Op.Rem left right }
{
    if right == 0 {
        None
    } else {
        Some(left.wrapping_rem(right))
    }
}

// A comparison's value.
fn truth(holds: bool) -> i64
    ensures { result ≡ truth holds }
{
    if holds { 1 } else { 0 }
}

/// What an element of `width` bytes holds once `value` is stored there: the low bits of the value,
/// extended by their sign.
pub fn fit(value: i64, width: u8) -> i64
    requires { IsWidth width }
    ensures { result ≡ fitted value width }
{
    if width == 1 {
        wrap(value, 0x100)
    } else if width == 2 {
        wrap(value, 0x1_0000)
    } else if width == 4 {
        wrap(value, 0x1_0000_0000)
    } else {
        value
    }
}

// The value wrapped to the numbers from -range / 2 to range / 2 - 1.
fn wrap(value: i64, range: i64) -> i64
    requires low { pos 2 ≤ℤ range }
    requires high { range ≤ℤ pos (2 ^ 32) }
    ensures { result ≡ wrapped (unsigned_abs range) value }
{
    let low = value.rem_euclid(range);
    if low < range / 2 { low } else { low - range }
}
