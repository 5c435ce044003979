//! The left operands of an expression, one below the other. A sum as long as its kernel's text has them that deep, so they are followed by loops.
ghost use Rattle.std.specs.Prelude.{◌≡◌, min, ok_or};
ghost use Rattle.kernel_syntax.specs.Arithmetic.{applied};
ghost use Rattle.kernel_syntax.specs.Program.{term_of};
ghost use Rattle.task_place.specs.Operands.{left_by, left_depth};

use kernel_syntax::{Expr, Op, apply};

/// How many operations of an expression stand one below the other as left operands, from itself on.
pub fn left_depth(expr: &Expr) -> usize
    ensures { result ≡ min (left_depth (term_of expr.now)) 18446744073709551615 }
{
    let mut operand = expr;
    let mut depth = 0usize;
    'down: while let Expr::Binary { left, .. } = operand {
        operand = left;
        depth = depth.saturating_add(1);
    }
    depth
}

/// The left operand so many levels below.
pub fn left_by(expr: &Expr, levels: usize) -> &Expr
    ensures { term_of result.now ≡ left_by (term_of expr.now) levels }
{
    let mut operand = expr;
    'down: for _ in 0..levels {
        let Expr::Binary { left, .. } = operand else {
            return operand;
        };
        operand = left;
    }
    operand
}

/// The operation on two values; or this, where the divisor is 0.
#[inline(always)]
pub fn operate<E: Drop>(op: Op, left: i64, right: i64, stop: E) -> Result<i64, E>
    ensures { result ≡ ok_or (applied op left right) stop }
{
    apply(op, left, right).ok_or(stop)
}
