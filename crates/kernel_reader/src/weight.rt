//! The weight of a region, as far as a rule asks for it.
ghost use Rattle.std.specs.Prelude.{◌≡◌, ◌+◌, ◌≤◌, ◌≤ℤ◌, ℕ, pos, negsuc, ◌*◌, ◌-ℤ◌, IfSome};
ghost use Rattle.kernel_parser.specs.Trees.{tree_of};
ghost use Rattle.kernel_reader.specs.Rules.{plain_value, fixed_value, is_fixed, loop_weight};
ghost use Rattle.kernel_reader.specs.Scope.{count_literal};
ghost use Rattle.kernel_reader.specs.Settled.{capped};

use kernel_parser::Tree;

/// A weight above which nothing is asked.
const MOST: u64 = 65_537;

/// The value of a number in brackets.
fn plain_value(tree: &Tree) -> Option<i128>
    ensures value { result ≡ plain_value (tree_of tree.now) }
    ensures small { IfSome result (λ v. (negsuc 9223372036854775807 ≤ℤ v) × (v ≤ℤ pos 9223372036854775807)) }
{
    match tree {
        Tree::Number { value, .. } => Some(i128::from(*value)),
        Tree::Group { inside, .. } => plain_value(inside),
        _ => None,
    }
}

/// The value of a number, or of a sign and a number.
fn fixed_value(tree: &Tree) -> Option<i128>
    ensures value { result ≡ fixed_value (tree_of tree.now) }
    ensures small { IfSome result (λ v. (negsuc 9223372036854775807 ≤ℤ v) × (v ≤ℤ pos 9223372036854775808)) }
{
    match tree {
        Tree::Number { value, .. } => Some(i128::from(*value)),
        Tree::Group { inside, .. } => fixed_value(inside),
        Tree::Minus { operand, .. } => Some(-plain_value(operand)?),
        _ => None,
    }
}

/// How many turns a loop has, or 65,537 where it has more.
fn turns(from: i128, to: i128) -> u64
    requires low { negsuc 9223372036854775807 ≤ℤ from }
    requires high { from ≤ℤ pos 9223372036854775808 }
    requires low_end { negsuc 9223372036854775807 ≤ℤ to }
    requires high_end { to ≤ℤ pos 9223372036854775808 }
    ensures { result ≡ capped (count_literal (to -ℤ from)) }
{
    let count = to - from;
    if count <= 0 {
        0
    } else if count >= 65_537 {
        MOST
    } else {
        count as u64
    }
}

/// The sum of two weights.
pub fn sum(left: u64, right: u64) -> u64
    requires left { left ≤ 65537 }
    requires right { right ≤ 65537 }
    ensures sum { result ≡ capped (left + right) }
    ensures small { result ≤ 65537 }
{
    (left + right).min(MOST)
}

/// The weight of so many turns of a body.
fn turns_weight(count: u64, body: u64) -> u64
    requires few { count ≤ 65537 }
    requires small { body ≤ 65537 }
    ensures weighs { (c w : ℕ) → count ≡ capped c → body ≡ capped w → result ≡ capped (c * (w + 1)) }
    ensures small { result ≤ 65537 }
{
    (count * (body + 1)).min(MOST)
}

/// Whether the text fixes both bounds.
pub fn is_fixed(from: &Tree, to: &Tree) -> bool
    ensures { result ≡ is_fixed (tree_of from.now) (tree_of to.now) }
{
    fixed_value(from).is_some() && fixed_value(to).is_some()
}

/// The weight of a loop with this body.
pub fn loop_weight(from: &Tree, to: &Tree, works: bool, body: u64) -> u64
    requires small { body ≤ 65537 }
    ensures weighs { (w : ℕ) → body ≡ capped w → result ≡ capped (loop_weight (fixed_value (tree_of from.now)) (fixed_value (tree_of to.now)) works w) }
    ensures small { result ≤ 65537 }
{
    match (fixed_value(from), fixed_value(to)) {
        (Some(from), Some(to)) if works => turns_weight(turns(from, to), body),
        _ => 1,
    }
}
