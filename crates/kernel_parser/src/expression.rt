//! From tokens to an expression, by precedence climbing.
//!
//! A call inside a call follows a bracket, a prefix sign or the right operand of an operator, which
//! binds more tightly than what is around it; a chain of operators is a loop.
ghost use Rattle.std.specs.Prelude.{◌≡◌, ◌≤◌, ℕ, List, ◌∷◌, length, IfOk};
ghost use Rattle.kernel_text.specs.declared.token.Sign.TheVariants as sign;
ghost use Rattle.kernel_text.specs.declared.token.Token.{Token as AToken};
ghost use Rattle.kernel_text.specs.Grammar.{Tree as ATree, rank_of, right_rank, unary, named, reserved, mark};
ghost use Rattle.kernel_parser.specs.Parsing.{IsExpression, IsPart, IsOperator, ReadsTo};
ghost use Rattle.kernel_parser.specs.Trees.{tree_of};

use crate::fault::ParseFault;
use crate::lookahead::{is_open_bracket, skip};
use crate::tree::Tree;
use kernel_syntax::{Name, Op};
use kernel_text::{Lexeme, Sign, Token, Word, operation};
use std::alloc::Global;

// The parts of an expression by how tightly they bind.
const UNARY: u8 = 0;

const PRODUCT: u8 = 1;

const SUM: u8 = 2;

const EXPR: u8 = 3;

/// How many brackets and prefix signs may be open at once.
const MOST_LEVELS: u8 = 32;

fn rank_of(op: Op) -> u8
    ensures { result ≡ rank_of op }
{
    match op {
        Op::Mul | Op::Div | Op::Rem => PRODUCT,
        Op::Add | Op::Sub => SUM,
        Op::Eq | Op::Ne | Op::Lt | Op::Le | Op::Gt | Op::Ge => EXPR,
    }
}

fn right_rank(op: Op) -> u8
    ensures { result ≡ right_rank op }
{
    match op {
        Op::Mul | Op::Div | Op::Rem => UNARY,
        Op::Add | Op::Sub => PRODUCT,
        _ => SUM,
    }
}

/// The operator of at most this rank that comes first, its line, and the tokens behind it.
fn operator(tokens: &[Token], rank: u8) -> Option<(Op, u32, &[Token])>
    ensures { IsOperator tokens.now rank result }
{
    let (token, rest) = tokens.split_first()?;
    let op = operation(&token.lexeme)?;
    if rank_of(op) > rank {
        return None;
    }
    Some((op, token.line, rest))
}

/// The operand behind a prefix sign.
#[cycle(expression)]
fn minus(
    alloc: Global,
    line: u32,
    tokens: &[Token],
    levels: u8,
) -> Result<(Tree, &[Token]), ParseFault>
    ensures read { (t : ATree) (after : List AToken) → IsPart unary levels (mark line sign.Minus ∷ tokens.now) t after → ReadsTo result (λ x. (tree_of x.0 ≡ t) × (x.1.now ≡ after)) }
    ensures shorter { IfOk result (λ x. length x.1.now ≤ length tokens.now) }
{
    if levels == 0 {
        return Err(ParseFault::NoKernel);
    }
    let (operand, rest) = operand(alloc, tokens, levels - 1)?;
    let minus = Tree::Minus {
        line,
        operand: Box::new(alloc, operand)?,
    };
    Ok((minus, rest))
}

/// An expression and its closing bracket, behind the opening one.
#[cycle(expression)]
fn group(
    alloc: Global,
    opened: u32,
    tokens: &[Token],
    levels: u8,
) -> Result<(Tree, &[Token]), ParseFault>
    ensures read { (t : ATree) (after : List AToken) → IsPart unary levels (mark opened sign.OpenParen ∷ tokens.now) t after → ReadsTo result (λ x. (tree_of x.0 ≡ t) × (x.1.now ≡ after)) }
    ensures shorter { IfOk result (λ x. length x.1.now ≤ length tokens.now) }
{
    if levels == 0 {
        return Err(ParseFault::NoKernel);
    }
    let (inside, rest) = part(alloc, tokens, EXPR, levels - 1)?;
    let (closed, rest) = skip(rest);
    let group = Tree::Group {
        opened,
        inside: Box::new(alloc, inside)?,
        closed,
    };
    Ok((group, rest))
}

/// A name, with an index behind it or without.
#[cycle(expression)]
fn name(
    alloc: Global,
    line: u32,
    name: Name,
    tokens: &[Token],
    levels: u8,
) -> Result<(Tree, &[Token]), ParseFault>
    ensures read { (t : ATree) (after : List AToken) → IsPart unary levels (named line name ∷ tokens.now) t after → ReadsTo result (λ x. (tree_of x.0 ≡ t) × (x.1.now ≡ after)) }
    ensures shorter { IfOk result (λ x. length x.1.now ≤ length tokens.now) }
{
    if !is_open_bracket(tokens) {
        return Ok((Tree::Name { line, name }, tokens));
    }
    if levels == 0 {
        return Err(ParseFault::NoKernel);
    }
    let (opened, rest) = skip(tokens);
    let (index, rest) = part(alloc, rest, EXPR, levels - 1)?;
    let (closed, rest) = skip(rest);
    let element = Tree::Element {
        line,
        name,
        opened,
        index: Box::new(alloc, index)?,
        closed,
    };
    Ok((element, rest))
}

/// The operand that is a reserved name.
fn word(line: u32, word: Word, tokens: &[Token]) -> Result<(Tree, &[Token]), ParseFault>
    ensures read { (levels : ℕ) (t : ATree) (after : List AToken) → IsPart unary levels (reserved line word ∷ tokens.now) t after → ReadsTo result (λ x. (tree_of x.0 ≡ t) × (x.1.now ≡ after)) }
    ensures shorter { IfOk result (λ x. length x.1.now ≤ length tokens.now) }
{
    match word {
        Word::Tid => Ok((Tree::Tid { line }, tokens)),
        Word::Span => Ok((Tree::Span { line }, tokens)),
        _ => Err(ParseFault::NoKernel),
    }
}

/// The operand that begins with a sign.
#[cycle(expression)]
fn sign(
    alloc: Global,
    line: u32,
    first: Sign,
    tokens: &[Token],
    levels: u8,
) -> Result<(Tree, &[Token]), ParseFault>
    ensures read { (t : ATree) (after : List AToken) → IsPart unary levels (mark line first ∷ tokens.now) t after → ReadsTo result (λ x. (tree_of x.0 ≡ t) × (x.1.now ≡ after)) }
    ensures shorter { IfOk result (λ x. length x.1.now ≤ length tokens.now) }
{
    match first {
        Sign::Minus => minus(alloc, line, tokens, levels),
        Sign::OpenParen => group(alloc, line, tokens, levels),
        _ => Err(ParseFault::NoKernel),
    }
}

/// What stands between operators.
#[cycle(expression)]
fn operand(alloc: Global, tokens: &[Token], levels: u8) -> Result<(Tree, &[Token]), ParseFault>
    ensures read { (t : ATree) (after : List AToken) → IsPart unary levels tokens.now t after → ReadsTo result (λ x. (tree_of x.0 ≡ t) × (x.1.now ≡ after)) }
    ensures shorter { IfOk result (λ x. length x.1.now ≤ length tokens.now) }
{
    let Some((token, rest)) = tokens.split_first() else {
        return Err(ParseFault::NoKernel);
    };
    let line = token.line;
    match &token.lexeme {
        Lexeme::Number(value) => {
            let value = *value;
            Ok((Tree::Number { line, value }, rest))
        }
        Lexeme::Named(found) => name(alloc, line, found.copy(), rest, levels),
        Lexeme::Reserved(found) => word(line, *found, rest),
        Lexeme::Mark(found) => sign(alloc, line, *found, rest, levels),
    }
}

/// A part of an expression: operands with operators of at most this rank between them.
#[cycle(expression)]
fn part(
    alloc: Global,
    tokens: &[Token],
    rank: u8,
    levels: u8,
) -> Result<(Tree, &[Token]), ParseFault>
    ensures read { (t : ATree) (after : List AToken) → IsPart rank levels tokens.now t after → ReadsTo result (λ x. (tree_of x.0 ≡ t) × (x.1.now ≡ after)) }
    ensures shorter { IfOk result (λ x. length x.1.now ≤ length tokens.now) }
{
    let (mut held, mut rest) = operand(alloc, tokens, levels)?;
    'operators: while let Some((op, line, behind)) = operator(rest, rank) {
        let inner = right_rank(op);
        let (right, after) = part(alloc, behind, inner, levels)?;
        held = Tree::Binary {
            left: Box::new(alloc, held)?,
            op,
            line,
            right: Box::new(alloc, right)?,
        };
        rest = after;
    }
    Ok((held, rest))
}

/// The expression at the start of tokens, and the tokens behind it.
pub fn expression(alloc: Global, tokens: &[Token]) -> Result<(Tree, &[Token]), ParseFault>
    ensures read { (t : ATree) (after : List AToken) → IsExpression tokens.now t after → ReadsTo result (λ x. (tree_of x.0 ≡ t) × (x.1.now ≡ after)) }
    ensures shorter { IfOk result (λ x. length x.1.now ≤ length tokens.now) }
{
    part(alloc, tokens, EXPR, MOST_LEVELS)
}
