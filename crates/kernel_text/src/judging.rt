//! Whether tokens are a kernel by the grammar, or which is the first that none goes on with.
//!
//! What is still wanted stands on a stack, the next on top, so nothing here calls itself.
ghost use Rattle.std.specs.Prelude.{◌≡◌, ◌++◌, ◌∷◌, [], IfOk, ◌+◌};
ghost use Rattle.kernel_text.specs.declared.judging.Want.TheVariants as want;
ghost use Rattle.kernel_text.specs.Grammar.{is_comparison};
ghost use Rattle.kernel_text.specs.Faults.{IsVerdict};
ghost use Rattle.kernel_text.specs.Wanting.{AreDelimited, Alone, Moves, Opens, StepsTo, stack_of};

use crate::token::{Lexeme, Sign, Token, Word, operation};
use kernel_syntax::Op;
use std::alloc::{AllocError, Global};

/// A part of a kernel that is wanted next. A level is how many blocks are open around it, or how
/// many brackets and prefix signs of the same expression.
#[derive(Clone, Copy)]
pub enum Want {
    /// Declarations, `main` and its block.
    Kernel,
    Name,
    Number,
    In,
    Assign,
    /// The sign of an atomic update.
    UpdateSign,
    /// The bracket behind the array's name of an atomic update, which opens no level.
    OpenBracket,
    CloseBracket,
    CloseParen,
    CloseBrace,
    Dots,
    Block(u8),
    Stmts(u8),
    /// What stands between a name at the start of a statement and the value.
    Target,
    Else(u8),
    Schedule,
    Chunk,
    Nowait,
    SectionName,
    Expr(u8),
    Operand(u8),
    /// The index behind a name, if there is one.
    Index(u8),
    /// The operators behind an operand with their operands, and whether a comparison may be one.
    Operators(u8, bool),
}

/// What came of a token.
#[derive(Clone, Copy)]
pub enum Moved {
    /// It can't stand there.
    Fails,
    /// What was wanted is left out before it.
    Skips,
    Takes,
    /// It opens level 33.
    Deep,
}

/// What tokens are.
#[derive(Clone, Copy)]
pub enum Judgement {
    /// A kernel of at most 32 levels.
    Kernel,
    /// The tokens up to the first in this line that no kernel goes on with are none.
    Syntax { line: u32 },
    /// The first token that opens level 33 stands in this line.
    Deep { line: u32 },
    /// They end before a kernel does.
    Early,
}

/// How many levels may be open at once.
const MOST_LEVELS: u8 = 32;

/// Puts the wants on the stack, so that the first is the next.
fn want_all(stack: &mut Vec<Want>, wants: &[Want]) -> Result<Moved, AllocError>
    ensures { IfOk result (λ m. (m ≡ Moved.Takes) × (stack_of stack.new.items ≡ wants.now ++ stack_of stack.old.items)) }
{
    let mut rest = wants;
    'wants: while let Some((last, before)) = rest.split_last() {
        stack.push(*last)?;
        rest = before;
    }
    Ok(Moved::Takes)
}

fn kernel_move(stack: &mut Vec<Want>, lexeme: &Lexeme) -> Result<Moved, AllocError>
    requires { AreDelimited (want.Kernel ∷ stack_of stack.old.items) }
    ensures { Moves result want.Kernel lexeme.now (stack_of stack.old.items) (stack_of stack.new.items) }
{
    match lexeme {
        Lexeme::Reserved(Word::Array) => {
            want_all(stack, &[Want::Name, Want::Name, Want::Number, Want::Kernel])
        }
        Lexeme::Reserved(Word::Mutex) => want_all(stack, &[Want::Name, Want::Kernel]),
        Lexeme::Reserved(Word::Main) => want_all(stack, &[Want::Block(0)]),
        _ => Ok(Moved::Fails),
    }
}

fn name_move(lexeme: &Lexeme) -> Moved
    ensures { Alone result want.Name lexeme.now }
{
    match lexeme {
        Lexeme::Named(_) => Moved::Takes,
        _ => Moved::Fails,
    }
}

fn number_move(lexeme: &Lexeme) -> Moved
    ensures { Alone result want.Number lexeme.now }
{
    match lexeme {
        Lexeme::Number(_) => Moved::Takes,
        _ => Moved::Fails,
    }
}

fn in_move(lexeme: &Lexeme) -> Moved
    ensures { Alone result want.In lexeme.now }
{
    match lexeme {
        Lexeme::Reserved(Word::In) => Moved::Takes,
        _ => Moved::Fails,
    }
}

fn assign_move(lexeme: &Lexeme) -> Moved
    ensures { Alone result want.Assign lexeme.now }
{
    match lexeme {
        Lexeme::Mark(Sign::Assign) => Moved::Takes,
        _ => Moved::Fails,
    }
}

fn update_sign_move(lexeme: &Lexeme) -> Moved
    ensures { Alone result want.UpdateSign lexeme.now }
{
    match lexeme {
        Lexeme::Mark(Sign::PlusAssign | Sign::MinusAssign) => Moved::Takes,
        _ => Moved::Fails,
    }
}

fn open_bracket_move(lexeme: &Lexeme) -> Moved
    ensures { Alone result want.OpenBracket lexeme.now }
{
    match lexeme {
        Lexeme::Mark(Sign::OpenBracket) => Moved::Takes,
        _ => Moved::Fails,
    }
}

fn close_bracket_move(lexeme: &Lexeme) -> Moved
    ensures { Alone result want.CloseBracket lexeme.now }
{
    match lexeme {
        Lexeme::Mark(Sign::CloseBracket) => Moved::Takes,
        _ => Moved::Fails,
    }
}

fn close_paren_move(lexeme: &Lexeme) -> Moved
    ensures { Alone result want.CloseParen lexeme.now }
{
    match lexeme {
        Lexeme::Mark(Sign::CloseParen) => Moved::Takes,
        _ => Moved::Fails,
    }
}

fn close_brace_move(lexeme: &Lexeme) -> Moved
    ensures { Alone result want.CloseBrace lexeme.now }
{
    match lexeme {
        Lexeme::Mark(Sign::CloseBrace) => Moved::Takes,
        _ => Moved::Fails,
    }
}

fn dots_move(lexeme: &Lexeme) -> Moved
    ensures { Alone result want.Dots lexeme.now }
{
    match lexeme {
        Lexeme::Mark(Sign::Dots) => Moved::Takes,
        _ => Moved::Fails,
    }
}

fn chunk_move(lexeme: &Lexeme) -> Moved
    ensures { Alone result want.Chunk lexeme.now }
{
    match lexeme {
        Lexeme::Number(_) => Moved::Takes,
        _ => Moved::Skips,
    }
}

fn nowait_move(lexeme: &Lexeme) -> Moved
    ensures { Alone result want.Nowait lexeme.now }
{
    match lexeme {
        Lexeme::Reserved(Word::Nowait) => Moved::Takes,
        _ => Moved::Skips,
    }
}

fn section_name_move(lexeme: &Lexeme) -> Moved
    ensures { Alone result want.SectionName lexeme.now }
{
    match lexeme {
        Lexeme::Named(_) => Moved::Takes,
        _ => Moved::Skips,
    }
}

/// A token that opens a level inside so many, and what is wanted there.
fn opened(stack: &mut Vec<Want>, level: u8, wants: &[Want]) -> Result<Moved, AllocError>
    ensures { Opens result (level + 1) (stack_of stack.new.items) (wants.now ++ stack_of stack.old.items) }
{
    if level >= MOST_LEVELS {
        return Ok(Moved::Deep);
    }
    want_all(stack, wants)
}

fn block_move(stack: &mut Vec<Want>, level: u8, lexeme: &Lexeme) -> Result<Moved, AllocError>
    requires { AreDelimited (want.Block level ∷ stack_of stack.old.items) }
    ensures { Moves result (want.Block level) lexeme.now (stack_of stack.old.items) (stack_of stack.new.items) }
{
    match lexeme {
        Lexeme::Mark(Sign::OpenBrace) => opened(
            stack,
            level,
            &[Want::Stmts(level.saturating_add(1)), Want::CloseBrace],
        ),
        _ => Ok(Moved::Fails),
    }
}

/// What an atomic update wants behind its word.
fn update_move(stack: &mut Vec<Want>, level: u8) -> Result<Moved, AllocError>
    requires { AreDelimited (want.Stmts level ∷ stack_of stack.old.items) }
    ensures { Moves result (want.Stmts level) (Lexeme.Reserved Word.Atomic) (stack_of stack.old.items) (stack_of stack.new.items) }
{
    want_all(
        stack,
        &[
            Want::Name,
            Want::OpenBracket,
            Want::Expr(0),
            Want::CloseBracket,
            Want::UpdateSign,
            Want::Expr(0),
            Want::Stmts(level),
        ],
    )
}

/// What an `if` wants behind its word.
fn if_move(stack: &mut Vec<Want>, level: u8) -> Result<Moved, AllocError>
    requires { AreDelimited (want.Stmts level ∷ stack_of stack.old.items) }
    ensures { Moves result (want.Stmts level) (Lexeme.Reserved Word.If) (stack_of stack.old.items) (stack_of stack.new.items) }
{
    want_all(
        stack,
        &[
            Want::Expr(0),
            Want::Block(level),
            Want::Else(level),
            Want::Stmts(level),
        ],
    )
}

/// What a loop wants behind its word.
fn loop_move(stack: &mut Vec<Want>, level: u8) -> Result<Moved, AllocError>
    requires { AreDelimited (want.Stmts level ∷ stack_of stack.old.items) }
    ensures { Moves result (want.Stmts level) (Lexeme.Reserved Word.Loop) (stack_of stack.old.items) (stack_of stack.new.items) }
{
    want_all(
        stack,
        &[
            Want::Name,
            Want::In,
            Want::Expr(0),
            Want::Dots,
            Want::Expr(0),
            Want::Block(level),
            Want::Stmts(level),
        ],
    )
}

/// What a worksharing loop wants behind its word.
fn for_move(stack: &mut Vec<Want>, level: u8) -> Result<Moved, AllocError>
    requires { AreDelimited (want.Stmts level ∷ stack_of stack.old.items) }
    ensures { Moves result (want.Stmts level) (Lexeme.Reserved Word.For) (stack_of stack.old.items) (stack_of stack.new.items) }
{
    want_all(
        stack,
        &[
            Want::Name,
            Want::In,
            Want::Expr(0),
            Want::Dots,
            Want::Expr(0),
            Want::Schedule,
            Want::Nowait,
            Want::Block(level),
            Want::Stmts(level),
        ],
    )
}

fn stmts_move(stack: &mut Vec<Want>, level: u8, lexeme: &Lexeme) -> Result<Moved, AllocError>
    requires { AreDelimited (want.Stmts level ∷ stack_of stack.old.items) }
    ensures { Moves result (want.Stmts level) lexeme.now (stack_of stack.old.items) (stack_of stack.new.items) }
{
    match lexeme {
        Lexeme::Reserved(Word::Let) => want_all(
            stack,
            &[Want::Name, Want::Assign, Want::Expr(0), Want::Stmts(level)],
        ),
        Lexeme::Named(_) => want_all(stack, &[Want::Target, Want::Expr(0), Want::Stmts(level)]),
        Lexeme::Reserved(Word::Atomic) => update_move(stack, level),
        Lexeme::Reserved(Word::If) => if_move(stack, level),
        Lexeme::Reserved(Word::Loop) => loop_move(stack, level),
        Lexeme::Reserved(Word::Parallel) => want_all(
            stack,
            &[Want::Number, Want::Block(level), Want::Stmts(level)],
        ),
        Lexeme::Reserved(Word::For) => for_move(stack, level),
        Lexeme::Reserved(Word::Barrier) => want_all(stack, &[Want::Stmts(level)]),
        Lexeme::Reserved(Word::Critical) => want_all(
            stack,
            &[Want::SectionName, Want::Block(level), Want::Stmts(level)],
        ),
        _ => Ok(Moved::Skips),
    }
}

fn target_move(stack: &mut Vec<Want>, lexeme: &Lexeme) -> Result<Moved, AllocError>
    requires { AreDelimited (want.Target ∷ stack_of stack.old.items) }
    ensures { Moves result want.Target lexeme.now (stack_of stack.old.items) (stack_of stack.new.items) }
{
    match lexeme {
        Lexeme::Mark(Sign::Assign) => Ok(Moved::Takes),
        Lexeme::Mark(Sign::OpenBracket) => want_all(
            stack,
            &[Want::Expr(0), Want::CloseBracket, Want::Assign],
        ),
        _ => Ok(Moved::Fails),
    }
}

fn else_move(stack: &mut Vec<Want>, level: u8, lexeme: &Lexeme) -> Result<Moved, AllocError>
    requires { AreDelimited (want.Else level ∷ stack_of stack.old.items) }
    ensures { Moves result (want.Else level) lexeme.now (stack_of stack.old.items) (stack_of stack.new.items) }
{
    match lexeme {
        Lexeme::Reserved(Word::Else) => want_all(stack, &[Want::Block(level)]),
        _ => Ok(Moved::Skips),
    }
}

fn schedule_move(stack: &mut Vec<Want>, lexeme: &Lexeme) -> Result<Moved, AllocError>
    requires { AreDelimited (want.Schedule ∷ stack_of stack.old.items) }
    ensures { Moves result want.Schedule lexeme.now (stack_of stack.old.items) (stack_of stack.new.items) }
{
    match lexeme {
        Lexeme::Reserved(Word::Static | Word::Dynamic) => want_all(stack, &[Want::Chunk]),
        _ => Ok(Moved::Skips),
    }
}

fn operand_move(stack: &mut Vec<Want>, level: u8, lexeme: &Lexeme) -> Result<Moved, AllocError>
    requires { AreDelimited (want.Operand level ∷ stack_of stack.old.items) }
    ensures { Moves result (want.Operand level) lexeme.now (stack_of stack.old.items) (stack_of stack.new.items) }
{
    match lexeme {
        Lexeme::Reserved(Word::Tid | Word::Span) | Lexeme::Number(_) => Ok(Moved::Takes),
        Lexeme::Named(_) => want_all(stack, &[Want::Index(level)]),
        Lexeme::Mark(Sign::Minus) => opened(
            stack,
            level,
            &[Want::Operand(level.saturating_add(1))],
        ),
        Lexeme::Mark(Sign::OpenParen) => opened(
            stack,
            level,
            &[Want::Expr(level.saturating_add(1)), Want::CloseParen],
        ),
        _ => Ok(Moved::Fails),
    }
}

fn index_move(stack: &mut Vec<Want>, level: u8, lexeme: &Lexeme) -> Result<Moved, AllocError>
    requires { AreDelimited (want.Index level ∷ stack_of stack.old.items) }
    ensures { Moves result (want.Index level) lexeme.now (stack_of stack.old.items) (stack_of stack.new.items) }
{
    match lexeme {
        Lexeme::Mark(Sign::OpenBracket) => opened(
            stack,
            level,
            &[Want::Expr(level.saturating_add(1)), Want::CloseBracket],
        ),
        _ => Ok(Moved::Skips),
    }
}

/// A whole expression begins as an operand, behind which operators are wanted.
fn expr_move(stack: &mut Vec<Want>, level: u8, lexeme: &Lexeme) -> Result<Moved, AllocError>
    requires { AreDelimited (want.Expr level ∷ stack_of stack.old.items) }
    ensures { Moves result (want.Expr level) lexeme.now (stack_of stack.old.items) (stack_of stack.new.items) }
{
    stack.push(Want::Operators(level, true))?;
    operand_move(stack, level, lexeme)
}

fn is_comparison(op: Op) -> bool
    ensures { result ≡ is_comparison op }
{
    !matches!(op, Op::Add | Op::Sub | Op::Mul | Op::Div | Op::Rem)
}

fn operators_move(
    stack: &mut Vec<Want>,
    level: u8,
    compares: bool,
    lexeme: &Lexeme,
) -> Result<Moved, AllocError>
    requires { AreDelimited (want.Operators level compares ∷ stack_of stack.old.items) }
    ensures { Moves result (want.Operators level compares) lexeme.now (stack_of stack.old.items) (stack_of stack.new.items) }
{
    let Some(op) = operation(lexeme) else {
        return Ok(Moved::Skips);
    };
    if !is_comparison(op) {
        return want_all(
            stack,
            &[Want::Operand(level), Want::Operators(level, compares)],
        );
    }
    if !compares {
        return Ok(Moved::Skips);
    }
    want_all(
        stack,
        &[Want::Operand(level), Want::Operators(level, false)],
    )
}

/// A token where a part is wanted.
fn move_one(stack: &mut Vec<Want>, want: Want, lexeme: &Lexeme) -> Result<Moved, AllocError>
    requires { AreDelimited (want ∷ stack_of stack.old.items) }
    ensures { Moves result want lexeme.now (stack_of stack.old.items) (stack_of stack.new.items) }
{
    match want {
        Want::Kernel => kernel_move(stack, lexeme),
        Want::Name => Ok(name_move(lexeme)),
        Want::Number => Ok(number_move(lexeme)),
        Want::In => Ok(in_move(lexeme)),
        Want::Assign => Ok(assign_move(lexeme)),
        Want::UpdateSign => Ok(update_sign_move(lexeme)),
        Want::OpenBracket => Ok(open_bracket_move(lexeme)),
        Want::CloseBracket => Ok(close_bracket_move(lexeme)),
        Want::CloseParen => Ok(close_paren_move(lexeme)),
        Want::CloseBrace => Ok(close_brace_move(lexeme)),
        Want::Dots => Ok(dots_move(lexeme)),
        Want::Block(level) => block_move(stack, level, lexeme),
        Want::Stmts(level) => stmts_move(stack, level, lexeme),
        Want::Target => target_move(stack, lexeme),
        Want::Else(level) => else_move(stack, level, lexeme),
        Want::Schedule => schedule_move(stack, lexeme),
        Want::Chunk => Ok(chunk_move(lexeme)),
        Want::Nowait => Ok(nowait_move(lexeme)),
        Want::SectionName => Ok(section_name_move(lexeme)),
        Want::Expr(level) => expr_move(stack, level, lexeme),
        Want::Operand(level) => operand_move(stack, level, lexeme),
        Want::Index(level) => index_move(stack, level, lexeme),
        Want::Operators(level, compares) => operators_move(stack, level, compares, lexeme),
    }
}

/// A token where all of the stack is wanted in turn.
fn step(stack: &mut Vec<Want>, lexeme: &Lexeme) -> Result<Moved, AllocError>
    requires { AreDelimited (stack_of stack.old.items) }
    ensures { StepsTo result lexeme.now (stack_of stack.old.items) (stack_of stack.new.items) }
{
    'wants: while let Some(want) = stack.pop() {
        match move_one(stack, want, lexeme)? {
            Moved::Skips => continue 'wants,
            Moved::Fails => return Ok(Moved::Fails),
            Moved::Takes => return Ok(Moved::Takes),
            Moved::Deep => return Ok(Moved::Deep),
        }
    }
    Ok(Moved::Fails)
}

/// What tokens are: a kernel by the grammar with at most 32 levels of blocks and in each
/// expression; or they have a first token that no kernel goes on with, or a first that opens level
/// 33, at this line; or they end before a kernel does.
pub fn judge(alloc: Global, tokens: &[Token]) -> Result<Judgement, AllocError>
    ensures { IfOk result (λ v. IsVerdict tokens.now v) }
{
    let mut stack = Vec::new(alloc);
    stack.push(Want::Kernel)?;
    let mut rest = tokens;
    'tokens: while let Some((token, after)) = rest.split_first() {
        let line = token.line;
        match step(&mut stack, &token.lexeme)? {
            Moved::Takes => rest = after,
            Moved::Deep => return Ok(Judgement::Deep { line }),
            Moved::Fails => return Ok(Judgement::Syntax { line }),
            Moved::Skips => return Ok(Judgement::Syntax { line }),
        }
    }
    if stack.is_empty() {
        Ok(Judgement::Kernel)
    } else {
        Ok(Judgement::Early)
    }
}
