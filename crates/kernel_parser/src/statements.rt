//! From tokens to statements.
//!
//! A call inside a call follows a block; statements in a row are a loop.
ghost use Rattle.std.specs.Prelude.{◌≡◌, ◌≤◌, ℕ, ℤ, Bool, List, ◌∷◌, ◌++◌, length, IfOk, Option, Some};
ghost use Rattle.kernel_text.specs.declared.token.Token.{Token as AToken};
ghost use Rattle.kernel_text.specs.declared.token.Lexeme.TheVariants.{Reserved};
ghost use Rattle.kernel_text.specs.declared.token.Sign.TheVariants as sign;
ghost use Rattle.kernel_text.specs.declared.token.Word.TheVariants as word;
ghost use Rattle.kernel_text.specs.Grammar as grammar;
ghost use Rattle.kernel_text.specs.Grammar.{Stmts, StmtsDerive, AreShallow, named, mark, reserved, number, schedule_tokens, nowait_tokens, update_sign};
ghost use Rattle.kernel_parser.specs.Trees.{tree_of, schedule_tree, stmts_of};
ghost use Rattle.kernel_parser.specs.Parsing.{IsExpression, IsBlockRead, IsStatementRead, IsFirst, StartsWith, ReadsTo, ReadsFor, inside, lead_of_stmts};

use crate::expression::expression;
use crate::fault::ParseFault;
use crate::lookahead::{
    Lead, is_dynamic, is_else, is_minus, is_name, is_nowait, is_number, is_static, lead_of,
    name_at, name_of, number_of, skip,
};
use crate::tree::{Block, Range, ScheduleTree, Statement};
use kernel_syntax::Name;
use kernel_text::Token;
use std::alloc::Global;

/// NAME `=` expr, behind `let`
#[tactic(auto, using(crate::proofs::Equations::before_let))]
fn let_stmt(alloc: Global, line: u32, tokens: &[Token]) -> Result<(Statement, &[Token]), ParseFault>
    ensures parsed { (name_line : ℕ) (name : List ℕ) (sign_line : ℕ) (value : grammar.Tree) (ts after : List AToken) → tokens.now ≡ named name_line name ∷ mark sign_line sign.Assign ∷ ts → IsExpression ts value after → ReadsTo result (λ x. IsStatementRead (grammar.Let line name_line name sign_line value) after x.0 x.1.now) }
    ensures shorter { IfOk result (λ x. length x.1.now ≤ length tokens.now) }
{
    let name = name_of(tokens);
    let (name_line, rest) = skip(tokens);
    let (sign_line, rest) = skip(rest);
    let (value, rest) = expression(alloc, rest)?;
    let stmt = Statement::Let {
        line,
        name_line,
        name,
        sign_line,
        value,
    };
    Ok((stmt, rest))
}

/// `=` expr, behind a name
#[tactic(auto, using(crate::proofs::Equations::before_assign))]
fn assign_stmt(
    alloc: Global,
    line: u32,
    name: Name,
    tokens: &[Token],
) -> Result<(Statement, &[Token]), ParseFault>
    ensures parsed { (sign_line : ℕ) (value : grammar.Tree) (ts after : List AToken) → tokens.now ≡ mark sign_line sign.Assign ∷ ts → IsExpression ts value after → ReadsTo result (λ x. IsStatementRead (grammar.Assign line name sign_line value) after x.0 x.1.now) }
    ensures shorter { IfOk result (λ x. length x.1.now ≤ length tokens.now) }
{
    let (sign_line, rest) = skip(tokens);
    let (value, rest) = expression(alloc, rest)?;
    let stmt = Statement::Assign {
        line,
        name,
        sign_line,
        value,
    };
    Ok((stmt, rest))
}

/// `[` expr `]` `=` expr, behind a name
#[tactic(auto, using(crate::proofs::Equations::before_store))]
fn store_stmt(
    alloc: Global,
    line: u32,
    name: Name,
    tokens: &[Token],
) -> Result<(Statement, &[Token]), ParseFault>
    ensures parsed { (opened : ℕ) (index : grammar.Tree) (closed sign_line : ℕ) (value : grammar.Tree) (ts us after : List AToken) → tokens.now ≡ mark opened sign.OpenBracket ∷ ts → IsExpression ts index (mark closed sign.CloseBracket ∷ mark sign_line sign.Assign ∷ us) → IsExpression us value after → ReadsTo result (λ x. IsStatementRead (grammar.Store line name opened index closed sign_line value) after x.0 x.1.now) }
    ensures shorter { IfOk result (λ x. length x.1.now ≤ length tokens.now) }
{
    let (opened, rest) = skip(tokens);
    let (index, rest) = expression(alloc, rest)?;
    let (closed, rest) = skip(rest);
    let (sign_line, rest) = skip(rest);
    let (value, rest) = expression(alloc, rest)?;
    let stmt = Statement::Store {
        line,
        name,
        opened,
        index,
        closed,
        sign_line,
        value,
    };
    Ok((stmt, rest))
}

/// NAME `[` expr `]` (`+=` | `-=`) expr, behind `atomic`
#[tactic(auto, using(crate::proofs::Equations::before_update, crate::proofs::Signs::minus_is))]
fn update_stmt(
    alloc: Global,
    line: u32,
    tokens: &[Token],
) -> Result<(Statement, &[Token]), ParseFault>
    ensures parsed { (name_line : ℕ) (name : List ℕ) (opened : ℕ) (index : grammar.Tree) (closed : ℕ) (minus : Bool) (sign_line : ℕ) (value : grammar.Tree) (ts us after : List AToken) → tokens.now ≡ named name_line name ∷ mark opened sign.OpenBracket ∷ ts → IsExpression ts index (mark closed sign.CloseBracket ∷ mark sign_line (update_sign minus) ∷ us) → IsExpression us value after → ReadsTo result (λ x. IsStatementRead (grammar.Update line name_line name opened index closed minus sign_line value) after x.0 x.1.now) }
    ensures shorter { IfOk result (λ x. length x.1.now ≤ length tokens.now) }
{
    let name = name_of(tokens);
    let (name_line, rest) = skip(tokens);
    let (opened, rest) = skip(rest);
    let (index, rest) = expression(alloc, rest)?;
    let (closed, rest) = skip(rest);
    let minus = is_minus(rest);
    let (sign_line, rest) = skip(rest);
    let (value, rest) = expression(alloc, rest)?;
    let stmt = Statement::Update {
        line,
        name_line,
        name,
        opened,
        index,
        closed,
        minus,
        sign_line,
        value,
    };
    Ok((stmt, rest))
}

/// NAME `in` expr `..` expr
fn range(alloc: Global, tokens: &[Token]) -> Result<(Range, &[Token]), ParseFault>
    ensures parsed { (name_line : ℕ) (name : List ℕ) (in_line : ℕ) (from : grammar.Tree) (dots : ℕ) (to : grammar.Tree) (ts us after : List AToken) → tokens.now ≡ named name_line name ∷ reserved in_line word.In ∷ ts → IsExpression ts from (mark dots sign.Dots ∷ us) → IsExpression us to after → ReadsTo result (λ x. (x.0.name_line ≡ name_line) × (x.0.name ≡ name) × (x.0.in_line ≡ in_line) × (tree_of x.0.from ≡ from) × (x.0.dots ≡ dots) × (tree_of x.0.to ≡ to) × (x.1.now ≡ after)) }
    ensures shorter { IfOk result (λ x. length x.1.now ≤ length tokens.now) }
{
    let name = name_of(tokens);
    let (name_line, rest) = skip(tokens);
    let (in_line, rest) = skip(rest);
    let (from, rest) = expression(alloc, rest)?;
    let (dots, rest) = skip(rest);
    let (to, rest) = expression(alloc, rest)?;
    let range = Range {
        name_line,
        name,
        in_line,
        from,
        dots,
        to,
    };
    Ok((range, rest))
}

/// A schedule, if there is one.
fn schedule(tokens: &[Token]) -> (ScheduleTree, &[Token])
    ensures parsed { (s : grammar.ScheduleTree) (nowait : Option ℕ) (opened : ℕ) (after : List AToken) → tokens.now ≡ schedule_tokens s ++ (nowait_tokens nowait ++ mark opened sign.OpenBrace ∷ after) → (schedule_tree result.0 ≡ s) × (result.1.now ≡ nowait_tokens nowait ++ mark opened sign.OpenBrace ∷ after) }
    ensures shorter { length result.1.now ≤ length tokens.now }
{
    let (line, rest) = skip(tokens);
    let chunk = number_of(rest);
    let (number_line, behind) = skip(rest);
    if is_static(tokens) {
        if is_number(rest) {
            return (
                ScheduleTree::StaticBy {
                    line,
                    number_line,
                    chunk,
                },
                behind,
            );
        }
        return (ScheduleTree::Static { line }, rest);
    }
    if is_dynamic(tokens) {
        if is_number(rest) {
            return (
                ScheduleTree::DynamicBy {
                    line,
                    number_line,
                    chunk,
                },
                behind,
            );
        }
        return (ScheduleTree::Dynamic { line }, rest);
    }
    (ScheduleTree::Unsaid, tokens)
}

/// The line of `nowait`, if it is there.
fn nowait(tokens: &[Token]) -> (Option<u32>, &[Token])
    ensures parsed { (nowait : Option ℕ) (opened : ℕ) (after : List AToken) → tokens.now ≡ nowait_tokens nowait ++ mark opened sign.OpenBrace ∷ after → (result.0 ≡ nowait) × (result.1.now ≡ mark opened sign.OpenBrace ∷ after) }
    ensures shorter { length result.1.now ≤ length tokens.now }
{
    if !is_nowait(tokens) {
        return (None, tokens);
    }
    let (line, rest) = skip(tokens);
    (Some(line), rest)
}

/// expr block [`else` block], behind `if`
#[cycle(statements)]
#[tactic(auto, using(crate::proofs::Equations::before_if, crate::proofs::Equations::before_if_else))]
fn if_stmt(alloc: Global, line: u32, tokens: &[Token]) -> Result<(Statement, &[Token]), ParseFault>
    ensures alone { (test : grammar.Tree) (opened : ℕ) (body : Stmts) (closed : ℕ) (ts after : List AToken) → IsExpression tokens.now test ts → IsBlockRead ts opened body closed after → (StartsWith (Reserved word.Else) after → ⊥) → ReadsTo result (λ x. IsStatementRead (grammar.If line test opened body closed) after x.0 x.1.now) }
    ensures both { (test : grammar.Tree) (opened : ℕ) (yes : Stmts) (closed else_line else_opened : ℕ) (other : Stmts) (else_closed : ℕ) (ts us after : List AToken) → IsExpression tokens.now test ts → IsBlockRead ts opened yes closed (reserved else_line word.Else ∷ us) → IsBlockRead us else_opened other else_closed after → ReadsTo result (λ x. IsStatementRead (grammar.IfElse line test opened yes closed else_line else_opened other else_closed) after x.0 x.1.now) }
    ensures shorter { IfOk result (λ x. length x.1.now ≤ length tokens.now) }
{
    let (test, rest) = expression(alloc, tokens)?;
    let (yes, rest) = block(alloc, rest)?;
    if !is_else(rest) {
        return Ok((Statement::If { line, test, yes }, rest));
    }
    let (else_line, rest) = skip(rest);
    let (no, rest) = block(alloc, rest)?;
    let stmt = Statement::IfElse {
        line,
        test,
        yes,
        else_line,
        no,
    };
    Ok((stmt, rest))
}

/// range block, behind `loop`
#[cycle(statements)]
#[tactic(auto, using(crate::proofs::Equations::before_loop))]
fn loop_stmt(
    alloc: Global,
    line: u32,
    tokens: &[Token],
) -> Result<(Statement, &[Token]), ParseFault>
    ensures parsed { (name_line : ℕ) (name : List ℕ) (in_line : ℕ) (from : grammar.Tree) (dots : ℕ) (to : grammar.Tree) (opened : ℕ) (body : Stmts) (closed : ℕ) (ts us vs after : List AToken) → tokens.now ≡ named name_line name ∷ reserved in_line word.In ∷ ts → IsExpression ts from (mark dots sign.Dots ∷ us) → IsExpression us to vs → IsBlockRead vs opened body closed after → ReadsTo result (λ x. IsStatementRead (grammar.Loop line name_line name in_line from dots to opened body closed) after x.0 x.1.now) }
    ensures shorter { IfOk result (λ x. length x.1.now ≤ length tokens.now) }
{
    let (range, rest) = range(alloc, tokens)?;
    let (body, rest) = block(alloc, rest)?;
    Ok((Statement::Loop { line, range, body }, rest))
}

/// NUMBER block, behind `parallel`
#[cycle(statements)]
#[tactic(auto, using(crate::proofs::Equations::before_parallel))]
fn parallel_stmt(
    alloc: Global,
    line: u32,
    tokens: &[Token],
) -> Result<(Statement, &[Token]), ParseFault>
    ensures parsed { (number_line : ℕ) (span : ℤ) (opened : ℕ) (body : Stmts) (closed : ℕ) (ts after : List AToken) → tokens.now ≡ number number_line span ∷ ts → IsBlockRead ts opened body closed after → ReadsTo result (λ x. IsStatementRead (grammar.Parallel line number_line span opened body closed) after x.0 x.1.now) }
    ensures shorter { IfOk result (λ x. length x.1.now ≤ length tokens.now) }
{
    let span = number_of(tokens);
    let (number_line, rest) = skip(tokens);
    let (body, rest) = block(alloc, rest)?;
    let stmt = Statement::Parallel {
        line,
        number_line,
        span,
        body,
    };
    Ok((stmt, rest))
}

/// range schedule `nowait` block, behind `for`
#[cycle(statements)]
#[tactic(auto, using(crate::proofs::Equations::before_for))]
fn for_stmt(alloc: Global, line: u32, tokens: &[Token]) -> Result<(Statement, &[Token]), ParseFault>
    ensures parsed { ReadsFor line tokens.now result }
    ensures shorter { IfOk result (λ x. length x.1.now ≤ length tokens.now) }
{
    let (range, rest) = range(alloc, tokens)?;
    let (schedule, rest) = schedule(rest);
    let (nowait, rest) = nowait(rest);
    let (body, rest) = block(alloc, rest)?;
    let stmt = Statement::For {
        line,
        range,
        schedule,
        nowait,
        body,
    };
    Ok((stmt, rest))
}

/// NAME, if it is there, and a block, behind `critical`
#[cycle(statements)]
#[tactic(auto, using(crate::proofs::Equations::before_critical, crate::proofs::Equations::before_critical_of))]
fn critical_stmt(
    alloc: Global,
    line: u32,
    tokens: &[Token],
) -> Result<(Statement, &[Token]), ParseFault>
    ensures plain { (opened : ℕ) (body : Stmts) (closed : ℕ) (after : List AToken) → IsBlockRead tokens.now opened body closed after → ReadsTo result (λ x. IsStatementRead (grammar.Critical line opened body closed) after x.0 x.1.now) }
    ensures of { (name_line : ℕ) (name : List ℕ) (opened : ℕ) (body : Stmts) (closed : ℕ) (ts after : List AToken) → tokens.now ≡ named name_line name ∷ ts → IsBlockRead ts opened body closed after → ReadsTo result (λ x. IsStatementRead (grammar.CriticalOf line name_line name opened body closed) after x.0 x.1.now) }
    ensures shorter { IfOk result (λ x. length x.1.now ≤ length tokens.now) }
{
    if !is_name(tokens) {
        let (body, rest) = block(alloc, tokens)?;
        return Ok((Statement::Critical { line, body }, rest));
    }
    let name = name_of(tokens);
    let (name_line, rest) = skip(tokens);
    let (body, rest) = block(alloc, rest)?;
    let stmt = Statement::CriticalOf {
        line,
        name_line,
        name,
        body,
    };
    Ok((stmt, rest))
}

/// A statement, and the tokens behind it.
#[cycle(statements)]
fn stmt<'a>(
    alloc: Global,
    lead: Lead,
    token: &Token,
    rest: &'a [Token],
) -> Result<(Statement, &'a [Token]), ParseFault>
    requires { (b : Stmts) (end : ℕ) (tail : List AToken) → token.now ∷ rest.now ≡ inside b end tail → Some lead ≡ lead_of_stmts b }
    ensures parsed { (b : Stmts) (end : ℕ) (tail : List AToken) (n : ℕ) → token.now ∷ rest.now ≡ inside b end tail → StmtsDerive b → AreShallow n b → ReadsTo result (λ x. IsFirst n b end tail x.0 x.1.now) }
    ensures shorter { IfOk result (λ x. length x.1.now ≤ length rest.now) }
{
    let line = token.line;
    match lead {
        Lead::Let => let_stmt(alloc, line, rest),
        Lead::Assign => assign_stmt(alloc, line, name_at(token), rest),
        Lead::Store => store_stmt(alloc, line, name_at(token), rest),
        Lead::Update => update_stmt(alloc, line, rest),
        Lead::If => if_stmt(alloc, line, rest),
        Lead::Loop => loop_stmt(alloc, line, rest),
        Lead::Parallel => parallel_stmt(alloc, line, rest),
        Lead::For => for_stmt(alloc, line, rest),
        Lead::Barrier => Ok((Statement::Barrier { line }, rest)),
        Lead::Critical => critical_stmt(alloc, line, rest),
    }
}

/// Statements between braces, and the tokens behind them.
#[cycle(statements)]
pub fn block(alloc: Global, tokens: &[Token]) -> Result<(Block, &[Token]), ParseFault>
    ensures parsed { (opened : ℕ) (body : Stmts) (closed : ℕ) (after : List AToken) → IsBlockRead tokens.now opened body closed after → ReadsTo result (λ x. (x.0.opened ≡ opened) × (stmts_of x.0.stmts.items ≡ body) × (x.0.closed ≡ closed) × (x.1.now ≡ after)) }
    ensures shorter { IfOk result (λ x. length x.1.now ≤ length tokens.now) }
{
    let (opened, inner) = skip(tokens);
    let mut stmts = Vec::new(alloc);
    let mut rest = inner;
    'stmts: while let Some((token, after)) = rest.split_first() {
        let Some(lead) = lead_of(token, after) else {
            let block = Block {
                opened,
                stmts,
                closed: token.line,
            };
            return Ok((block, after));
        };
        let (added, left) = stmt(alloc, lead, token, after)?;
        stmts.push(added)?;
        rest = left;
    }
    Err(ParseFault::NoKernel)
}
