//! The parts of a team's body in order, with the loops round barriers unrolled.
ghost use Rattle.std.specs.Prelude.{◌≡◌, ◌++◌, [], ◌∷◌, OnOk, map};
ghost use Rattle.kernel_syntax.specs.Program.{term_of, code_of, stmt_code};
ghost use Rattle.kernel_syntax.specs.Tree.{Done};
ghost use Rattle.kernel_model.specs.Lawful.{fixed_bound, code_holds_work, bounds_of};
ghost use Rattle.kernel_model.specs.Parts.{parts_of, unrolled};
ghost use Rattle.team_phases.specs.Pieces.{part_of_piece};
ghost use Rattle.kernel_model.specs.Phases.{part_of_stmt};
ghost use Rattle.kernel_model.specs.Iterations.{total_of};

use kernel_syntax::{Body, Expr, Op, Stmt, apply};
use std::alloc::{AllocError, Global};

/// What a lane does next.
#[derive(Clone, Copy)]
pub(crate) enum Piece<'k> {
    /// A variable of an unrolled loop gets its value.
    Set { slot: u32, value: i64 },
    /// A statement, of a worksharing loop all but the barrier at its end.
    Run { stmt: &'k Stmt },
    /// All lanes of the team meet.
    Bar { line: u32 },
}

// The value of a bound that the text fixes.
fn fixed(bound: &Expr) -> Option<i64>
    ensures { result ≡ fixed_bound (term_of bound.now) }
{
    match bound {
        Expr::Number(value) => Some(*value),
        Expr::Neg(operand) => match &**operand {
            Expr::Number(value) => apply(Op::Sub, 0, *value),
            _ => None,
        },
        _ => None,
    }
}

// Whether a worksharing loop or a barrier of the same region stands in the statements.
#[cycle(working)]
fn has_work(body: &Body) -> bool
    ensures { result ≡ code_holds_work (code_of body.now.stmts.items) }
{
    for stmt in body.stmts.iter() {
        if is_working(stmt) {
            return true;
        }
    }
    false
}

// Whether the statement is one, or holds one.
#[cycle(working)]
fn is_working(stmt: &Stmt) -> bool
    ensures { result ≡ code_holds_work (stmt_code stmt.now Done) }
{
    match stmt {
        Stmt::If { yes, no, .. } => has_work(yes) || has_work(no),
        Stmt::Loop { body, .. } => has_work(body),
        Stmt::Critical { body, .. } => has_work(body),
        Stmt::For { .. } => true,
        Stmt::Barrier { .. } => true,
        _ => false,
    }
}

// The fixed bounds of a loop that must be unrolled.
fn rounds(from: &Expr, to: &Expr, body: &Body) -> Option<(i64, i64)>
    ensures { result ≡ bounds_of (term_of from.now) (term_of to.now) (code_of body.now.stmts.items) }
{
    if !has_work(body) {
        return None;
    }
    Some((fixed(from)?, fixed(to)?))
}

// Adds the parts of the statements.
#[cycle(unrolling)]
pub(crate) fn add_body<'k>(
    alloc: Global,
    body: &'k Body,
    pieces: &mut Vec<Piece<'k>>,
) -> Result<(), AllocError>
    ensures { OnOk result (map part_of_piece pieces.new.items ≡ map part_of_piece pieces.old.items ++ parts_of (code_of body.now.stmts.items)) }
{
    for stmt in body.stmts.iter() {
        add_stmt(alloc, stmt, pieces)?;
    }
    Ok(())
}

// Adds the parts of a statement.
#[cycle(unrolling)]
fn add_stmt<'k>(
    alloc: Global,
    stmt: &'k Stmt,
    pieces: &mut Vec<Piece<'k>>,
) -> Result<(), AllocError>
    ensures { OnOk result (map part_of_piece pieces.new.items ≡ map part_of_piece pieces.old.items ++ parts_of (stmt_code stmt.now Done)) }
{
    match stmt {
        Stmt::Loop {
            slot,
            from,
            to,
            body,
        } => match rounds(from, to, body) {
            Some((first, end)) => {
                let mut round = Vec::new(alloc);
                add_body(alloc, body, &mut round)?;
                add_rounds(round.as_slice(), *slot, first, end, pieces)
            }
            None => add_run(stmt, pieces),
        },
        Stmt::For { nowait, end, .. } => {
            add_run(stmt, pieces)?;
            if !*nowait {
                pieces.push(Piece::Bar { line: *end })?;
            }
            Ok(())
        }
        Stmt::Barrier { line } => {
            pieces.push(Piece::Bar { line: *line })?;
            Ok(())
        }
        _ => add_run(stmt, pieces),
    }
}

// Adds a single statement.
fn add_run<'k>(stmt: &'k Stmt, pieces: &mut Vec<Piece<'k>>) -> Result<(), AllocError>
    ensures { OnOk result (map part_of_piece pieces.new.items ≡ map part_of_piece pieces.old.items ++ part_of_stmt stmt.now ∷ []) }
{
    pieces.push(Piece::Run { stmt })?;
    Ok(())
}

// Adds the turns of a loop, each the loop's variable and then a round.
fn add_rounds<'k>(
    round: &[Piece<'k>],
    slot: u32,
    from: i64,
    to: i64,
    pieces: &mut Vec<Piece<'k>>,
) -> Result<(), AllocError>
    ensures { OnOk result (map part_of_piece pieces.new.items ≡ map part_of_piece pieces.old.items ++ unrolled (total_of from to) slot from (map part_of_piece round.now)) }
{
    for value in from..to {
        pieces.push(Piece::Set { slot, value })?;
        add_copy(round, pieces)?;
    }
    Ok(())
}

// Adds the parts of a round.
fn add_copy<'k>(round: &[Piece<'k>], pieces: &mut Vec<Piece<'k>>) -> Result<(), AllocError>
    ensures { OnOk result (pieces.new.items ≡ pieces.old.items ++ round.now) }
{
    pieces.extend_from_slice(round)?;
    Ok(())
}
