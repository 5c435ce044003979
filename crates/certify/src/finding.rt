ghost use Rattle.std.specs.Prelude.{◌≡◌, ◌++◌, ℕ, List, None, [], slice_get};
ghost use Rattle.kernel_syntax.specs.Program.{code_of, program_of, stmt_code};
ghost use Rattle.kernel_syntax.specs.Tree.{Code, Done};
ghost use Rattle.certainty_model.specs.Certain.{IsFixed};
ghost use Rattle.certify.specs.Constructs.{construct_lines, schedule_lines};

use kernel_syntax::{Body, Kernel, Schedule, Stmt};

// The line of a loop whose chunks are drawn.
fn drawn_line(schedule: Schedule, line: u32) -> Option<u32>
    ensures { result ≡ slice_get (schedule_lines schedule line) 0 }
{
    match schedule {
        Schedule::Dynamic(_) => Some(line),
        Schedule::Even | Schedule::Static(_) => None,
    }
}

// The first of two lists of lines, one after the other, by the first of each.
fn earlier(first: Option<u32>, other: Option<u32>) -> Option<u32>
    ensures { (xs ys : List ℕ) → first ≡ slice_get xs 0 → other ≡ slice_get ys 0 → result ≡ slice_get (xs ++ ys) 0 }
{
    match first {
        Some(line) => Some(line),
        None => other,
    }
}

// The line of the first construct in the statements.
#[cycle(finding)]
fn first_in(body: &Body) -> Option<u32>
    ensures { result ≡ slice_get (construct_lines (code_of body.now.stmts.items)) 0 }
{
    for stmt in body.stmts.iter() {
        if let Some(line) = first_at(stmt) {
            return Some(line);
        }
    }
    None
}

// The line of the first construct that a statement is or holds.
#[cycle(finding)]
fn first_at(stmt: &Stmt) -> Option<u32>
    ensures { result ≡ slice_get (construct_lines (stmt_code stmt.now Done)) 0 }
{
    match stmt {
        Stmt::Update { line, .. } => Some(*line),
        Stmt::Critical { line, .. } => Some(*line),
        Stmt::If { yes, no, .. } => earlier(first_in(yes), first_in(no)),
        Stmt::Loop { body, .. } => first_in(body),
        Stmt::Parallel { team } => first_in(&team.body),
        Stmt::For {
            schedule,
            line,
            body,
            ..
        } => earlier(drawn_line(*schedule, *line), first_in(body)),
        _ => None,
    }
}

/// The line of the first critical section, atomic update or loop whose chunks are drawn, in the order of the text. None where there is none.
pub fn first_construct(kernel: &Kernel) -> Option<u32>
    ensures first { result ≡ slice_get (construct_lines (program_of kernel.now).main.body) 0 }
    ensures fixed { result ≡ None → IsFixed (program_of kernel.now).main.body }
    ensures none { IsFixed (program_of kernel.now).main.body → result ≡ None }
{
    first_in(&kernel.main.body)
}

/// Statements have no construct exactly where they are fixed.
pub fn fixed_kernels_have_no_construct()
    ensures fixed { (code : Code) → construct_lines code ≡ [] → IsFixed code }
    ensures none { (code : Code) → IsFixed code → construct_lines code ≡ [] }
{}
