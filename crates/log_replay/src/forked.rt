//! A region that a task forked.
ghost use Rattle.kernel_syntax.specs.Bounds.{IsBoundedCode};
ghost use Rattle.kernel_syntax.specs.Program.{code_of};
ghost use Rattle.log_replay.specs.Sole.{code_prop};

use kernel_syntax::Team;

/// A region that a task forked: its team, whose numbers are within their bounds, and the task's locals at that point.
#[derive(Drop)]
pub struct Forked<'k> {
    pub team: &'k Team,
    pub slots: Vec<i64>,
    ghost bounded: { IsBoundedCode (code_of team.now.body.stmts.items) } by { code_prop (code_of team.now.body.stmts.items) },
}
