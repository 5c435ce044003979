//! What is left of a task.
use kernel_syntax::{Body, Stmt, Team};

/// A part of what is left of a task.
#[derive(Drop)]
pub enum Frame<'k> {
    /// These statements.
    Statements(&'k [Stmt]),
    /// The turns of a loop whose variable goes from `next` to `end`, which is no more of it.
    Turns {
        body: &'k Body,
        slot: u32,
        next: i64,
        end: i64,
    },
    /// The lane's share of the iterations from `next` on of a worksharing loop from `from` to `to` whose chunks are dealt in turn.
    Chunks {
        body: &'k Body,
        slot: u32,
        from: i64,
        to: i64,
        chunk: u32,
        next: u64,
    },
    /// The barrier at the end of a worksharing loop.
    Barrier {
        line: u32,
    },
}

/// Where a task stands still.
#[derive(Drop)]
pub enum Pause<'k> {
    /// At a barrier, which it has passed once all lanes of its team have come.
    Barrier,
    /// After the record of a region of this team, which has to run before the task goes on.
    Fork(&'k Team),
    /// At its end.
    Ended,
}
