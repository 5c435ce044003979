//! What a lane executes with.

use crate::track::Track;
use sw_base::Log;
use task_place::Locals;

/// What a lane executes with: its local variables, and what it steps with.
#[derive(Drop)]
pub struct Frame<L: Log> {
    pub locals: Locals,
    pub track: Track<L>,
}
