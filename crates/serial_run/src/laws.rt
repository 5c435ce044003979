//! That a task that is resumed until its end has its kernel's trace.
ghost use Rattle.serial_run.specs.Coming.{HaveTheirTrace, StopAsTold};

/// The records of a task that ended, whatever others did while it stood still, are its trace under what it read, and the regions at which it
/// stood still are those of its trace.
pub fn ended_tasks_have_their_trace()
    ensures { HaveTheirTrace }
{}

/// So are those of a task that stopped, and its trace ends in that stop.
pub fn stopped_tasks_stop_as_told()
    ensures { StopAsTold }
{}
