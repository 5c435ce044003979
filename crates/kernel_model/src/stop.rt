//! Why a task stops.
ghost use Rattle.std.specs.Prelude.{◌≡◌};
ghost use Rattle.kernel_model.specs.Stopping.{stop_name};

/// Why a task stops.
#[derive(Clone, Copy, Debug)]
pub enum StopWhy {
    /// A divisor is 0.
    DivZero,
    /// An index lies outside its array.
    Index,
    /// The log has room for no more records.
    LogFull,
    /// More than 65,535 tasks are below the task.
    Tasks,
}

impl StopWhy {
    /// The name by which it is told.
    pub fn name(self) -> &'static str
        ensures { result.now ≡ stop_name self }
    {
        match self {
            StopWhy::DivZero => "DivZero",
            StopWhy::Index => "Index",
            StopWhy::LogFull => "LogFull",
            StopWhy::Tasks => "Tasks",
        }
    }
}
