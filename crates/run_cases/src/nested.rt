//! A run of nested regions.
ghost use Rattle.kernel_model.specs.declared.stop.StopWhy.TheVariants as reason;
ghost use Rattle.kernel_model.specs.Trace.{Stopped};
ghost use Rattle.lane_runner.specs.declared.stop.Stop.TheVariants as stop;
ghost use Rattle.execution_model.specs.Stops.{EndsTask};
ghost use Rattle.region_runner.specs.Answer.{StopsIn};
ghost use Rattle.run_command.specs.Run.{AreStopped};
ghost use Rattle.run_cases.specs.TwoLanes.{dir, team_path, size};
ghost use Rattle.run_cases.specs.Nested.{inner_path, kernel, logs, tasks};

/// A lane of the inner team stops, since it divides by 0, and lane 1 of the outer team stops, too: the run stopped in the first of them.
pub fn a_nested_lane_stops()
    ensures first { AreStopped ⊥ kernel dir size logs (inner_path 1) 6 reason.DivZero }
    ensures other { EndsTask kernel tasks (team_path 1) (Stopped reason.Index 9) }
    ensures later { StopsIn kernel tasks (team_path 1) (stop.Index 9) → ⊥ }
{}
