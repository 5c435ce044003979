ghost use Rattle.run_cases.specs.Examples.{CertainKernel, KernelOfTwoRacelessRuns, KernelOfTwoRuns};

/// There are certain kernels.
pub fn some_kernels_are_certain()
    ensures { CertainKernel }
{}

/// And there are fixed kernels of which a race has two runs.
pub fn fixed_kernels_may_have_two_runs()
    ensures { KernelOfTwoRuns }
{}

/// A kernel with critical sections may have two runs though neither has a race: in which order the lanes win a mutex is in no race.
pub fn mutexes_hide_the_order_of_lanes()
    ensures { KernelOfTwoRacelessRuns }
{}
