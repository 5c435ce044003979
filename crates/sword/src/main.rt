//! `sword` runs fork-join loop kernels and logs their accesses, checks the logs for data races, compares them with a kernel, and prints them.
#![tactic(auto)]

use sword_program::Ended;

fn main(rt: HostRuntime) -> Ended {
    sword_program::run(rt, rt)
}
