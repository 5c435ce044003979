//! `sword` once more, run on a folder without a race, so that the program is seen to end with each of the statuses 0 and 1.
#![tactic(auto)]

use sword_program::Ended;

fn main(rt: HostRuntime) -> Ended {
    sword_program::run(rt, rt)
}
