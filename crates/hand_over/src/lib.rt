//! Messages that go from one thread to others and are answered, on one table under a rule that every step keeps.
//!
//! A message is a `Parcel`, and each type of parcel says itself what fits, and what follows what. `Parcels` has lanes, 1 to 64. The
//! owner of the `Desk` hands out, and each lane has a `LanePlace` for the worker that serves it. `send` gives a lane a parcel, which
//! fits what all parcels are about. `take` waits for it at the lane's place, and `give_back` returns one that follows it.
//! `collect` waits for that at the desk, and then the lane is free again. A lane that is free may be closed, which its place
//! learns by `take`.
//!
//! A place doesn't know what the desk sent: that `collect` answers a parcel which follows the one sent stands in the desk's
//! clauses, and the rule ties the two. No clause says that a parcel comes back: `take` and `collect` wait, and first let other
//! threads run for a while. Only `new` takes memory.
#![tactic(auto)]

mod desk;
mod parcel;
mod parcels;
mod place;
mod plays;
mod turns;
mod view;

pub use desk::Desk;
pub use parcel::Parcel;
pub use parcels::Parcels;
pub use place::LanePlace;
pub use view::{Turn, View};
