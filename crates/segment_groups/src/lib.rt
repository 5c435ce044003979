//! The segments concurrent with a given one, found without looking at all of them.
//!
//! Two segments of a run are concurrent exactly where their tasks first part at the lanes of one team, and have passed
//! equally many of its barriers there. So segments fall into groups: at each depth below the root those of one team with one
//! barrier number. `Groups` keeps a group as a chain of positions in ascending order, and for each segment where the later
//! lanes begin in it. `partners` hands over exactly the later segments that are concurrent with one, each once and in ascending
//! order, until one is refused. A step is a position read from a chain, and each of those is handed over.
//!
//! `compare` adds the race pairs of two intervals, over a tree of the second's runs, and counts its steps. After an error some
//! of the pairs may be there, and nothing else was added or lost.
#![tactic(auto)]

mod comparing;
mod finder;
mod groups;
mod key;
mod level;
mod partner;
mod searching;

pub use comparing::compare;
pub use groups::Groups;
pub use partner::Partner;
