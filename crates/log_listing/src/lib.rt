//! A listing of the logs of a folder: for each a line with its name and its number of records, and then a line for each record.
//!
//! `list` reads the logs of rows that are known to be good once more, record by record, and keeps nothing of them. Lines
//! are gathered, and at most 65,536 bytes are one write. After an error a prefix of the listing was written.
#![tactic(auto)]

mod lines;
mod listing;
mod printing;
mod unlisted;

pub use listing::list;
pub use unlisted::Unlisted;
