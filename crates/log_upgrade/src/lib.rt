//! A folder of the first format brought over to the format that the program reads.
//!
//! `upgrade` walks the folder by the first format, and then puts each log with the new header into another folder, one after another in
//! the order of their rows, and the index last. The other folder then holds the same run. A record of the first format is
//! spelled in the other as it was, so only headers differ.
#![tactic(auto)]

mod fault;
mod logs;
mod upgrading;

pub use fault::UpgradeFault;
pub use upgrading::upgrade;
