//! The statuses that the program ends with.

/// Done, and no race.
pub const DONE: u8 = 0;

/// Races were printed.
pub const RACES: u8 = 1;

/// The logs aren't those of the kernel.
pub const DIFFERS: u8 = 1;

/// It isn't certain that every run of the kernel is one.
pub const UNCERTAIN: u8 = 1;

/// The words ask for nothing.
pub const USAGE: u8 = 2;

/// The kernel is refused.
pub const KERNEL_REFUSED: u8 = 3;

/// The folder is refused.
pub const FOLDER_REFUSED: u8 = 4;

/// The kernel stopped.
pub const KERNEL_STOPPED: u8 = 5;

/// A read failed.
pub const READ_FAULT: u8 = 6;

/// A write failed.
pub const WRITE_FAULT: u8 = 7;

/// No memory was found.
pub const NO_MEMORY: u8 = 8;

/// The folder has an index already.
pub const INDEX_THERE: u8 = 9;
