//! Serial runs, and one task of a run: its statements, loops and shares, where it stands still, and where it stops, each with its records.

mod constructs;
mod runs;
mod statements;
mod stops;
mod support;
mod teams;
