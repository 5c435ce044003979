//! What kernels mean: arithmetic, layout and shares, and the phases of a team.

mod phases;
mod values;
