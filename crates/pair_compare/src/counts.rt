//! How many stretches and addresses runs have.

use stride_summary::Run;

/// Runs of at most so many addresses are always taken one address at a time.
pub const FEW: u32 = 2;

/// How many stretches runs have if those of few addresses are taken one address at a time, and how many runs have more addresses.
#[derive(Clone, Copy)]
pub struct Counts {
    pub stretches: u64,
    pub long: u64,
    /// How many addresses the latter have.
    pub addresses: u64,
}

impl Counts {
    pub fn none() -> Counts {
        Counts {
            stretches: 0,
            long: 0,
            addresses: 0,
        }
    }

    pub fn add(&mut self, run: &Run) {
        let count = u64::from(run.count);
        if run.count <= FEW {
            self.stretches = self.stretches.saturating_add(count);
            return;
        }
        self.stretches = self.stretches.saturating_add(1);
        self.long = self.long.saturating_add(1);
        self.addresses = self.addresses.saturating_add(count);
    }

    pub fn add_all(&mut self, other: &Counts) {
        self.stretches = self.stretches.saturating_add(other.stretches);
        self.long = self.long.saturating_add(other.long);
        self.addresses = self.addresses.saturating_add(other.addresses);
    }
}
