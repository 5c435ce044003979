//! A gate for tests of what runs at once: it opens when all that are expected have come, and notes any others.
#![tactic(auto)]

use std::sync::atomic::{AtomicBool, AtomicU64, Ordering};
use std::thread;
use sw_base::Gate;

// How often one who waits looks whether all have come.
const TURNS: u64 = 4_000_000;

/// Holds each lane or worker until all have come. As each waits in its own call, they run at once, each on a thread of its own.
#[derive(Drop)]
pub struct MeetingGate {
    due: u64,
    come: AtomicU64,
    is_off: AtomicBool,
}

// The bit of a number, if there is one.
fn bit_of(number: usize) -> u64 {
    if number < 64 { 1 << number } else { 0 }
}

impl MeetingGate {
    /// For the numbers below this count, which is at most 64.
    pub fn new(count: usize) -> MeetingGate {
        let due = if count < 64 {
            (1 << count) - 1
        } else {
            u64::MAX
        };
        MeetingGate {
            due,
            come: AtomicU64::new(0),
            is_off: AtomicBool::new(false),
        }
    }

    /// Whether each number came once, no other came, and none waited longer than its turns.
    pub fn have_met(&self) -> bool {
        self.come.load(Ordering::SeqCst) == self.due && !self.is_off.load(Ordering::SeqCst)
    }

    // Waits until all have come. `false` where they don't within the turns.
    fn meets(&self) -> bool {
        for _ in 0..TURNS {
            if self.come.load(Ordering::SeqCst) & self.due == self.due {
                return true;
            }
            thread::yield_now();
        }
        false
    }
}

impl Gate for MeetingGate {
    fn enter(&self, number: usize) {
        let own = bit_of(number);
        let come = self.come.fetch_or(own, Ordering::SeqCst);
        let is_due = own & self.due != 0 && come & own == 0;
        if !(self.meets() && is_due) {
            self.is_off.store(true, Ordering::SeqCst);
        }
    }
}
