//! What lanes on threads that stay pass.
use std::thread::Builder;
use sw_base::Gate;

/// A gate that says how the threads of lanes start that stay, and is told when one does.
pub trait LiveGate: Gate {
    /// How the thread of this lane is started.
    fn thread(&self, _lane: usize) -> Builder {
        Builder::new()
    }

    /// The thread of this lane starts. It does so once in a team of several phases, before the first of them, and not in a team of one.
    fn started(&self, lane: usize);
}

/// A gate that isn't told when a thread starts.
#[derive(Drop)]
pub struct WithoutStart<'a, G: Gate> {
    gate: &'a G,
}

impl<'a, G: Gate> WithoutStart<'a, G> {
    /// This gate.
    pub fn new(gate: &'a G) -> WithoutStart<'a, G> {
        WithoutStart { gate }
    }
}

impl<'a, G: Gate> Gate for WithoutStart<'a, G> {
    fn enter(&self, number: usize) {
        self.gate.enter(number);
    }
}

impl<'a, G: Gate> LiveGate for WithoutStart<'a, G> {
    fn started(&self, _lane: usize) {}
}
