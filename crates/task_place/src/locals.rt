//! The local variables of a task.
ghost use Rattle.std.specs.Prelude.{◌≡◌, pos, slice_index_or, slice_set};

/// A task's local variables, by their slots.
#[derive(Drop)]
pub struct Locals {
    pub slots: Vec<i64>,
}

impl Locals {
    /// A local variable.
    pub fn get(&self, slot: u32) -> i64
        ensures { result ≡ slice_index_or self.now.slots.items slot (pos 0) }
    {
        let slot = slot as usize;
        if slot < self.slots.len() {
            self.slots[slot]
        } else {
            0
        }
    }

    /// Sets a local variable.
    pub fn set(&mut self, slot: u32, value: i64)
        ensures { self.new.slots.items ≡ slice_set self.old.slots.items slot value }
    {
        let slot = slot as usize;
        if slot < self.slots.len() {
            self.slots[slot] = value;
        }
    }
}
