ghost use Rattle.std.specs.Prelude.{◌≡◌, ◌↔◌, ◌≤◌, ◌==◌, [], ◌∷◌, ◌++◌, length, filter, not, nat_eq, Some, refl, Contains, IsTrue, IsOk, OnOk, OnErr};
ghost use Rattle.std.specs.Cmp.{partial_equiv_from_equiv};
ghost use Rattle.std.specs.Cmp.Lexicographic.{pointwise, slice_cmp, nat_list_eq_equiv, nat_list_cmp_total, texts_ties, texts_po};
ghost use Rattle.std.specs.List.{IsDistinct};
ghost use Rattle.std.specs.Ordering.{nat_cmp};
ghost use Rattle.mutex_set.specs.Held.{IsInnermost, AreDisjoint};

use std::cmp::Ordering;
use std::marker::Model;

/// How many mutexes a task holds at most.
const MOST: usize = 8;

/// Why a mutex can't be taken.
#[derive(Clone, Copy, Debug, PartialEq)]
pub enum HeldFault {
    /// The task holds it already.
    HeldAlready,
    /// The task holds eight others.
    Deep,
}

/// A mutex can't be given back, since it isn't the one that was taken last.
#[derive(Clone, Copy, Debug, PartialEq)]
pub struct NotInnermost;

/// The numbers of the mutexes that a task holds, the innermost last. Contracts see the list of them.
#[derive(Drop)]
pub struct Held {
    /// The first so many are held.
    ids: [u16; MOST],
    count: u8,
}

impl Model for Held {
    ghost use Rattle.std.specs.Prelude.{ℕ, ◌≤◌, List, take, nat_eq};
    ghost use Rattle.std.specs.List.{IsDistinct};

    ghost Value = { List ℕ };

    ghost view = { λ held. take held.count held.ids };

    ghost invariant = { λ held. (held.count ≤ 8) × IsDistinct nat_eq (take held.count held.ids) };
}

impl Held {
    /// No mutexes.
    pub fn none() -> Held
        ensures { result ≡ [] }
    {
        Held {
            ids: [0; MOST],
            count: 0,
        }
    }

    /// The numbers of the mutexes, the innermost last.
    pub fn ids(&self) -> &[u16]
        ensures ids { result.now ≡ self.now }
        ensures depth { length self.now ≤ 8 }
        ensures distinct { IsDistinct nat_eq self.now }
    {
        &self.ids[..usize::from(self.count)]
    }

    /// The same mutexes.
    pub fn copy(&self) -> Held
        ensures { result ≡ self.now }
    {
        Held {
            ids: self.ids,
            count: self.count,
        }
    }

    /// Takes a mutex, which is then the innermost.
    pub fn enter(&mut self, id: u16) -> Result<(), HeldFault>
        ensures entered { OnOk result (self.new ≡ self.old ++ id ∷ []) }
        ensures already { (result ≡ Err HeldFault.HeldAlready) ↔ Contains self.old id }
        ensures deep { (result ≡ Err HeldFault.Deep) ↔ ((Contains self.old id → ⊥) × (length self.old ≡ 8)) }
        ensures unchanged { OnErr result (self.new ≡ self.old) }
    {
        if self.ids().contains(&id) {
            return Err(HeldFault::HeldAlready);
        }
        let count = usize::from(self.count);
        if count == MOST {
            return Err(HeldFault::Deep);
        }
        self.ids[count] = id;
        self.count += 1;
        Ok(())
    }

    /// Gives back the mutex that was taken last.
    pub fn leave(&mut self, id: u16) -> Result<(), NotInnermost>
        ensures variant { IsOk result ↔ IsInnermost self.old id }
        ensures left { OnOk result (self.old ≡ self.new ++ id ∷ []) }
        // No other place of the list has that mutex.
        ensures others { OnOk result (self.new ≡ filter (λ other. not (other == id)) self.old) }
        ensures unchanged { OnErr result (self.new ≡ self.old) }
    {
        if self.ids().last() != Some(&id) {
            return Err(NotInnermost);
        }
        self.count -= 1;
        Ok(())
    }

    /// Whether no mutex is in both.
    pub fn disjoint(&self, other: &Held) -> bool
        ensures { IsTrue result ↔ AreDisjoint self.now other.now }
    {
        let others = other.ids();
        for id in self.ids() {
            if others.contains(id) {
                return false;
            }
        }
        true
    }
}

impl PartialEq for Held {
    ghost eq = { pointwise nat_eq };

    ghost laws = { partial_equiv_from_equiv nat_list_eq_equiv };

    fn eq(&self, other: &Held) -> bool {
        self.ids() == other.ids()
    }
}

impl Eq for Held {
    ghost laws = { nat_list_eq_equiv };
}

impl PartialOrd for Held {
    ghost partial_cmp = { λ x y. Some (slice_cmp nat_cmp x y) };

    ghost laws = { texts_po };

    fn partial_cmp(&self, other: &Held) -> Option<Ordering> {
        Some(self.cmp(other))
    }
}

// The outermost mutex decides first.
impl Ord for Held {
    ghost cmp = { slice_cmp nat_cmp };

    ghost total = { nat_list_cmp_total };

    ghost matches_partial_cmp = { λ x y. refl };

    ghost matches_eq = { texts_ties };

    fn cmp(&self, other: &Held) -> Ordering {
        self.ids().cmp(other.ids())
    }
}
