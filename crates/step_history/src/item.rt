/// One step of a hand. No value of it is made: proofs speak of it alone, in which numbers have no upper bound.
pub enum Deed {
    /// It loads the word, and finds the value.
    Read(u64, u64),
    /// It stores the value in the word.
    Write(u64, u64),
    /// It wins the mutex.
    Lock(u64),
    /// It gives the mutex back.
    Unlock(u64),
    /// A new hand of this number is split off, for this lane of this span.
    Split(u64, u64, u64),
    /// The hand of this number is joined.
    Home(u64),
    /// It adds the amount to the word in one step, modulo 2^64.
    Update(u64, u64),
}

/// One step of the history, and who took it. No value of it is made.
pub struct Item {
    /// The numbers of the splits that lead to the hand, the last one first. A clause reads an array as a list, of any length.
    pub name: [u64; 0],
    pub deed: Deed,
}
