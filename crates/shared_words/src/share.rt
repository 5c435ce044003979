/// What a hand on the counters knows. No value of it is made: proofs speak of it alone, and a clause reads an array as a list, of any length.
pub struct Share {
    /// It was made with the counters. It alone is split.
    pub first: bool,
    /// It isn't joined.
    pub live: bool,
    /// How many hands it has split off, and how many of those aren't joined.
    pub splits: u64,
    pub out: u64,
    /// How often it may still draw.
    pub left: u64,
    /// The loops and numbers that it drew, and those of all hands that were joined to it.
    pub drawn: [(u64, u64); 0],
}
