use step_history::Item;

/// What a hand knows. No value of it is made: proofs speak of it alone, and a clause reads an array as a list, of any length.
pub struct View {
    /// The numbers of the splits that lead to the hand, the last one first.
    pub name: [u64; 0],
    /// It isn't joined.
    pub live: bool,
    /// How many hands it has split off.
    pub splits: u64,
    /// The numbers of those that aren't joined.
    pub out: [u64; 0],
    /// The mutexes that it holds, the innermost first.
    pub held: [u64; 0],
    /// The lane and the span of the split that it has announced, and else 0.
    pub lane: u64,
    pub span: u64,
    /// What it did, and all hands that were joined to it, in the order in which it learned it.
    pub items: [Item; 0],
}
