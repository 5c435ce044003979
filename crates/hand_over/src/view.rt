use std::collections::LinkedList;

/// What the desk knows of a lane. No value of it is made.
pub enum Turn<P> {
    /// No parcel is out.
    Idle,
    /// This parcel was sent, and wasn't collected.
    Out(P),
    Closed,
}

/// What the desk or a place knows. No value of it is made: proofs speak of it alone.
pub struct View<A, P> {
    /// What all parcels are about.
    pub about: A,
    pub is_desk: bool,
    /// The desk's lanes.
    pub turns: LinkedList<Turn<P>>,
    /// The lane whose slot the desk holds.
    pub opened: Option<u64>,
    /// The place's lane, the parcel that it took, and whether it has seen that its lane is closed.
    pub lane: u64,
    pub took: Option<P>,
    pub closed: bool,
}
