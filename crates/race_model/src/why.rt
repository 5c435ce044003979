/// Why a row of an index is bad, in the order in which the rules are tried. `Old` and `Header` stand at row 0.
#[derive(Clone, Copy, Debug, PartialEq, Eq)]
pub enum IndexWhy {
    /// The file begins with the header of an index of the format before.
    Old,
    /// The file doesn't begin with the index's header.
    Header,
    /// A byte follows the 65,536th row.
    TooMany,
    /// The row has fewer than 48 bytes, or there is no first row.
    Cut,
    /// The depth is above 4, or a field that must be 0 isn't.
    Depth,
    /// The span of a step isn't 1 to 64.
    Span,
    /// The lane of a step isn't below its span.
    Lane,
    /// The rows up to this one begin no depth-first listing of a tree of tasks, or end before it is whole.
    Order,
    /// The number of records isn't 1 to 4,194,304.
    Records,
}

/// Why a record of a log is bad, in the order in which the rules are tried. `Header` stands at record 0.
#[derive(Clone, Copy, Debug, PartialEq, Eq)]
pub enum RecordWhy {
    /// The file doesn't begin with the log's header.
    Header,
    /// The record has fewer than 24 bytes, and the index says that there is one.
    Cut,
    /// The first byte names no kind.
    Kind,
    /// The size isn't one that the kind allows.
    Size,
    /// The line is 0.
    LineZero,
    /// An access ends past 2^48, or a mutex's number is 65,536 or more.
    Address,
    /// A region's span isn't 1 to 64.
    Span,
    /// A field that must be 0 isn't, or a chunk's number is above how many there are.
    Reserved,
    /// An End before the last record.
    EndEarly,
    /// A last record that is no End.
    EndMissing,
    /// A Lock of a mutex that the task holds.
    LockTwice,
    /// A Lock where the task holds eight mutexes.
    LocksDeep,
    /// An Unlock of another mutex than the innermost that is held.
    UnlockOther,
    /// A Barrier of the root.
    RootBarrier,
    /// A Barrier while a mutex is held.
    BarrierLocked,
    /// A Region while a mutex is held.
    RegionLocked,
    /// An End while a mutex is held.
    LockOpen,
    /// A Region that the index doesn't list with this span, or an End where it lists more regions.
    RegionRows,
    /// The End of a lane with more or fewer Barriers than lane 0 of its team.
    BarrierCount,
    /// A byte after the last record.
    Extra,
}
