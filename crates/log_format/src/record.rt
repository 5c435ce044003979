ghost use Rattle.std.specs.Prelude.{◌≡◌, ◌↔◌, IsTrue};
ghost use Rattle.log_format.specs.declared.record.Kind.TheVariants.{Update};
ghost use Rattle.log_format.specs.Table.{AccessesMemory, ChangesMemory};

/// The bytes of a record.
pub const RECORD_SIZE: usize = 24;

/// How many records a log has at most.
pub const RECORD_LIMIT: u32 = 4_194_304;

/// How many tasks may be below the root of a run.
pub const TASK_LIMIT: usize = 65_535;

/// What a task did.
#[derive(Clone, Copy, PartialEq, Eq)]
pub enum Kind {
    /// An access that reads.
    Read,
    /// An access that writes.
    Write,
    /// A mutex was taken.
    Lock,
    /// A mutex was given back.
    Unlock,
    /// A barrier of the team.
    Barrier,
    /// A parallel region was forked.
    Region,
    /// A chunk of a dynamic worksharing loop was drawn.
    Chunk,
    /// The task ended.
    End,
    /// An access that adds to what is there, in one step.
    Update,
}

impl Kind {
    /// Whether a record of this kind reads or changes memory.
    #[inline(always)]
    pub fn is_access(self) -> bool
        ensures { IsTrue result ↔ AccessesMemory self }
    {
        matches!(self, Kind::Read | Kind::Write | Kind::Update)
    }

    /// Whether a record of this kind changes memory.
    #[inline(always)]
    pub fn is_change(self) -> bool
        ensures { IsTrue result ↔ ChangesMemory self }
    {
        matches!(self, Kind::Write | Kind::Update)
    }

    /// Whether a record of this kind reads and changes memory in one step.
    #[inline(always)]
    pub fn is_update(self) -> bool
        ensures { IsTrue result ↔ (self ≡ Update) }
    {
        matches!(self, Kind::Update)
    }
}

/// One step of a task, as its log tells it.
#[derive(Clone, Copy, PartialEq)]
pub struct Record {
    pub kind: Kind,
    /// The bytes of an access, 1, 2, 4 or 8; else 0.
    pub size: u8,
    /// The place in the kernel's text that made the access.
    pub site: u16,
    /// The line in the kernel's text, from 1.
    pub line: u32,
    /// The address of an access, the number of a mutex or of a chunk.
    pub addr: u64,
    /// What an access read, wrote or added, in two's complement; the span of a region; how many chunks there are.
    pub value: u64,
}

/// Why bytes spell no record: the first test that they fail, in this order.
#[derive(Clone, Copy, Debug, PartialEq)]
pub enum Why {
    /// The first byte names no kind.
    Kind,
    /// The size isn't one that the kind allows.
    Size,
    /// The line is 0.
    LineZero,
    /// An access ends past 2^48, or a mutex's number is 65,536 or more.
    Address,
    /// A region's span isn't 1 to 64.
    Span,
    /// A field that must be 0 isn't, or a chunk's number is above how many there are.
    Reserved,
}
