ghost use Rattle.std.specs.Prelude.{◌≡◌, ◌<◌, IsTrue};
ghost use Rattle.stride_summary.specs.Accesses.{LiesBehind, single_key};

/// An access under no mutex. In order, those of one key stand together, by their addresses.
#[derive(Clone, Copy, PartialEq, Eq, PartialOrd, Ord)]
pub struct Single {
    pub line: u32,
    pub site: u16,
    pub size: u8,
    pub write: bool,
    pub atomic: bool,
    pub addr: u64,
}

impl Single {
    /// How far the later access lies behind it, or 0 if it has another key or doesn't lie behind it.
    pub fn distance(&self, later: &Single) -> u64
        ensures { 0 < result → LiesBehind self.now later.now result }
    {
        if !self.has_key_of(later) {
            return 0;
        }
        later.addr.saturating_sub(self.addr)
    }

    fn has_key_of(&self, other: &Single) -> bool
        ensures { IsTrue result → single_key self.now ≡ single_key other.now }
    {
        self.line == other.line
            && self.site == other.site
            && self.size == other.size
            && self.write == other.write
            && self.atomic == other.atomic
    }
}
