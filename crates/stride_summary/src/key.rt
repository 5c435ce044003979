ghost use Rattle.std.specs.Prelude.{◌≡◌, ◌↔◌, IsTrue};
ghost use Rattle.stride_summary.specs.Run.{access_key};

use crate::access::Access;
use mutex_set::Held;

/// What tells an access apart but its address. In their order the line decides first, since keys mostly differ there.
#[derive(PartialEq, Eq, PartialOrd, Ord, Drop)]
pub struct Key {
    pub line: u32,
    pub site: u16,
    pub size: u8,
    pub write: bool,
    pub atomic: bool,
    pub held: Held,
}

impl Key {
    /// The key of an access.
    pub fn of(access: &Access) -> Key
        ensures { result ≡ access_key access.now }
    {
        Key {
            line: access.line,
            site: access.site,
            size: access.size,
            write: access.write,
            atomic: access.atomic,
            held: access.held.copy(),
        }
    }

    /// Whether it is the key of the access.
    pub fn is_of(&self, access: &Access) -> bool
        ensures { IsTrue result ↔ (self.now ≡ access_key access.now) }
    {
        self.line == access.line
            && self.site == access.site
            && self.size == access.size
            && self.write == access.write
            && self.atomic == access.atomic
            && self.held == *access.held
    }
}
