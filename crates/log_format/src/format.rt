ghost use Rattle.std.specs.Prelude.{◌≡◌};
ghost use Rattle.log_format.specs.Format.{log_header, index_header, older_header, last_code};

use sw_base::{INDEX_HEADER, LOG_HEADER, OLD_INDEX_HEADER, OLD_LOG_HEADER};

/// What logs and indexes begin with, and which kinds of records there are.
#[derive(Clone, Copy)]
pub enum Format {
    /// Without updates.
    First,
    /// With updates.
    Second,
}

/// The format that the program reads and writes.
pub const FORMAT: Format = Format::Second;

impl Format {
    /// The eight bytes that a log begins with.
    pub fn log_header(self) -> [u8; 8]
        ensures { result ≡ log_header self }
    {
        match self {
            Format::First => OLD_LOG_HEADER,
            Format::Second => LOG_HEADER,
        }
    }

    /// The eight bytes that an index begins with.
    pub fn index_header(self) -> [u8; 8]
        ensures { result ≡ index_header self }
    {
        match self {
            Format::First => OLD_INDEX_HEADER,
            Format::Second => INDEX_HEADER,
        }
    }

    /// The eight bytes that an index of the format before this one begins with. `None` where there is no such format.
    pub fn older_header(self) -> Option<[u8; 8]>
        ensures { result ≡ older_header self }
    {
        match self {
            Format::First => None,
            Format::Second => Some(OLD_INDEX_HEADER),
        }
    }

    /// The greatest number of a kind.
    #[inline(always)]
    pub fn last_code(self) -> u8
        ensures { result ≡ last_code self }
    {
        match self {
            Format::First => 8,
            Format::Second => 9,
        }
    }
}
