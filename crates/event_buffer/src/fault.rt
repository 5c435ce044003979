//! Why a buffer takes no further record.

use sw_base::Trouble;

/// Why a buffer takes no further record.
#[derive(Clone, Copy, Debug, PartialEq, Eq)]
pub enum BufferFault {
    /// The log has as many records as it may.
    LogFull,
    /// A call on the log was refused, now or before.
    Trouble(Trouble),
}

impl From<Trouble> for BufferFault {
    ghost use Rattle.std.specs.Prelude.{◌≡◌};
    ghost use Rattle.event_buffer.specs.declared.fault.BufferFault.TheVariants as fault;

    ghost from_gives = { λ trouble e. e ≡ fault.Trouble trouble };

    fn from(trouble: Trouble) -> Self {
        BufferFault::Trouble(trouble)
    }
}
