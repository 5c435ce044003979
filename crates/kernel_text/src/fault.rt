//! Why a text is no kernel.
ghost use Rattle.std.specs.Prelude.{◌≡◌};
ghost use Rattle.kernel_text.specs.declared.fault.TextFault.TheVariants.{Memory};

use std::alloc::{AllocError, AllocFailed};

/// What is wrong with a kernel's text.
#[derive(Clone, Copy, Debug)]
pub enum KernelWhy {
    /// A character that begins no token, or a number or a name that is too large or too long.
    Token,
    /// The tokens are no kernel.
    Syntax,
    /// A name that isn't declared as what it is used for.
    Unknown,
    /// A name that is declared already.
    Twice,
    /// A width other than `i8`, `i16`, `i32` and `i64`.
    Width,
    /// A number outside its range.
    Count,
    /// A worksharing loop or a barrier that not every lane need meet in the same way.
    NotUniform,
    /// A barrier where none may stand.
    BarrierHere,
    /// A worksharing loop where none may stand.
    WorkHere,
    /// Nested critical sections whose mutexes don't ascend.
    CriticalOrder,
    /// A region inside a critical section.
    ParallelHere,
    /// Nested too deep.
    Deep,
    /// Too many or too large.
    Large,
    /// No UTF-8.
    NotUtf8,
}

/// Why `tokens` answers none.
#[derive(Drop)]
pub enum TextFault {
    /// The first fault of the text; lines are numbered from 1.
    Refused { line: u32, why: KernelWhy },
    Memory,
}

impl From<AllocError> for TextFault {
    ghost from_gives = { λ _ e. e ≡ Memory };

    fn from(_e: AllocError) -> TextFault {
        TextFault::Memory
    }
}

impl<T: Drop> From<AllocFailed<T>> for TextFault {
    ghost from_gives = { λ _ e. e ≡ Memory };

    fn from(_e: AllocFailed<T>) -> TextFault {
        TextFault::Memory
    }
}
