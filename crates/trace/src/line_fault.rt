//! What is wrong with one line of a file.
ghost use Rattle.std.specs.Prelude.{◌≡◌};
ghost use Rattle.trace.specs.declared.line_fault.LineFault.TheVariants.{NoMemory as OutOfMemory};

use std::alloc::{AllocError, AllocFailed};
use terms::NoMemory;

/// Why a line isn't read.
#[derive(Clone, Copy, PartialEq, Eq)]
pub(crate) enum LineFault {
    NoMemory,
    /// The line has another form than the lines of its file.
    Bad,
    /// The composition has no such action.
    Unknown,
}

impl From<NoMemory> for LineFault {
    ghost from_gives = { λ _ e. e ≡ OutOfMemory };

    fn from(_refused: NoMemory) -> LineFault {
        LineFault::NoMemory
    }
}

impl From<AllocError> for LineFault {
    ghost from_gives = { λ _ e. e ≡ OutOfMemory };

    fn from(_refused: AllocError) -> LineFault {
        LineFault::NoMemory
    }
}

impl<T: Drop> From<AllocFailed<T>> for LineFault {
    ghost from_gives = { λ _ e. e ≡ OutOfMemory };

    fn from(_refused: AllocFailed<T>) -> LineFault {
        LineFault::NoMemory
    }
}
