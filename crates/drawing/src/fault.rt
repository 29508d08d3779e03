//! Why nothing, or not all, is drawn.
ghost use Rattle.std.specs.Prelude.{◌≡◌};
ghost use Rattle.drawing.specs.declared.fault.DrawFault.TheVariants.{NoMemory as OutOfMemory};

use std::alloc::{AllocError, AllocFailed};
use terms::{NoMemory, Refusal};
use thiserror::Error;
use trace::WriteFault;

/// Why a diagram isn't written to its end.
#[derive(Clone, Copy, Debug, PartialEq, Eq, Error)]
pub enum DrawFault {
    #[error("out of memory")]
    NoMemory,
    #[error("{0}")]
    Write(WriteFault),
}

impl Refusal for DrawFault {
    ghost use Rattle.std.specs.Prelude.{None};
    ghost use Rattle.drawing.specs.Drawn.{draw_number};

    ghost number_of = { draw_number };

    ghost place_of = { λ _. None };

    fn number(&self) -> u8 {
        match self {
            DrawFault::NoMemory => 1,
            DrawFault::Write(fault) => fault.number(),
        }
    }

    fn place(&self) -> Option<usize> {
        None
    }
}

impl From<AllocError> for DrawFault {
    ghost from_gives = { λ _ e. e ≡ OutOfMemory };

    fn from(_refused: AllocError) -> DrawFault {
        DrawFault::NoMemory
    }
}

impl<T: Drop> From<AllocFailed<T>> for DrawFault {
    ghost from_gives = { λ _ e. e ≡ OutOfMemory };

    fn from(_refused: AllocFailed<T>) -> DrawFault {
        DrawFault::NoMemory
    }
}

impl From<NoMemory> for DrawFault {
    ghost from_gives = { λ _ e. e ≡ OutOfMemory };

    fn from(_refused: NoMemory) -> DrawFault {
        DrawFault::NoMemory
    }
}
