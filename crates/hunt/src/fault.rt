//! Why a hunt ends early.
ghost use Rattle.std.specs.Prelude.{◌≡◌};
ghost use Rattle.hunt.specs.declared.fault.HuntFault.TheVariants.{NoMemory as OutOfMemory};

use compose::SourceError;
use std::alloc::{AllocError, AllocFailed};
use task_seed::{SeedTurnsError, SetupError};
use terms::{NoMemory, Refusal};
use thiserror::Error;
use trace::{TraceError, WriteFault};

/// Why a hunt ends before all is said.
#[derive(Clone, Copy, Debug, Error)]
pub enum HuntFault {
    #[error("out of memory")]
    NoMemory,
    /// The source is refused.
    #[error("{0}")]
    Source(SourceError),
    /// The gap is out of its range.
    #[error("{0}")]
    Turns(SeedTurnsError),
    /// The last tick is out of its range.
    #[error("{0}")]
    Ticks(SetupError),
    /// The text names no action of the composition; the place is its line, which is 1 where it has no line feed inside.
    #[error("{0}")]
    Action(TraceError),
    #[error("{0}")]
    Write(WriteFault),
}

impl Refusal for HuntFault {
    ghost use Rattle.hunt.specs.Faults.{hunt_number, hunt_place};

    ghost number_of = { hunt_number };

    ghost place_of = { hunt_place };

    fn number(&self) -> u8 {
        match self {
            HuntFault::NoMemory => 1,
            HuntFault::Source(refused) => refused.number(),
            HuntFault::Turns(refused) => refused.number(),
            HuntFault::Ticks(refused) => refused.number(),
            HuntFault::Action(refused) => refused.number(),
            HuntFault::Write(fault) => fault.number(),
        }
    }

    fn place(&self) -> Option<usize> {
        match self {
            HuntFault::Source(refused) => refused.place(),
            HuntFault::Action(refused) => refused.place(),
            HuntFault::NoMemory | HuntFault::Turns(_) | HuntFault::Ticks(_) | HuntFault::Write(_) =>
                None,
        }
    }
}

impl From<AllocError> for HuntFault {
    ghost from_gives = { λ _ e. e ≡ OutOfMemory };

    fn from(_refused: AllocError) -> HuntFault {
        HuntFault::NoMemory
    }
}

impl<T: Drop> From<AllocFailed<T>> for HuntFault {
    ghost from_gives = { λ _ e. e ≡ OutOfMemory };

    fn from(_refused: AllocFailed<T>) -> HuntFault {
        HuntFault::NoMemory
    }
}

impl From<NoMemory> for HuntFault {
    ghost from_gives = { λ _ e. e ≡ OutOfMemory };

    fn from(_refused: NoMemory) -> HuntFault {
        HuntFault::NoMemory
    }
}
