//! Why nothing was processed.
ghost use Rattle.std.specs.Prelude.{◌≡◌};
ghost use Rattle.rollback.specs.declared.refused.ProcessRefused.TheVariants.{NoMemory as OutOfMemory};

use terms::{NoMemory, Refusal};
use thiserror::Error;

/// Why a component didn't do its next entry; it stays as it was.
#[derive(Clone, Copy, Debug, PartialEq, Eq, Error)]
pub enum ProcessRefused {
    #[error("out of memory")]
    NoMemory,
    /// No input is pending, and the component has no turn left.
    #[error("nothing is pending")]
    NothingPending,
}

impl Refusal for ProcessRefused {
    ghost use Rattle.std.specs.Prelude.{None};
    ghost use Rattle.rollback.specs.Refusals.{process_number};

    ghost number_of = { process_number };

    ghost place_of = { λ _. None };

    fn number(&self) -> u8 {
        match self {
            ProcessRefused::NoMemory => 1,
            ProcessRefused::NothingPending => 31,
        }
    }

    fn place(&self) -> Option<usize> {
        None
    }
}

impl From<NoMemory> for ProcessRefused {
    ghost from_gives = { λ _ e. e ≡ OutOfMemory };

    fn from(_refused: NoMemory) -> ProcessRefused {
        ProcessRefused::NoMemory
    }
}
