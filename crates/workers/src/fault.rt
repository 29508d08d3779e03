//! Why a run ends before all is written.
ghost use Rattle.std.specs.Prelude.{◌≡◌};
ghost use Rattle.workers.specs.declared.fault.RunFault.TheVariants.{NoMemory as OutOfMemory};
ghost use Rattle.workers.specs.Refusals.{run_fault};

use group_exchange::MeetRefused;
use std::alloc::{AllocError, AllocFailed};
use terms::{NoMemory, Refusal};
use thiserror::Error;
use trace::WriteFault;

/// Why a run ends before all is written. What was written is a beginning of the text.
#[derive(Clone, Copy, Debug, PartialEq, Eq, Error)]
pub enum RunFault {
    #[error("out of memory")]
    NoMemory,
    /// A lease was refused (41), or the exchange isn't of the setup that is run (40). No run is known in which this comes.
    #[error("{0}")]
    Meeting(MeetRefused),
    /// A write failed (60); the fault counts the bytes of the whole run.
    #[error("{0}")]
    Write(WriteFault),
    /// A worker's thread could not be started, or the gate didn't let the worker start.
    #[error("a worker could not be started")]
    ThreadRefused,
    /// The number of the turns that chunks or batches had given isn't that of the turns written, or those that were drawn don't begin with the one that
    /// comes next. No run is known in which this comes.
    #[error("turns are out of place")]
    OutOfPlace,
}

/// What befalls a worker, or keeps one from being started.
#[derive(Clone, Copy, PartialEq, Eq)]
pub enum WorkFault {
    NoMemory,
    Meeting(MeetRefused),
    ThreadRefused,
    OutOfPlace,
}

/// The fault with which the run ends for it.
pub fn run_fault(fault: WorkFault) -> RunFault
    ensures { result ≡ run_fault fault }
{
    match fault {
        WorkFault::NoMemory => RunFault::NoMemory,
        WorkFault::Meeting(refused) => RunFault::Meeting(refused),
        WorkFault::ThreadRefused => RunFault::ThreadRefused,
        WorkFault::OutOfPlace => RunFault::OutOfPlace,
    }
}

impl Refusal for RunFault {
    ghost use Rattle.std.specs.Prelude.{None};
    ghost use Rattle.workers.specs.Refusals.{run_number};

    ghost number_of = { run_number };

    ghost place_of = { λ _. None };

    fn number(&self) -> u8 {
        match self {
            RunFault::NoMemory => 1,
            RunFault::Meeting(refused) => refused.number(),
            RunFault::Write(fault) => fault.number(),
            RunFault::ThreadRefused => 61,
            RunFault::OutOfPlace => 62,
        }
    }

    fn place(&self) -> Option<usize> {
        None
    }
}

impl From<NoMemory> for RunFault {
    ghost from_gives = { λ _ e. e ≡ OutOfMemory };

    fn from(_refused: NoMemory) -> RunFault {
        RunFault::NoMemory
    }
}

impl From<AllocError> for RunFault {
    ghost from_gives = { λ _ e. e ≡ OutOfMemory };

    fn from(_refused: AllocError) -> RunFault {
        RunFault::NoMemory
    }
}

impl<T: Drop> From<AllocFailed<T>> for RunFault {
    ghost from_gives = { λ _ e. e ≡ OutOfMemory };

    fn from(_refused: AllocFailed<T>) -> RunFault {
        RunFault::NoMemory
    }
}
