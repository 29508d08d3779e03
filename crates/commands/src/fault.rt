//! Why an engine ends before all is written.
ghost use Rattle.std.specs.Prelude.{◌≡◌};
ghost use Rattle.commands.specs.declared.fault.DriveFault.TheVariants.{NoMemory as Undriven};
ghost use Rattle.commands.specs.declared.fault.SimulateFault.TheVariants.{NoMemory as OutOfMemory};

use ioa_front::ReadError;
use std::alloc::{AllocError, AllocFailed};
use terms::{NoMemory, Refusal};
use thiserror::Error;
use trace::{TraceError, WriteFault};

/// Why a source isn't printed, or not to its end.
#[derive(Clone, Copy, Debug, PartialEq, Eq, Error)]
pub enum PrintFault {
    #[error("out of memory")]
    NoMemory,
    #[error("{0}")]
    Source(ReadError),
    #[error("{0}")]
    Write(WriteFault),
}

/// Why actions aren't judged, or the verdict isn't written to its end.
#[derive(Clone, Copy, Debug, PartialEq, Eq, Error)]
pub enum CheckFault {
    #[error("out of memory")]
    NoMemory,
    /// The file of the actions is refused; the place is a line.
    #[error("{0}")]
    Trace(TraceError),
    #[error("{0}")]
    Write(WriteFault),
}

/// Why turns aren't written to their end.
#[derive(Clone, Copy, Debug, PartialEq, Eq, Error)]
pub enum SimulateFault {
    #[error("out of memory")]
    NoMemory,
    #[error("{0}")]
    Write(WriteFault),
}

/// Why steps aren't done, or the turns that they commit aren't written to their end.
#[derive(Clone, Copy, Debug, PartialEq, Eq, Error)]
pub enum DriveFault {
    /// There is none for the world or for what is answered; a step that lacks memory is refused.
    #[error("out of memory")]
    NoMemory,
    #[error("{0}")]
    Write(WriteFault),
}

impl Refusal for PrintFault {
    ghost use Rattle.commands.specs.PrintRefusals.{print_number, print_place};

    ghost number_of = { print_number };

    ghost place_of = { print_place };

    fn number(&self) -> u8 {
        match self {
            PrintFault::NoMemory => 1,
            PrintFault::Source(refused) => refused.number(),
            PrintFault::Write(fault) => fault.number(),
        }
    }

    fn place(&self) -> Option<usize> {
        match self {
            PrintFault::NoMemory => None,
            PrintFault::Source(refused) => refused.place(),
            PrintFault::Write(fault) => fault.place(),
        }
    }
}

impl Refusal for CheckFault {
    ghost use Rattle.commands.specs.Refusals.{check_number, check_place};

    ghost number_of = { check_number };

    ghost place_of = { check_place };

    fn number(&self) -> u8 {
        match self {
            CheckFault::NoMemory => 1,
            CheckFault::Trace(refused) => refused.number(),
            CheckFault::Write(fault) => fault.number(),
        }
    }

    fn place(&self) -> Option<usize> {
        match self {
            CheckFault::NoMemory => None,
            CheckFault::Trace(refused) => refused.place(),
            CheckFault::Write(fault) => fault.place(),
        }
    }
}

impl Refusal for SimulateFault {
    ghost use Rattle.std.specs.Prelude.{None};
    ghost use Rattle.commands.specs.Refusals.{simulate_number};

    ghost number_of = { simulate_number };

    ghost place_of = { λ _. None };

    fn number(&self) -> u8 {
        match self {
            SimulateFault::NoMemory => 1,
            SimulateFault::Write(fault) => fault.number(),
        }
    }

    fn place(&self) -> Option<usize> {
        None
    }
}

impl From<AllocError> for SimulateFault {
    ghost from_gives = { λ _ e. e ≡ OutOfMemory };

    fn from(_refused: AllocError) -> SimulateFault {
        SimulateFault::NoMemory
    }
}

impl<T: Drop> From<AllocFailed<T>> for SimulateFault {
    ghost from_gives = { λ _ e. e ≡ OutOfMemory };

    fn from(_refused: AllocFailed<T>) -> SimulateFault {
        SimulateFault::NoMemory
    }
}

impl From<NoMemory> for SimulateFault {
    ghost from_gives = { λ _ e. e ≡ OutOfMemory };

    fn from(_refused: NoMemory) -> SimulateFault {
        SimulateFault::NoMemory
    }
}

impl Refusal for DriveFault {
    ghost use Rattle.std.specs.Prelude.{None};
    ghost use Rattle.commands.specs.Refusals.{drive_number};

    ghost number_of = { drive_number };

    ghost place_of = { λ _. None };

    fn number(&self) -> u8 {
        match self {
            DriveFault::NoMemory => 1,
            DriveFault::Write(fault) => fault.number(),
        }
    }

    fn place(&self) -> Option<usize> {
        None
    }
}

impl From<AllocError> for DriveFault {
    ghost from_gives = { λ _ e. e ≡ Undriven };

    fn from(_refused: AllocError) -> DriveFault {
        DriveFault::NoMemory
    }
}

impl<T: Drop> From<AllocFailed<T>> for DriveFault {
    ghost from_gives = { λ _ e. e ≡ Undriven };

    fn from(_refused: AllocFailed<T>) -> DriveFault {
        DriveFault::NoMemory
    }
}

impl From<NoMemory> for DriveFault {
    ghost from_gives = { λ _ e. e ≡ Undriven };

    fn from(_refused: NoMemory) -> DriveFault {
        DriveFault::NoMemory
    }
}
