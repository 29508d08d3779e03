//! Why not all was written, and why a file isn't read.
ghost use Rattle.std.specs.Prelude.{◌≡◌};
ghost use Rattle.trace.specs.declared.fault.TraceError.TheVariants.{NoMemory as OutOfMemory};

use std::alloc::{AllocError, AllocFailed};
use terms::Refusal;
use thiserror::Error;

/// A text isn't written whole. Its number is 60.
#[derive(Clone, Copy, Debug, PartialEq, Eq, Error)]
pub enum WriteFault {
    /// A write failed when so many bytes of the text, from the front, had gone out: their number, and at most the greatest
    /// `u64`.
    #[error("a write failed after {0} bytes")]
    WriteFailed(u64),
}

impl Refusal for WriteFault {
    ghost use Rattle.std.specs.Prelude.{None};
    ghost use Rattle.trace.specs.Refusals.{fault_number};

    ghost number_of = { fault_number };

    ghost place_of = { λ _. None };

    fn number(&self) -> u8 {
        60
    }

    fn place(&self) -> Option<usize> {
        None
    }
}

/// Why a file of actions or of steps isn't read. Lines are counted from 1.
#[derive(Clone, Copy, Debug, PartialEq, Eq, Error)]
pub enum TraceError {
    #[error("out of memory")]
    NoMemory,
    /// The first line at fault has another form than the lines of such a file.
    #[error("line {0} is no line of such a file")]
    BadLine(usize),
    /// The first line at fault has the form of such lines, but the composition has no such action.
    #[error("line {0} has an action that the composition doesn't have")]
    UnknownAction(usize),
    /// The first line at fault has a turn whose key isn't above that of the turn on the line before; only of a trace file of
    /// version 2.
    #[error("line {0} has a turn that isn't after the turn before it")]
    NotInOrder(usize),
}

impl Refusal for TraceError {
    ghost use Rattle.trace.specs.Refusals.{trace_number, trace_place};

    ghost number_of = { trace_number };

    ghost place_of = { trace_place };

    fn number(&self) -> u8 {
        match self {
            TraceError::NoMemory => 1,
            TraceError::BadLine(_) => 50,
            TraceError::UnknownAction(_) => 51,
            TraceError::NotInOrder(_) => 52,
        }
    }

    fn place(&self) -> Option<usize> {
        match self {
            TraceError::NoMemory => None,
            TraceError::BadLine(line)
            | TraceError::UnknownAction(line)
            | TraceError::NotInOrder(line) => Some(*line),
        }
    }
}

impl From<AllocError> for TraceError {
    ghost from_gives = { λ _ e. e ≡ OutOfMemory };

    fn from(_refused: AllocError) -> TraceError {
        TraceError::NoMemory
    }
}

impl<T: Drop> From<AllocFailed<T>> for TraceError {
    ghost from_gives = { λ _ e. e ≡ OutOfMemory };

    fn from(_refused: AllocFailed<T>) -> TraceError {
        TraceError::NoMemory
    }
}
