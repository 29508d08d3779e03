//! Why a source is refused.
ghost use Rattle.std.specs.Prelude.{◌≡◌, Some};
ghost use Rattle.ioa_check.specs.Refusals.{check_number, check_place};
ghost use Rattle.ioa_typing.specs.FaultNumbers.{fault_number};

use ioa_typing::{Fault, FaultKind};
use std::alloc::AllocError;
use terms::Refusal;
use thiserror::Error;

/// Why a source is refused. Places are the numbers of tokens, counted from 0 without comments.
#[derive(Clone, Copy, Debug, PartialEq, Eq, Error)]
pub enum CheckError {
    #[error("out of memory")]
    NoMemory,
    /// A name that means nothing, or not what is asked for here; the head of a transition that no entry has.
    #[error("the name at token {0} isn't known")]
    UnknownName(usize),
    /// A name that was declared before.
    #[error("the name at token {0} stands twice")]
    DoubleName(usize),
    /// A term, type, argument or head that doesn't fit its place.
    #[error("what begins at token {0} has the wrong type")]
    WrongType(usize),
    /// An entry of a signature without a transition.
    #[error("the entry at token {0} has no transition")]
    NoTransition(usize),
    /// A second transition of one entry.
    #[error("the transition at token {0} stands twice")]
    DoubleTransition(usize),
    /// A precondition of an input.
    #[error("the input at token {0} has a precondition")]
    InputWithPre(usize),
    /// An output or internal without a task, or a name in a task that is none or stands in two.
    #[error("the tasks are no partition at token {0}")]
    TasksNotAPartition(usize),
    /// More than a limit allows.
    #[error("what begins at token {0} is over a limit")]
    OverLimit(usize),
}

impl Refusal for CheckError {
    ghost use Rattle.ioa_check.specs.Refusals.{check_number, check_place};

    ghost number_of = { check_number };

    ghost place_of = { check_place };

    fn number(&self) -> u8 {
        match self {
            CheckError::NoMemory => 1,
            CheckError::UnknownName(_) => 10,
            CheckError::DoubleName(_) => 11,
            CheckError::WrongType(_) => 12,
            CheckError::NoTransition(_) => 13,
            CheckError::DoubleTransition(_) => 14,
            CheckError::InputWithPre(_) => 15,
            CheckError::TasksNotAPartition(_) => 16,
            CheckError::OverLimit(_) => 17,
        }
    }

    fn place(&self) -> Option<usize> {
        match self {
            CheckError::NoMemory => None,
            CheckError::UnknownName(at) => Some(*at),
            CheckError::DoubleName(at) => Some(*at),
            CheckError::WrongType(at) => Some(*at),
            CheckError::NoTransition(at) => Some(*at),
            CheckError::DoubleTransition(at) => Some(*at),
            CheckError::InputWithPre(at) => Some(*at),
            CheckError::TasksNotAPartition(at) => Some(*at),
            CheckError::OverLimit(at) => Some(*at),
        }
    }
}

impl From<AllocError> for CheckError {
    ghost use Rattle.ioa_check.specs.declared.fault.CheckError.TheVariants.{NoMemory};

    ghost from_gives = { λ _ e. e ≡ NoMemory };

    fn from(_refused: AllocError) -> CheckError {
        CheckError::NoMemory
    }
}

// The refusal of a source with this least fault.
pub(crate) fn refusal(fault: Fault) -> CheckError
    ensures number { check_number result ≡ fault_number fault.kind }
    ensures place { check_place result ≡ Some fault.place }
{
    let at = fault.place as usize;
    match fault.kind {
        FaultKind::UnknownName => CheckError::UnknownName(at),
        FaultKind::DoubleName => CheckError::DoubleName(at),
        FaultKind::WrongType => CheckError::WrongType(at),
        FaultKind::NoTransition => CheckError::NoTransition(at),
        FaultKind::DoubleTransition => CheckError::DoubleTransition(at),
        FaultKind::InputWithPre => CheckError::InputWithPre(at),
        FaultKind::TasksNotAPartition => CheckError::TasksNotAPartition(at),
        FaultKind::OverLimit => CheckError::OverLimit(at),
    }
}
