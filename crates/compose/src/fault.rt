//! Why a composition is refused.
ghost use Rattle.std.specs.Prelude.{◌≡◌};
ghost use Rattle.compose.specs.declared.fault.ComposeError.TheVariants.{NoMemory as OutOfMemory};

use std::alloc::AllocError;
use terms::{NoMemory, Refusal};
use thiserror::Error;

/// Why a composition is refused: the fault of the least number, and the least number of a component such that the components up to
/// it have that fault, or the first hidden name that is at fault. Components and hidden names are counted from 0.
#[derive(Clone, Copy, Debug, PartialEq, Eq, Error)]
pub enum ComposeError {
    #[error("out of memory")]
    NoMemory,
    /// The automaton of a component isn't known.
    #[error("component {0} has no automaton")]
    NoSuchAutomaton(usize),
    /// The input, output and internal actions of a component aren't disjoint.
    #[error("an action of component {0} is of two kinds")]
    OwnOverlap(usize),
    /// An internal action of a component is an action of another.
    #[error("component {0} shares an internal action")]
    InternalShared(usize),
    /// Two components share an output.
    #[error("component {0} shares an output")]
    OutputShared(usize),
    /// Two entries of one name differ in the number or the types of their parameters.
    #[error("the parameters of an action of component {0} differ from those of the same name")]
    ShapeDiffers(usize),
    /// More than 1,024 components.
    #[error("there are more than 1,024 components")]
    TooManyComponents,
    /// No component has an output of a name that is to be hidden.
    #[error("hidden name {0} is no output of a component")]
    NotAnOutput(usize),
}

impl Refusal for ComposeError {
    ghost use Rattle.compose.specs.Faults.{compose_number, compose_place};

    ghost number_of = { compose_number };

    ghost place_of = { compose_place };

    fn number(&self) -> u8 {
        match self {
            ComposeError::NoMemory => 1,
            ComposeError::NoSuchAutomaton(_) => 20,
            ComposeError::OwnOverlap(_) => 21,
            ComposeError::InternalShared(_) => 22,
            ComposeError::OutputShared(_) => 23,
            ComposeError::ShapeDiffers(_) => 24,
            ComposeError::TooManyComponents => 25,
            ComposeError::NotAnOutput(_) => 36,
        }
    }

    fn place(&self) -> Option<usize> {
        match self {
            ComposeError::NoMemory => None,
            ComposeError::NoSuchAutomaton(component) => Some(*component),
            ComposeError::OwnOverlap(component) => Some(*component),
            ComposeError::InternalShared(component) => Some(*component),
            ComposeError::OutputShared(component) => Some(*component),
            ComposeError::ShapeDiffers(component) => Some(*component),
            ComposeError::TooManyComponents => Some(1024),
            ComposeError::NotAnOutput(name) => Some(*name),
        }
    }
}

impl From<NoMemory> for ComposeError {
    ghost from_gives = { λ _ e. e ≡ OutOfMemory };

    fn from(_refused: NoMemory) -> ComposeError {
        ComposeError::NoMemory
    }
}

impl From<AllocError> for ComposeError {
    ghost from_gives = { λ _ e. e ≡ OutOfMemory };

    fn from(_refused: AllocError) -> ComposeError {
        ComposeError::NoMemory
    }
}
