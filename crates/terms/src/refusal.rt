//! What every refusal says of itself, and the want of memory.
ghost use Rattle.std.specs.Prelude.{◌≡◌, ℕ, Option, None};

use std::alloc::{AllocError, AllocFailed};
use thiserror::Error;

/// A refusal of a call: its number, and the place of what is refused.
pub trait Refusal {
    ghost number_of: { Self → ℕ };

    ghost place_of: { Self → Option ℕ };

    /// The number that the program prints, from 1 to 64.
    fn number(&self) -> u8
        ensures { result ≡ number_of self.now };

    /// The place (a byte, token, line or component, as the refusal says), where it has one.
    fn place(&self) -> Option<usize>
        ensures { result ≡ place_of self.now };
}

/// Memory was wanted and refused. Its number is 1.
#[derive(Clone, Copy, Debug, PartialEq, Eq, Error)]
#[error("out of memory")]
pub struct NoMemory;

impl Refusal for NoMemory {
    ghost number_of = { λ _. 1 };

    ghost place_of = { λ _. None };

    fn number(&self) -> u8 {
        1
    }

    fn place(&self) -> Option<usize> {
        None
    }
}

impl From<AllocError> for NoMemory {
    fn from(_refused: AllocError) -> NoMemory {
        NoMemory
    }
}

impl<T: Drop> From<AllocFailed<T>> for NoMemory {
    fn from(_refused: AllocFailed<T>) -> NoMemory {
        NoMemory
    }
}
