//! Why a source has no tokens.
ghost use Rattle.std.specs.Prelude.{◌≡◌};
ghost use Rattle.ioa_tokens.specs.declared.fault.TokensError.TheVariants.{NoMemory as OutOfMemory};

use std::alloc::{AllocError, AllocFailed};
use terms::{NoMemory, Refusal};
use thiserror::Error;

/// Why a source has no tokens. Places are those of bytes, counted from 0.
#[derive(Clone, Copy, Debug, PartialEq, Eq, Error)]
pub enum TokensError {
    #[error("out of memory")]
    NoMemory,
    /// The first byte of 128 or more.
    #[error("the byte at {0} is not ASCII")]
    NotAscii(usize),
    /// The first byte that begins neither a token nor a blank nor a comment.
    #[error("no token begins at {0}")]
    BadToken(usize),
}

impl Refusal for TokensError {
    ghost use Rattle.ioa_tokens.specs.Refusals.{tokens_number, tokens_place};

    ghost number_of = { tokens_number };

    ghost place_of = { tokens_place };

    fn number(&self) -> u8 {
        match self {
            TokensError::NoMemory => 1,
            TokensError::NotAscii(_) => 2,
            TokensError::BadToken(_) => 3,
        }
    }

    fn place(&self) -> Option<usize> {
        match self {
            TokensError::NoMemory => None,
            TokensError::NotAscii(at) => Some(*at),
            TokensError::BadToken(at) => Some(*at),
        }
    }
}

impl From<NoMemory> for TokensError {
    ghost from_gives = { λ _ e. e ≡ OutOfMemory };

    fn from(_refused: NoMemory) -> TokensError {
        TokensError::NoMemory
    }
}

impl From<AllocError> for TokensError {
    ghost from_gives = { λ _ e. e ≡ OutOfMemory };

    fn from(_refused: AllocError) -> TokensError {
        TokensError::NoMemory
    }
}

impl<T: Drop> From<AllocFailed<T>> for TokensError {
    ghost from_gives = { λ _ e. e ≡ OutOfMemory };

    fn from(_refused: AllocFailed<T>) -> TokensError {
        TokensError::NoMemory
    }
}
