//! Why bytes aren't read as a source.
ghost use Rattle.std.specs.Prelude.{◌≡◌};
ghost use Rattle.ioa_front.specs.Reading.{lifted};

use ioa_tokens::TokensError;
use terms::Refusal;
use thiserror::Error;

/// Why bytes aren't read as a source. Places are those of bytes, counted from 0.
#[derive(Clone, Copy, Debug, PartialEq, Eq, Error)]
pub enum ReadError {
    #[error("out of memory")]
    NoMemory,
    /// The first byte of 128 or more.
    #[error("the byte at {0} is not ASCII")]
    NotAscii(usize),
    /// The first byte that begins neither a token nor a blank nor a comment.
    #[error("no token begins at {0}")]
    BadToken(usize),
    /// The first byte of the first token with which no source goes on; the number of bytes where the text ends too early.
    #[error("no source goes on at {0}")]
    Syntax(usize),
    /// More than 65,536 bytes.
    #[error("the source is too large")]
    TooLarge,
    /// A token stands inside of more than 64 pairs and prefixes.
    #[error("the source is nested too deep")]
    TooDeep,
}

impl Refusal for ReadError {
    ghost use Rattle.ioa_front.specs.Refusals.{read_number, read_place};

    ghost number_of = { read_number };

    ghost place_of = { read_place };

    fn number(&self) -> u8 {
        match self {
            ReadError::NoMemory => 1,
            ReadError::NotAscii(_) => 2,
            ReadError::BadToken(_) => 3,
            ReadError::Syntax(_) => 4,
            ReadError::TooLarge => 5,
            ReadError::TooDeep => 6,
        }
    }

    fn place(&self) -> Option<usize> {
        match self {
            ReadError::NotAscii(at) => Some(*at),
            ReadError::BadToken(at) => Some(*at),
            ReadError::Syntax(at) => Some(*at),
            ReadError::NoMemory | ReadError::TooLarge | ReadError::TooDeep => None,
        }
    }
}

impl From<TokensError> for ReadError {
    ghost from_gives = { λ refused e. e ≡ lifted refused };

    fn from(refused: TokensError) -> ReadError {
        match refused {
            TokensError::NoMemory => ReadError::NoMemory,
            TokensError::NotAscii(at) => ReadError::NotAscii(at),
            TokensError::BadToken(at) => ReadError::BadToken(at),
        }
    }
}
