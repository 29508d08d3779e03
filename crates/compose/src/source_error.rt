//! Why a source text has no composition.

use crate::fault::ComposeError;
use ioa_check::CheckError;
use ioa_front::ReadError;
use terms::Refusal;
use thiserror::Error;

/// Why a source isn't composed. Each has the number and the place of the refusal inside.
#[derive(Clone, Copy, Debug, PartialEq, Eq, Error)]
pub enum SourceError {
    /// It isn't read; the place is a byte.
    #[error("{0}")]
    Read(ReadError),
    /// It has a fault; the place is a token.
    #[error("{0}")]
    Check(CheckError),
    /// Its components can't be composed; the place is a component, or a hidden name.
    #[error("{0}")]
    Compose(ComposeError),
}

impl Refusal for SourceError {
    ghost use Rattle.compose.specs.Refusals.{source_number, source_place};

    ghost number_of = { source_number };

    ghost place_of = { source_place };

    fn number(&self) -> u8 {
        match self {
            SourceError::Read(refused) => refused.number(),
            SourceError::Check(refused) => refused.number(),
            SourceError::Compose(refused) => refused.number(),
        }
    }

    fn place(&self) -> Option<usize> {
        match self {
            SourceError::Read(refused) => refused.place(),
            SourceError::Check(refused) => refused.place(),
            SourceError::Compose(refused) => refused.place(),
        }
    }
}
