//! What a step of a world answers, and why it is refused.

use event_keys::Key;
use rollback::ProcessRefused;
use terms::Refusal;
use thiserror::Error;

/// What a step that was done answers.
#[derive(Clone, Copy, PartialEq, Eq)]
pub enum Reply {
    /// The key of the entry that was done.
    Processed(Key),
    /// The number of the entries that were taken back.
    Delivered(u64),
    Met,
    /// The key of the entry that was taken back.
    RolledBack(Key),
    /// The number of the turns that were appended.
    Committed(u64),
}

/// Why a step was not done; the world stays as it was.
#[derive(Clone, Copy, Debug, PartialEq, Eq, Error)]
pub enum StepRefused {
    /// Only processing takes memory.
    #[error("out of memory")]
    NoMemory,
    /// No component has the number.
    #[error("no such component")]
    NoSuchComponent,
    /// No input is pending, and the component has no turn left.
    #[error("nothing is pending")]
    NothingPending,
    /// It isn't in flight; of a meeting, not both of the message and its antimessage are.
    #[error("no such message is in flight")]
    NoSuchMessage,
    /// The component has done nothing since its base.
    #[error("nothing to roll back")]
    NothingToRollBack,
    /// The bound is above global virtual time.
    #[error("the bound is above global virtual time")]
    AheadOfTime,
    /// The bound is below what is committed.
    #[error("the bound is below what is committed")]
    BehindCommit,
}

impl Refusal for StepRefused {
    ghost use Rattle.std.specs.Prelude.{None};
    ghost use Rattle.world.specs.Refusals.{step_number};

    ghost number_of = { step_number };

    ghost place_of = { λ _. None };

    fn number(&self) -> u8 {
        match self {
            StepRefused::NoMemory => 1,
            StepRefused::NoSuchComponent => 30,
            StepRefused::NothingPending => 31,
            StepRefused::NoSuchMessage => 32,
            StepRefused::NothingToRollBack => 33,
            StepRefused::AheadOfTime => 34,
            StepRefused::BehindCommit => 35,
        }
    }

    fn place(&self) -> Option<usize> {
        None
    }
}

impl From<ProcessRefused> for StepRefused {
    ghost use Rattle.std.specs.Prelude.{◌≡◌};
    ghost use Rattle.world.specs.Refusals.{refused_by};

    ghost from_gives = { λ refused e. e ≡ refused_by refused };

    fn from(refused: ProcessRefused) -> StepRefused {
        match refused {
            ProcessRefused::NoMemory => StepRefused::NoMemory,
            ProcessRefused::NothingPending => StepRefused::NothingPending,
        }
    }
}
