// Why a reader stops.

ghost use Rattle.std.specs.Prelude.{◌≡◌};
ghost use Rattle.ioa_phrases.specs.declared.stop.Stop.TheVariants.{Memory};

use std::alloc::{AllocError, AllocFailed};

/// Why a reader stops. A fault has the number of tokens that are left, the first of them at fault.
#[derive(Clone, Copy)]
pub enum Stop {
    /// No memory.
    Memory,
    /// No text of the grammar goes on with this token.
    Syntax(usize),
    /// The token stands inside of more than 64 pairs and prefixes.
    Deep(usize),
}

impl From<AllocError> for Stop {
    ghost from_gives = { λ _ e. e ≡ Memory };

    fn from(_error: AllocError) -> Self {
        Stop::Memory
    }
}

impl<T: Drop> From<AllocFailed<T>> for Stop {
    ghost from_gives = { λ _ e. e ≡ Memory };

    fn from(_error: AllocFailed<T>) -> Self {
        Stop::Memory
    }
}

// What there is. Where it is an error, the function ends with that, and lets these values go by a call each. A `?` takes them apart in place, which is dear to prove.
macro_rules! or_stop {
    ($read:expr, $($held:ident),+) => {
        match $read {
            Ok(found) => found,
            Err(stop) => {
                $(drop($held);)+
                return Err(stop.into());
            }
        }
    };
}

pub(crate) use or_stop;
