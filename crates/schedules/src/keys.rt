//! Keys as the code has them.
ghost use Rattle.schedules.specs.Schedules.{KeyFits};

use event_keys::Key;

/// The numbers of a key fit their types. The call does nothing: whoever reads a key for it knows that.
#[inline(always)]
pub fn fits(key: Key)
    ensures { KeyFits key }
{}
