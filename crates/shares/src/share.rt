//! What of the turns that are drawn is a group's.

use event_keys::Key;
use reference::Due;
use smallvec::SmallVec;

/// A turn of another group that a turn awaits: once that group has taken it and all before it, nothing more comes from there.
#[derive(Clone, Copy)]
pub struct Wait {
    pub group: u16,
    pub last: Key,
}

impl Default for Wait {
    ghost use Rattle.std.specs.Prelude.{◌≡◌};

    ghost is_default = { λ wait. wait ≡ record {
      group = 0;
      last = record { tick = 0; component = 0; number = 0 };
    } };

    fn default() -> Wait {
        Wait {
            group: 0,
            last: Key {
                tick: 0,
                component: 0,
                number: 0,
            },
        }
    }
}

/// A turn of a group, and the turns that it awaits: of each other group that may send to its component the last one before it that may do so.
#[derive(Drop)]
pub struct Own {
    pub due: Due,
    pub waits: SmallVec<Wait, 2>,
}

/// The turns of a group, in order, from the key `from` on up to the key `until`, or to the end.
#[derive(Drop)]
pub struct Share {
    pub own: Vec<Own>,
    pub from: Option<Key>,
    pub until: Option<Key>,
}
