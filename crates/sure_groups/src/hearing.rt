//! Of which turns of other groups was heard.
ghost use Rattle.std.specs.Prelude.{◌≡◌, ◌<◌, ◌≤◌, false, true, Contains, None, slice_index_or};
ghost use Rattle.event_keys.specs.Ranks.{rank};
ghost use Rattle.shares.specs.declared.share.Wait.{Wait as Awaited};
ghost use Rattle.sure_groups.specs.Inputs.{heard_at};

use event_keys::Key;
use event_keys::laws::{key_rank_law, rank_law};
use shares::Wait;

/// The number of a group, and of each component its group; and of each group the key up to which all that its turns bring to this one was heard, or none
/// where that is the end. Of its own turns a group hears as it takes them.
#[derive(Drop)]
pub(crate) struct Hearing {
    pub(crate) me: u16,
    pub(crate) groups: Vec<u16>,
    pub(crate) heard: Vec<Option<Key>>,
}

// Whether all the turns that are awaited were heard of.
pub(crate) fn has_heard(heard: &[Option<Key>], waits: &[Wait]) -> bool
    ensures heard { result ≡ true → (wait : Awaited) → Contains waits.now wait
        → rank wait.last < heard_at heard.now wait.group }
    ensures not { result ≡ false → (wait : Awaited) × Contains waits.now wait
        × (heard_at heard.now wait.group ≤ rank wait.last) }
{
    for wait in waits {
        if !is_heard(heard, *wait) {
            return false;
        }
    }
    true
}

#[tactic(auto, using(crate::proofs::Coming::below_end))]
fn is_heard(heard: &[Option<Key>], wait: Wait) -> bool
    ensures heard { result ≡ true → rank wait.last < heard_at heard.now wait.group }
    ensures not { result ≡ false → heard_at heard.now wait.group ≤ rank wait.last }
{
    match heard_of(heard, wait.group) {
        None => {
            rank_law(wait.last);
            true
        }
        Some(key) => {
            key_rank_law(wait.last, key);
            wait.last < key
        }
    }
}

// Up to which key the turns of a group were heard of.
fn heard_of(heard: &[Option<Key>], group: u16) -> Option<Key>
    ensures { result ≡ slice_index_or heard.now group None }
{
    match heard.get(usize::from(group)) {
        Some(key) => *key,
        None => None,
    }
}
