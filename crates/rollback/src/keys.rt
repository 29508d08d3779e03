//! Keys and bounds as the ranks that they have.
ghost use Rattle.std.specs.Prelude.{◌≡◌, ◌<◌, nat_lt};
ghost use Rattle.event_keys.specs.Ranks.{rank, rank_of_bound};
ghost use Rattle.antimessage.specs.Order.{KeyFits};
ghost use Rattle.virtual_time.specs.Entries.{entry_key};
ghost use Rattle.task_seed.specs.Machines.{end_rank};
ghost use Rattle.rollback.specs.ComponentInvariant.{entry_of};

use event_keys::laws::{bound_rank_law, key_rank_law, rank_law};
use event_keys::{Bound, Key};
use message_balance::Done;

/// The numbers of a key fit their types, and its rank is below the end's.
#[tactic(auto, using(crate::proofs::Sending::end_is))]
pub(crate) fn fits(key: Key)
    ensures numbers { KeyFits key }
    ensures timed { rank key < end_rank }
{
    rank_law(key);
}

/// The key of a done entry.
pub(crate) fn key_of(done: &Done) -> Key
    ensures { rank result ≡ entry_key (entry_of done.now) }
{
    match done {
        Done::Turn(turned, _) => turned.value().key,
        Done::Input(input) => input.value().message.key,
    }
}

pub(crate) fn is_below(a: Key, b: Key) -> bool
    ensures { result ≡ nat_lt (rank a) (rank b) }
{
    key_rank_law(a, b);
    a < b
}

pub(crate) fn is_below_bound(key: Key, bound: Bound) -> bool
    ensures { result ≡ nat_lt (rank key) (rank_of_bound bound) }
{
    bound_rank_law(Bound::At(key), bound);
    Bound::At(key) < bound
}
