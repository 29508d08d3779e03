//! What is kept of a group that a worker may hold.
ghost use Rattle.std.specs.Prelude.{◌≡◌};
ghost use Rattle.group_exchange.specs.ExchangeView.{clear_until, earlier};

use antimessage::Bag;
use event_keys::Bound;
use event_keys::laws::bound_rank_law;

/// What the exchange keeps of a group, whoever holds it: base and floor of its last meeting, the messages that its components have taken
/// from other groups, the messages that they have sent to other groups and not taken back, and the messages that are on their way to them.
#[derive(Drop)]
pub struct Stub {
    pub(crate) base: Bound,
    pub(crate) floor: Bound,
    pub(crate) taken: Bag,
    pub(crate) standing: Bag,
    pub(crate) inbox: Bag,
    // A copy of each message of the inbox.
    pub(crate) copies: Bag,
}

fn earlier(first: Bound, second: Bound) -> Bound
    ensures { result ≡ earlier first second }
{
    bound_rank_law(first, second);
    if first < second { first } else { second }
}

impl Stub {
    /// Up to where nothing of the group can come any more: the earlier of its floor and its inbox's least key.
    pub fn clear_until(&self) -> Bound
        ensures { result ≡ clear_until self.now }
    {
        earlier(self.floor, self.inbox.least())
    }
}
