//! When two leases are equal, and when two exchanges are.
ghost use Rattle.std.specs.Prelude.{◌≡◌};
ghost use Rattle.std.specs.Cmp.{partial_equiv_from_equiv};
ghost use Rattle.rollback.specs.SameLaws.{setup_equiv, same_held_equiv};
ghost use Rattle.exchange.specs.Same.{same_lease, same_place, same_messages, same_stub, same_exchange};
ghost use Rattle.exchange.specs.SameLaws.{same_lease_equiv, same_stub_equiv, same_exchange_equiv};

use crate::exchange::Exchange;
use crate::holding::Holding;
use crate::lease::Lease;
use crate::stub::Stub;
use crate::window::is_same_window;
use rollback::Component;
use task_seed::{Setup, Turns};

impl<T: Turns> PartialEq for Holding<T> {
    ghost eq = { same_lease ⟦<Component<T> as PartialEq>⟧.eq };

    ghost laws = { partial_equiv_from_equiv
        (same_lease_equiv (same_held_equiv (setup_equiv T.Eq.laws))) };

    fn eq(&self, other: &Holding<T>) -> bool {
        self.component == other.component
            && self.tray == other.tray
            && self.out == other.out
            && self.floor == other.floor
            && is_same_window(self.window, other.window)
    }
}

/// Two leases are equal where their components are, and their trays, outgoing messages, floors and windows. The copies of what is outgoing
/// aren't looked at: there are always two of each message. Nor is what was counted.
impl<T: Turns> PartialEq for Lease<T> {
    ghost eq = { same_lease ⟦<Component<T> as PartialEq>⟧.eq };

    ghost laws = { partial_equiv_from_equiv
        (same_lease_equiv (same_held_equiv (setup_equiv T.Eq.laws))) };

    fn eq(&self, other: &Lease<T>) -> bool {
        self.holding == other.holding
    }
}

impl<T: Turns> Eq for Lease<T> {
    ghost laws = { same_lease_equiv (same_held_equiv (setup_equiv T.Eq.laws)) };
}

impl Stub {
    fn has_same_place(&self, other: &Stub) -> bool
        ensures { result ≡ same_place self.now other.now }
    {
        self.base == other.base && self.floor == other.floor
    }

    fn has_same_messages(&self, other: &Stub) -> bool
        ensures { result ≡ same_messages self.now other.now }
    {
        self.taken == other.taken && self.standing == other.standing && self.inbox == other.inbox
    }
}

/// Two stubs are equal where their bases and floors are, and their taken messages, standing sends and inboxes. The copies of the
/// inbox's messages and the number of turns that are counted aren't looked at: in an exchange there are as many copies as messages,
/// and the turns are those below the bound.
impl PartialEq for Stub {
    ghost eq = { same_stub };

    ghost laws = { partial_equiv_from_equiv same_stub_equiv };

    fn eq(&self, other: &Stub) -> bool {
        self.has_same_place(other) && self.has_same_messages(other)
    }
}

impl Eq for Stub {
    ghost laws = { same_stub_equiv };
}

/// Two exchanges are equal where their setups and windows are, and their bounds, the turns taken in and not yet given, the numbers of those
/// that were given, and their stubs one by one.
impl<T: Turns> PartialEq for Exchange<T> {
    ghost eq = { same_exchange ⟦<Setup<T> as PartialEq>⟧.eq };

    ghost laws = { partial_equiv_from_equiv (same_exchange_equiv (setup_equiv T.Eq.laws)) };

    fn eq(&self, other: &Exchange<T>) -> bool {
        self.setup == other.setup
            && is_same_window(self.window, other.window)
            && self.bound == other.bound
            && self.given == other.given
            && self.held == other.held
            && self.stubs == other.stubs
    }
}

impl<T: Turns> Eq for Exchange<T> {
    ghost laws = { same_exchange_equiv (setup_equiv T.Eq.laws) };
}
