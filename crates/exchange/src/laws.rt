//! The laws of leases and exchanges. Each function does nothing: its contract is the law.
ghost use Rattle.std.specs.Prelude.{◌≡◌, ◌↔◌, true, length, map};
ghost use Rattle.pools.specs.Places.{AreAlike, AreOnce};
ghost use Rattle.task_seed.specs.Taken.{turns_of};
ghost use Rattle.task_seed.specs.declared.setup.Setup.{Setup as SetupValue};
ghost use Rattle.exchange.specs.Held.{put_all};
ghost use Rattle.exchange.specs.Same.{AreEqualExchanges, AreEqualLeases};
ghost use Rattle.exchange.specs.Start.{number_of, setup_of, start_leases};

use crate::exchange::Exchange;
use crate::lease::Lease;
use rollback::Component;
use task_seed::{Setup, Turns};

/// Two leases are equal exactly where their components are, and their trays, outgoing messages, floors and windows are the same.
pub fn equal_lease_law<T: Turns>(a: &Lease<T>, b: &Lease<T>)
    ensures { (⟦<Lease<T> as PartialEq>⟧.eq a.now b.now ≡ true)
        ↔ AreEqualLeases ⟦<Component<T> as PartialEq>⟧.eq a.now b.now }
{}

/// Two exchanges are equal exactly where their setups are, and their windows, bounds, the turns held, the numbers given, and what is compared
/// of their stubs are the same.
pub fn equal_exchange_law<T: Turns>(a: &Exchange<T>, b: &Exchange<T>)
    ensures { (⟦<Exchange<T> as PartialEq>⟧.eq a.now b.now ≡ true)
        ↔ AreEqualExchanges ⟦<Setup<T> as PartialEq>⟧.eq a.now b.now }
{}

/// What exchanges hold of each component follows from what they hold in all, of which `meet` tells: where that is the same, so is this.
pub fn held_law<T: Turns>(a: &Exchange<T>, b: &Exchange<T>)
    requires many { length a.now.held ≡ length b.now.held }
    requires same { put_all a.now.held ≡ put_all b.now.held }
    ensures { map turns_of a.now.held ≡ map turns_of b.now.held }
{
    a.soundness_law();
    b.soundness_law();
}

/// What a pool asks of the leases of an exchange at its start: no two have one number, and all are of one setup.
pub fn pooled_leases_law<T: Turns>()
    ensures once { (setup : SetupValue T) → AreOnce (map number_of (start_leases T.turn_of setup)) }
    ensures alike { (setup : SetupValue T) → AreAlike setup_of (start_leases T.turn_of setup) }
{}
