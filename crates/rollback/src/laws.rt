//! The laws of components. Each function does nothing: its contract is the law.
ghost use Rattle.std.specs.Prelude.{◌≡◌, true};
ghost use Rattle.rollback.specs.Flight.{IsComparable};
ghost use Rattle.rollback.specs.Laws.{AntimessagesAreMet, AntimessagesStay, AppendedIsAdded, BelowIsDropped, FoundIsInFlight, LeastIsGreatest, MessagesAreCancelled, MessagesAreMet, NextIsGreatest, NoneIsBelowLeast, NoneRuns, OneIsTakenOut, OneMoreRuns, OwnIsNotBelowNext, PairIsInFlight, PendingIsNotBelowNext, RestGoesToOthers, SameFlightIsSame, SplitGoesToOne};
ghost use Rattle.rollback.specs.Same.{HaveEqualParts};

use crate::component::Component;
use antimessage::laws::counts_law;
use event_keys::Bound;
use task_seed::{Setup, Turns};

/// Two components are equal exactly where their setups are, and their numbers, bases and records are the same.
pub fn equal_law<T: Turns>(a: &Component<T>, b: &Component<T>)
    ensures parts { ⟦<Component<T> as PartialEq>⟧.eq a.now b.now ≡ true
        → HaveEqualParts ⟦<Setup<T> as PartialEq>⟧.eq a.now b.now }
    ensures equal { HaveEqualParts ⟦<Setup<T> as PartialEq>⟧.eq a.now b.now
        → ⟦<Component<T> as PartialEq>⟧.eq a.now b.now ≡ true }
{}

/// Entries processed one after the other: none, and one more.
pub fn run_law<S>()
    ensures none { NoneRuns S }
    ensures more { OneMoreRuns S }
{}

/// The numbers of a bound that a call is given fit their types.
pub fn comparable_law(bound: Bound)
    ensures { IsComparable bound }
{}

/// The key of the next entry is not above that of the own turn nor any pending one, and it is the greatest bound of which that holds.
pub fn next_law<S>()
    ensures own { OwnIsNotBelowNext S }
    ensures pending { PendingIsNotBelowNext S }
    ensures most { NextIsGreatest S }
{}

/// The key of a bag's first message is not above that of any, and it is the greatest bound of which that holds.
pub fn least_law()
    ensures low { NoneIsBelowLeast }
    ensures most { LeastIsGreatest }
{}

/// What the calls of a bag do to what is in flight in the theory, message by message.
pub fn flight_law()
    ensures appended { AppendedIsAdded }
    ensures to { SplitGoesToOne }
    ensures not_to { RestGoesToOthers }
    ensures messages_cancelled { MessagesAreCancelled }
    ensures antimessages_stay { AntimessagesStay }
    ensures messages_met { MessagesAreMet }
    ensures antimessages_met { AntimessagesAreMet }
    ensures dropped { BelowIsDropped }
{}

/// What leaves a bag leaves what is in flight, a message is there where it is in flight, and bags that have the same in flight are the same.
pub fn leaving_law()
    ensures removed { OneIsTakenOut }
    ensures found { FoundIsInFlight }
    ensures pair { PairIsInFlight }
    ensures one { SameFlightIsSame }
{
    counts_law();
}
