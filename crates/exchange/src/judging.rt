//! Whether a lease can meet what workers share.
ghost use Rattle.std.specs.Prelude.{◌≡◌, ◌==◌, ◌↔◌, true, false, IfErr, IsOk, IsErrOf, None};
ghost use Rattle.task_seed.specs.Setups.{system};
ghost use Rattle.event_keys.specs.Ranks.{rank_of_bound};
ghost use Rattle.rollback.specs.ComponentView.{machine_of};
ghost use Rattle.exchange.specs.Known.{IsKnown};
ghost use Rattle.exchange.specs.Seen.{Knows, is_own};

use crate::exchange::Exchange;
use crate::holding::Holding;
use crate::lease::Lease;
use crate::stub::Stub;
use crate::window::is_same_window;
use event_keys::Bound;
use event_keys::laws::bound_rank_law;
use task_seed::laws::equal_setup_law;
use task_seed::{Setup, Turns};
use terms::Refusal;
use thiserror::Error;

/// Why a lease can't meet the exchange; neither changes.
#[derive(Clone, Copy, Debug, PartialEq, Eq, Error)]
pub enum MeetRefused {
    /// The lease is of another setup, or of another window.
    #[error("another setup or window")]
    OtherSetup,
    /// Base, floor, taken messages or standing sends aren't those that are kept of the lease's component.
    #[error("a stranger")]
    Stranger,
}

impl Refusal for MeetRefused {
    ghost use Rattle.std.specs.Prelude.{None};
    ghost use Rattle.exchange.specs.Refusals.{meet_number};

    ghost number_of = { meet_number };

    ghost place_of = { λ _. None };

    fn number(&self) -> u8 {
        match self {
            MeetRefused::OtherSetup => 40,
            MeetRefused::Stranger => 41,
        }
    }

    fn place(&self) -> Option<usize> {
        None
    }
}

fn is_same_bound(a: Bound, b: Bound) -> bool
    ensures { result ≡ (rank_of_bound a == rank_of_bound b) }
{
    bound_rank_law(a, b);
    a.cmp(&b).is_eq()
}

// Whether what is kept of a component is what the lease has.
fn is_known<T: Turns>(stub: &Stub, lease: &Holding<T>) -> bool
    ensures { (result ≡ true)
        ↔ IsKnown (machine_of T.turn_of lease.now.component.setup) stub.now lease.now }
{
    if !is_same_bound(lease.component.base(), stub.base) {
        return false;
    }
    if !is_same_bound(lease.floor, stub.floor) {
        return false;
    }
    if !lease.component.has_taken(&stub.taken, &lease.tray) {
        return false;
    }
    lease.component.has_standing(&stub.standing, &lease.out)
}

impl<T: Turns> Exchange<T> {
    /// Whether a lease can meet the exchange: exactly where its setup and window are the exchange's (else 40), and base, floor, taken messages
    /// and standing sends are those that are kept of its component (else 41).
    pub fn judge(&self, lease: &Lease<T>) -> Result<(), MeetRefused>
        ensures ok { IsOk result ↔
            ((is_own ⟦<Setup<T> as PartialEq>⟧.eq self.now lease.now ≡ true)
            × Knows T.turn_of self.now lease.now) }
        ensures other { IsErrOf result MeetRefused.OtherSetup
            ↔ (is_own ⟦<Setup<T> as PartialEq>⟧.eq self.now lease.now ≡ false) }
    {
        if !self.is_own(lease) {
            return Err(MeetRefused::OtherSetup);
        }
        self.judge_own(lease)
    }

    // Whether a lease's setup and window are the exchange's; then both setups mean the same.
    pub(crate) fn is_own(&self, lease: &Lease<T>) -> bool
        ensures answer { result ≡ is_own ⟦<Setup<T> as PartialEq>⟧.eq self.now lease.now }
        ensures same { result ≡ true
            → system T.turn_of self.now.setup ≡ system T.turn_of lease.now.component.setup }
        ensures window { result ≡ true → self.now.window ≡ lease.now.window }
    {
        if !self.has_setup(&lease.holding) {
            return false;
        }
        is_same_window(self.window, lease.window())
    }

    // Whether a lease's setup is the exchange's; then both mean the same.
    fn has_setup(&self, lease: &Holding<T>) -> bool
        ensures answer { result ≡ ⟦<Setup<T> as PartialEq>⟧.eq self.now.setup
            lease.now.component.setup }
        ensures same { result ≡ true → system T.turn_of self.now.setup
            ≡ system T.turn_of lease.now.component.setup }
    {
        let setup = lease.component.setup();
        equal_setup_law(&self.setup, setup);
        *self.setup == *setup
    }

    // The same of a lease whose setup means what the exchange's does, and whose window is the exchange's.
    pub(crate) fn judge_own(&self, lease: &Lease<T>) -> Result<(), MeetRefused>
        requires same { system T.turn_of self.now.setup
            ≡ system T.turn_of lease.now.component.setup }
        ensures ok { IsOk result ↔ Knows T.turn_of self.now lease.now }
        ensures stranger { IfErr result (λ refused. refused ≡ MeetRefused.Stranger) }
    {
        self.judge_held(&lease.holding)
    }

    // The same of what a lease holds.
    fn judge_held(&self, lease: &Holding<T>) -> Result<(), MeetRefused>
        requires same { system T.turn_of self.now.setup
            ≡ system T.turn_of lease.now.component.setup }
        ensures ok { IsOk result ↔ Knows T.turn_of self.now lease.now }
        ensures stranger { IfErr result (λ refused. refused ≡ MeetRefused.Stranger) }
    {
        let Some(stub) = self.stubs.get(usize::from(lease.component.number())) else {
            return Err(MeetRefused::Stranger);
        };
        if is_known(stub, lease) {
            Ok(())
        } else {
            Err(MeetRefused::Stranger)
        }
    }
}
