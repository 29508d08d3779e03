//! Meetings of a lease that is compared with what workers share.
ghost use Rattle.std.specs.Prelude.{◌≡◌, ◌↔◌, true, false, length, IfErr, IfOk, IsOk, IsErrOf, OnErr, OnOk};
ghost use Rattle.task_seed.specs.Setups.{system};
ghost use Rattle.group_exchange.specs.declared.judging.MeetRefused.TheVariants.{NoMemory as OutOfMemory};
ghost use Rattle.group_exchange.specs.Compared.{is_own, same_window};
ghost use Rattle.group_exchange.specs.LeaseView.{KeepsMembers};
ghost use Rattle.group_exchange.specs.Seen.{IsMeeting, IsSoundLease, Knows};

use crate::exchange::Exchange;
use crate::lease::Lease;
use crate::matching::{are_members, is_known};
use event_keys::Bound;
use groups::{Group, Window};
use std::alloc::Global;
use task_seed::laws::equal_setup_law;
use task_seed::{Setup, Turns};
use terms::{NoMemory, Refusal};
use thiserror::Error;

/// Why a lease didn't meet the exchange; neither changes.
#[derive(Clone, Copy, Debug, PartialEq, Eq, Error)]
pub enum MeetRefused {
    #[error("out of memory")]
    NoMemory,
    /// The lease is of another setup, or has another window.
    #[error("another setup")]
    OtherSetup,
    /// The lease is of none of the exchange's groups, or base, floor, taken messages or standing sends aren't those that are kept of its group.
    #[error("a stranger")]
    Stranger,
}

impl Refusal for MeetRefused {
    ghost use Rattle.std.specs.Prelude.{None};
    ghost use Rattle.group_exchange.specs.Refusals.{meet_number};

    ghost number_of = { meet_number };

    ghost place_of = { λ _. None };

    fn number(&self) -> u8 {
        match self {
            MeetRefused::NoMemory => 1,
            MeetRefused::OtherSetup => 40,
            MeetRefused::Stranger => 41,
        }
    }

    fn place(&self) -> Option<usize> {
        None
    }
}

impl From<NoMemory> for MeetRefused {
    ghost from_gives = { λ _ e. e ≡ OutOfMemory };

    fn from(_refused: NoMemory) -> MeetRefused {
        MeetRefused::NoMemory
    }
}

// Whether both have the same window, or neither has one.
fn is_same_window(a: Option<Window>, b: Option<Window>) -> bool
    ensures answer { result ≡ same_window a b }
    ensures same { result ≡ true → a ≡ b }
{
    match (a, b) {
        (None, None) => true,
        (Some(first), Some(second)) => first.turns() == second.turns(),
        (None, Some(_)) => false,
        (Some(_), None) => false,
    }
}

impl<T: Turns> Exchange<T> {
    /// Whether a lease can meet the exchange: exactly where its setup and window are the exchange's (else 40), and it is of one of the exchange's
    /// groups, with base, floor, taken messages and standing sends as they are kept of that (else 41). The time grows as the square of what the lease holds. It
    /// takes memory for copies, and where that is refused it tells so (1).
    pub fn judge(&self, alloc: Global, lease: &Lease<T>) -> Result<(), MeetRefused>
        ensures ok { IsOk result
            → (is_own ⟦<Setup<T> as PartialEq>⟧.eq self.now lease.now ≡ true)
            × Knows T.turn_of self.now lease.now }
        ensures other { IsErrOf result MeetRefused.OtherSetup
            ↔ (is_own ⟦<Setup<T> as PartialEq>⟧.eq self.now lease.now ≡ false) }
        ensures stranger { IsErrOf result MeetRefused.Stranger
            → Knows T.turn_of self.now lease.now → ⊥ }
    {
        if !self.is_own(lease) {
            return Err(MeetRefused::OtherSetup);
        }
        self.judge_own(alloc, lease)
    }

    // Whether a lease's setup and window are the exchange's; then both setups mean the same.
    pub(crate) fn is_own(&self, lease: &Lease<T>) -> bool
        ensures answer { result ≡ is_own ⟦<Setup<T> as PartialEq>⟧.eq self.now lease.now }
        ensures same { result ≡ true
            → system T.turn_of self.now.setup ≡ system T.turn_of lease.now.setup }
        ensures window { result ≡ true → self.now.window ≡ lease.now.window }
    {
        if !self.has_setup(lease.group.setup()) {
            return false;
        }
        is_same_window(self.window, lease.window())
    }

    // Whether a setup is the exchange's; then both mean the same.
    fn has_setup(&self, setup: &Setup<T>) -> bool
        ensures answer { result ≡ ⟦<Setup<T> as PartialEq>⟧.eq self.now.setup setup.now }
        ensures same { result ≡ true
            → system T.turn_of self.now.setup ≡ system T.turn_of setup.now }
    {
        equal_setup_law(&self.setup, setup);
        *self.setup == *setup
    }

    // The same of a lease whose setup means what the exchange's does.
    fn judge_own(&self, alloc: Global, lease: &Lease<T>) -> Result<(), MeetRefused>
        requires same { system T.turn_of self.now.setup ≡ system T.turn_of lease.now.setup }
        ensures ok { IsOk result → Knows T.turn_of self.now lease.now }
        ensures other { IfErr result (λ refused. refused ≡ MeetRefused.OtherSetup → ⊥) }
        ensures stranger { IsErrOf result MeetRefused.Stranger
            → Knows T.turn_of self.now lease.now → ⊥ }
    {
        lease.soundness_law();
        if self.knows(alloc, &lease.group)? {
            Ok(())
        } else {
            Err(MeetRefused::Stranger)
        }
    }

    // Whether a sound group whose setup means what the exchange's does is the one that is kept of it.
    fn knows(&self, alloc: Global, group: &Group<T>) -> Result<bool, NoMemory>
        requires same { system T.turn_of self.now.setup ≡ system T.turn_of group.now.setup }
        requires valid { IsSoundLease T.turn_of group.now }
        ensures { IfOk result
            (λ known. (known ≡ true) ↔ Knows T.turn_of self.now group.now) }
    {
        let Some(stub) = self.stubs.get(usize::from(group.number())) else {
            return Ok(false);
        };
        if !are_members(&self.groups, self.setup.plan().components(), group) {
            return Ok(false);
        }
        is_known(alloc, stub, group)
    }

    /// A lease meets the exchange, as by `meet_known`, and is compared with what is kept of it before. It is accepted exactly where its setup and
    /// window are the exchange's (else 40), and it is of one of the exchange's groups, with base, floor, taken messages and standing sends as they are kept of that
    /// (else 41), unless memory is refused (1). A refusal changes neither. The comparison takes time that grows as the square of what the lease
    /// holds.
    ///
    /// In the whole world that the exchange and its leases stand for, wherever these are, messages meet their antimessages, and nothing else
    /// happens.
    pub fn meet(&mut self, alloc: Global, lease: &mut Lease<T>) -> Result<Bound, MeetRefused>
        ensures ok { IsOk result
            → (is_own ⟦<Setup<T> as PartialEq>⟧.eq self.old lease.old ≡ true)
            × Knows T.turn_of self.old lease.old }
        ensures other { IsErrOf result MeetRefused.OtherSetup
            ↔ (is_own ⟦<Setup<T> as PartialEq>⟧.eq self.old lease.old ≡ false) }
        ensures stranger { IsErrOf result MeetRefused.Stranger
            → Knows T.turn_of self.old lease.old → ⊥ }
        ensures bound { IfOk result (λ bound. bound ≡ self.old.bound) }
        ensures meeting { OnOk result (IsMeeting T.turn_of self.old lease.old self.new lease.new) }
        ensures there { length self.new.stubs ≡ length self.old.stubs }
        ensures rest { self.new ≡ record self.old { stubs = self.new.stubs; held = self.new.held } }
        ensures same { KeepsMembers lease.old lease.new }
        ensures kept { OnErr result ((self.new ≡ self.old) × (lease.new ≡ lease.old)) }
    {
        if !self.is_own(lease) {
            return Err(MeetRefused::OtherSetup);
        }
        self.meet_own(alloc, lease)
    }

    // The meeting with a lease whose setup means what the exchange's does.
    fn meet_own(&mut self, alloc: Global, lease: &mut Lease<T>) -> Result<Bound, MeetRefused>
        requires own { system T.turn_of self.old.setup ≡ system T.turn_of lease.old.setup }
        requires window { self.old.window ≡ lease.old.window }
        ensures ok { IsOk result → Knows T.turn_of self.old lease.old }
        ensures other { IfErr result (λ refused. refused ≡ MeetRefused.OtherSetup → ⊥) }
        ensures stranger { IsErrOf result MeetRefused.Stranger
            → Knows T.turn_of self.old lease.old → ⊥ }
        ensures bound { IfOk result (λ bound. bound ≡ self.old.bound) }
        ensures meeting { OnOk result (IsMeeting T.turn_of self.old lease.old self.new lease.new) }
        ensures there { length self.new.stubs ≡ length self.old.stubs }
        ensures rest { self.new ≡ record self.old { stubs = self.new.stubs; held = self.new.held } }
        ensures same { KeepsMembers lease.old lease.new }
        ensures kept { OnErr result ((self.new ≡ self.old) × (lease.new ≡ lease.old)) }
    {
        self.judge_own(alloc, lease)?;
        Ok(self.meet_known(alloc, lease)?)
    }
}
