//! What a thread has for itself, and what threads lend each other.

use crate::activity::Activity;
use crate::desk::Desk;
use boards::{Pass, Sectioned};
use event_keys::Turned;
use group_exchange::{Lease, Parcel, Stub, Window};
use gvt::Seat;
use partitions::Cut;
use raw_events::EventList;
use std::collections::LinkedList;
use steering::Vigil;
use task_seed::{Setup, Turns};

/// Of an exchange what never changes: its setup, of each component the number of its group, and its window, if it has one. No value of it is made.
pub struct Division<T: Turns> {
    pub setup: Setup<T>,
    pub groups: LinkedList<u16>,
    pub window: Option<Window>,
}

// The exchange, which one thread at a time has. Its sections are what is kept of the groups, but for their inboxes: what only the worker of the
// group changes.
#[derive(Drop)]
pub(crate) struct Lent<T: Turns> {
    pub(crate) desk: Box<Desk<T>>,
}

impl<T: Turns> Sectioned<Division<T>, Stub> for Lent<T> {
    ghost use Rattle.std.specs.Prelude.{map};
    ghost use Rattle.group_exchange.specs.ExchangeView.{without_inbox};

    ghost kind_of = { λ lent. record {
      setup = lent.desk.value.exchange.setup;
      groups = lent.desk.value.exchange.groups;
      window = lent.desk.value.exchange.window;
    } };

    ghost sections_of = { λ lent. map without_inbox lent.desk.value.exchange.stubs };
}

// A worker: its pass of the exchange, its seat of the published count, its group, spare cells for the turns of that, and how it waits.
#[derive(Drop)]
pub(crate) struct Worker<T: Turns> {
    pub(crate) pass: Pass<Lent<T>, Division<T>, Stub>,
    pub(crate) seat: Seat,
    pub(crate) lease: Lease<T>,
    pub(crate) vigil: Vigil,
}

// The calling thread's pass of the exchange, its seat of the published count, what was counted when it took turns last, where chunks come, and how
// many pairs of components the groups cut.
#[derive(Drop)]
pub(crate) struct Caller<T: Turns> {
    pub(crate) pass: Pass<Lent<T>, Division<T>, Stub>,
    pub(crate) seat: Seat,
    pub(crate) activity: Activity,
    pub(crate) parcel: Parcel,
    pub(crate) cut: Cut,
}
