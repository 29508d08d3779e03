//! What the lock protects: the exchange, and what goes with it.
ghost use Rattle.std.specs.Prelude.{◌≡◌, length};
ghost use Rattle.group_exchange.specs.LeaseView.{KeepsMembers};
ghost use Rattle.group_exchange.specs.Seen.{KeepsOthers, Knows};
ghost use Rattle.workers.specs.Crews.{StaysDivided};

use crate::activity::Activity;
use event_keys::Turned;
use group_exchange::{Exchange, Lease};
use raw_events::EventList;
use std::alloc::Global;
use steering::{Raises, Ready, Signals};
use task_seed::Turns;
use terms::NoMemory;

// The exchange, when its bound is to be raised, how many turns are below that, and below all bases, cells of turns that were written, which serve
// again, what was counted, and how many entries of the group that visited last were taken back since it had visited before.
#[derive(Drop)]
pub(crate) struct Desk<T: Turns> {
    pub(crate) exchange: Exchange<T>,
    pub(crate) raises: Raises,
    pub(crate) count: u64,
    pub(crate) ready: Ready,
    pub(crate) spare: EventList<Turned>,
    pub(crate) activity: Activity,
    pub(crate) lost: u64,
}

// What a worker did since its last visit.
#[derive(Clone, Copy)]
pub(crate) struct Report {
    // How many entries.
    pub(crate) done: u64,
    // How many microseconds it slept.
    pub(crate) waited: u64,
    // How many ticks its group may run ahead of all others.
    pub(crate) leash: u64,
    // Whether it can go on only after the bound has risen.
    pub(crate) waits: bool,
}

// A lease meets the exchange, whose bound is raised now and then, and those are called to whom something came.
pub(crate) fn meet<T: Turns>(
    alloc: Global,
    desk: &mut Desk<T>,
    lease: &mut Lease<T>,
    signals: &Signals,
    report: Report,
) -> Result<(), NoMemory>
    requires own { lease.old.setup ≡ desk.old.exchange.setup }
    requires window { lease.old.window ≡ desk.old.exchange.window }
    requires known { Knows T.turn_of desk.old.exchange lease.old }
    ensures known { Knows T.turn_of desk.new.exchange lease.new }
    ensures others { KeepsOthers lease.old.number desk.old.exchange desk.new.exchange }
    ensures there { length desk.new.exchange.stubs ≡ length desk.old.exchange.stubs }
    ensures divided { StaysDivided desk.old.exchange desk.new.exchange }
    ensures same { KeepsMembers lease.old lease.new }
    ensures window { lease.new.window ≡ desk.new.exchange.window }
{
    desk.exchange.meet_known(alloc, lease)?;
    desk.ready.meet(lease.number(), desk.count);
    let effort = lease.take_effort();
    desk.lost = effort.taken_back;
    desk.activity.visit(effort, report.waited, report.leash);
    lease.add_spare(&mut desk.spare);
    call_all(&mut desk.exchange, signals);
    if desk.raises.is_due(report.done, report.waits) {
        let before = desk.exchange.bound();
        desk.count = desk.exchange.commit();
        if desk.exchange.bound() != before {
            signals.rise();
        }
    }
    Ok(())
}

// Calls those to whom something came.
fn call_all<T: Turns>(exchange: &mut Exchange<T>, signals: &Signals)
    ensures { exchange.new ≡ exchange.old }
{
    for _ in 0..signals.groups() {
        let Some(group) = exchange.take_receiver() else {
            return;
        };
        signals.call(group);
    }
}
