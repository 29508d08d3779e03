//! Calls that are refused their memory: each request, or under `scripts/refusals.py` one of them. Where the call isn't served, it is when it is made again.

use crate::exchanges::steps::setup;
use crate::rings::{ROWS, TEXT, assert_held, job_of, page_of, ring_setup, run_ring};
use exchange::{Exchange, Lease as LeaseOfOne};
use fixtures::memory::{Held, Refused, exhaust, refuse, room, serve};
use std::alloc::{AllocGlobal, Global};
use std::process::Abort;
use std::sync::atomic::{AtomicBool, AtomicU64, Ordering};
use std::sync::{Arc, Mutex};
use task_seed::{AnyTurns, TableTurns};
use terms::{NoMemory, Refusal};
use workers::{Gate, Lease, LoneGroup, Ran, Rest, RunFault, Stop, Summary, Took, Unheld, run};

type Shared = Exchange<TableTurns>;

type Leases = Vec<LeaseOfOne<TableTurns>>;

fn started(rt: &(impl Abort + AllocGlobal)) -> (Shared, Leases) {
    let setup = Arc::new(rt.alloc(), setup(rt, 1000)).expect(rt, "memory for a setup");
    Exchange::new(rt.alloc(), setup).expect(rt, "memory for an exchange")
}

fn started_later(rt: &(impl Abort + AllocGlobal), held: &mut Held) -> (Shared, Leases) {
    let setup = Arc::new(rt.alloc(), setup(rt, 1000)).expect(rt, "memory for a setup");
    let how = refuse(rt.alloc(), held);
    let first = Exchange::new(rt.alloc(), setup);
    serve(rt.alloc(), held);
    match first {
        Ok(both) => {
            assert!(rt; how == Refused::One);
            both
        }
        Err(refused) => {
            assert!(rt; how != Refused::None && refused.number() == 1);
            started(rt)
        }
    }
}

// Where a lease is refused its first entry, it is as its twin, and where it is refused a later one, it has done those before.
fn run_ahead_later(
    alloc: Global,
    held: &mut Held,
    lease: &mut LeaseOfOne<TableTurns>,
    twin: &mut LeaseOfOne<TableTurns>,
) -> bool {
    let how = refuse(alloc, held);
    let first = lease.run_ahead(alloc, 9);
    let is_kept = first.is_ok() || *lease == *twin;
    serve(alloc, held);
    let done = match first {
        Ok(done) => done,
        Err(_) => 0,
    };
    let is_refused = how == Refused::One || (how == Refused::Each && first == Err(NoMemory));
    is_kept
        && is_refused
        && lease.run_ahead(alloc, 9) == Ok(2u32.saturating_sub(done))
        && twin.run_ahead(alloc, 9) == Ok(2)
        && *lease == *twin
}

#[test]
fn a_refused_exchange_and_its_leases_come_later(rt: HostRuntime) {
    let mut held = room(rt.alloc()).expect(&rt, "room for blocks");
    let (exchange, mut leases) = started_later(&rt, &mut held);
    let (other, mut twins) = started(&rt);
    assert!(rt; exchange == other && leases.as_slice() == twins.as_slice());
    for (lease, twin) in leases.iter_mut().zip(twins.iter_mut()) {
        assert!(rt; run_ahead_later(rt.alloc(), &mut held, lease, twin));
    }
    drop(held);
    drop(exchange);
    drop(other);
    drop(leases);
    drop(twins);
}

// A gate that takes all memory before it lets the first worker start.
#[derive(Drop)]
struct Starving {
    alloc: Global,
    held: Mutex<Held>,
}

impl Gate<AnyTurns> for Starving {
    fn ahead(&self, alloc: Global, lease: &mut Lease<AnyTurns>, budget: u32) -> Ran {
        lease.run_ahead(alloc, budget)
    }

    fn ahead_alone(&self, alloc: Global, group: &mut LoneGroup<AnyTurns>, budget: u32) -> Took {
        group.run_ahead(alloc, budget)
    }

    fn may_start(&self, _worker: u16) -> bool {
        match self.held.try_lock() {
            Some(mut held) => {
                exhaust(self.alloc, &mut *held);
            }
            None => {}
        }
        true
    }
}

// A gate that takes all memory in each call but so many first ones, until a lease, or a group alone, is refused.
#[derive(Drop)]
struct Wanting {
    served: u64,
    calls: AtomicU64,
    is_refused: AtomicBool,
}

// No entry and no turn, since memory was refused.
const NONE: Ran = Ran {
    count: 0,
    stop: Stop::NoMemory,
};

const NO_TURN: Took = Took {
    count: 0,
    rest: Rest::NoMemory,
};

impl Gate<AnyTurns> for Wanting {
    fn ahead(&self, alloc: Global, lease: &mut Lease<AnyTurns>, budget: u32) -> Ran {
        if self.calls.fetch_add(1, Ordering::SeqCst) < self.served {
            return lease.run_ahead(alloc, budget);
        }
        let Ok(mut held) = room(alloc) else {
            return NONE;
        };
        exhaust(alloc, &mut held);
        let ran = lease.run_ahead(alloc, budget);
        if ran == NONE {
            self.is_refused.store(true, Ordering::SeqCst);
        }
        drop(held);
        ran
    }

    fn ahead_alone(&self, alloc: Global, group: &mut LoneGroup<AnyTurns>, budget: u32) -> Took {
        if self.calls.fetch_add(1, Ordering::SeqCst) < self.served {
            return group.run_ahead(alloc, budget);
        }
        let Ok(mut held) = room(alloc) else {
            return NO_TURN;
        };
        exhaust(alloc, &mut held);
        let took = group.run_ahead(alloc, budget);
        if took == NO_TURN {
            self.is_refused.store(true, Ordering::SeqCst);
        }
        drop(held);
        took
    }
}

#[test]
fn a_run_ends_where_its_memory_is_refused(rt: HostRuntime) {
    let gate = Starving {
        alloc: rt.alloc(),
        held: Mutex::new(room(rt.alloc()).expect(&rt, "room for blocks")),
    };
    let mut out = page_of(rt.alloc(), 100, 100);
    let ran = run_ring(&rt, (2, 64), &gate, &mut out);
    drop(gate);
    assert!(rt; ran == Err(RunFault::ThreadRefused));
    assert_held(&rt, out, b"");
    for (crew, served) in [(1u16, 0u64), (1, 2), (1, 4), (2, 0), (2, 2), (2, 4)] {
        let gate = Wanting {
            served,
            calls: AtomicU64::new(0),
            is_refused: AtomicBool::new(false),
        };
        let mut out = page_of(rt.alloc(), 100, 100);
        let ran = run_ring(&rt, (crew, 1), &gate, &mut out);
        let is_refused = gate.is_refused.load(Ordering::SeqCst);
        let is_done = ran == Ok(Summary { turns: 4 }) && !is_refused && served > 0;
        assert!(rt; ran == Err(RunFault::NoMemory) || is_done);
        assert!(rt;
            TEXT.as_bytes()
                .starts_with(out.into_inner().held.as_slice())
        );
    }
}

// Whether the fault may stand where requests are refused.
fn is_wanting(how: Refused, fault: RunFault) -> bool {
    match fault {
        RunFault::NoMemory => how != Refused::None,
        RunFault::ThreadRefused => how == Refused::One,
        _ => false,
    }
}

#[test]
fn a_refused_run_is_served_later(rt: HostRuntime) {
    let mut held = room(rt.alloc()).expect(&rt, "room for blocks");
    let setup = Arc::new(rt.alloc(), ring_setup(&rt, &ROWS, 1000)).expect(&rt, "memory for it");
    let mut out = page_of(rt.alloc(), 100, 100);
    let how = refuse(rt.alloc(), &mut held);
    let job = job_of((2, 64), None);
    let ran = run(&rt, rt.alloc(), setup, job, &Unheld, &mut out);
    serve(rt.alloc(), &mut held);
    let wanted = match ran {
        Ok(summary) => {
            assert!(rt; how == Refused::One && summary.turns == 4);
            TEXT.len()
        }
        Err(fault) => {
            assert!(rt; is_wanting(how, fault));
            0
        }
    };
    let page = out.into_inner().held;
    assert!(rt; page.len() >= wanted && TEXT.as_bytes().starts_with(page.as_slice()));
    drop(page);
    drop(held);
    let mut out = page_of(rt.alloc(), 100, 100);
    let ran = run_ring(&rt, (2, 64), &Unheld, &mut out);
    assert!(rt; ran == Ok(Summary { turns: 4 }));
    assert_held(&rt, out, TEXT.as_bytes());
}
