//! The exchange and its leases at the start.
ghost use Rattle.std.specs.Prelude.{◌≡◌, ◌≤◌, ◌<◌, All, IfOk, None, Some, length, map};
ghost use Rattle.std.specs.Arc.{arc_value};
ghost use Rattle.plans.specs.Plans.{composition};
ghost use Rattle.task_seed.specs.Setups.{system, plan_of};
ghost use Rattle.exchange.specs.Seen.{HasFewInInboxes, StaysInWindow};
ghost use Rattle.exchange.specs.Start.{StandForStart, first_bound, number_of, numbers, start_stub, start_leases, start_leases_within, start_shared, start_shared_within, start_within};

use crate::exchange::Exchange;
use crate::holding::Holding;
use crate::lease::Lease;
use crate::notes::{Notes, Receivers};
use crate::queue::Queue;
use crate::stub::Stub;
use crate::tally::{Effort, Tally};
use crate::window::Window;
use antimessage::Bag;
use event_keys::{Bound, Key};
use rollback::{Component, Copies};
use std::alloc::Global;
use std::sync::Arc;
use task_seed::laws::machine_is_lawful;
use task_seed::{Setup, Turns, Walk};
use terms::{Action, NoMemory, State};
use virtual_time::exchanges::{exchange_is_core, exchange_is_sound, window_law};
use virtual_time::worlds::{committed_is_reference, each_step_is_answered};

// Below it there is no key.
const FIRST: Bound = Bound::At(Key {
    tick: 0,
    component: 0,
    number: 0,
});

// The key of a component's first turn, or the end where it has none.
fn first_bound<T: Turns>(setup: &Setup<T>, i: u16) -> Bound
    ensures { result ≡ first_bound (system T.turn_of setup.now) i }
{
    match setup.first_key(i) {
        None => Bound::End,
        Some(key) => Bound::At(key),
    }
}

fn start_stub<T: Turns>(setup: &Setup<T>, i: u16) -> Stub
    ensures { result ≡ start_stub (system T.turn_of setup.now) i }
{
    Stub {
        base: FIRST,
        floor: first_bound(setup, i),
        taken: Bag::new(),
        standing: Bag::new(),
        inbox: Bag::new(),
        copies: Bag::new(),
        passed: 0,
        ahead: setup.first_key(i),
    }
}

// The lease of a component, with a window or without.
fn start_lease<T: Turns>(
    alloc: Global,
    setup: Arc<Setup<T>>,
    window: Option<Window>,
    i: u16,
) -> Result<Lease<T>, NoMemory>
    requires { i < length (composition (plan_of (arc_value setup))) }
    ensures { IfOk result (λ lease. lease ≡ start_within T.turn_of (arc_value setup) window i) }
{
    machine_is_lawful(&setup);
    exchange_is_sound::<State, Action>();
    window_law::<State, Action>();
    let holding = start_holding(alloc, setup, window, i)?;
    Ok(Lease { holding })
}

// What it holds.
fn start_holding<T: Turns>(
    alloc: Global,
    setup: Arc<Setup<T>>,
    window: Option<Window>,
    i: u16,
) -> Result<Holding<T>, NoMemory>
    requires { i < length (composition (plan_of (arc_value setup))) }
    ensures { IfOk result (λ lease. lease ≡ start_within T.turn_of (arc_value setup) window i) }
{
    machine_is_lawful(&setup);
    exchange_is_sound::<State, Action>();
    let floor = first_bound(&setup, i);
    let component = Component::new(alloc, setup, i)?;
    Ok(Holding {
        component,
        tray: Bag::new(),
        out: Bag::new(),
        copies: Copies::new(),
        floor,
        window,
        effort: Effort::default(),
    })
}

impl<T: Turns> Exchange<T> {
    /// The exchange of a setup at its start, with a lease for each component, in order.
    ///
    /// They stand for the world at its start. No two leases have one number, since each has that of its place.
    pub fn new(
        alloc: Global,
        setup: Arc<Setup<T>>,
    ) -> Result<(Exchange<T>, Vec<Lease<T>>), NoMemory>
        ensures exchange { IfOk result (λ both. both.0 ≡ start_shared T.turn_of (arc_value setup)) }
        ensures leases { IfOk result (λ both. both.1.items
            ≡ start_leases T.turn_of (arc_value setup)) }
        ensures numbers { IfOk result (λ both. map number_of both.1.items
            ≡ numbers (arc_value setup)) }
        ensures start { IfOk result (λ both. StandForStart T.turn_of
            (arc_value setup) both.0 both.1.items) }
    {
        machine_is_lawful(&setup);
        exchange_is_core::<State, Action>();
        exchange_is_sound::<State, Action>();
        committed_is_reference::<State, Action>();
        each_step_is_answered::<State, Action>();
        Exchange::start(alloc, setup, None)
    }

    /// The same with a window of so many own turns, 1 to 65,535, which each lease carries. From then on, whatever is called and in any order,
    /// each record has at most so many own turns done, and as many messages of each other component done or pending; and all inboxes together
    /// hold at most twice as many messages and antimessages for each pair of components.
    pub fn with_window(
        alloc: Global,
        setup: Arc<Setup<T>>,
        window: u32,
    ) -> Result<(Exchange<T>, Vec<Lease<T>>), NoMemory>
        requires window { (1 ≤ window) × (window ≤ 65535) }
        ensures exchange { IfOk result (λ both. both.0
            ≡ start_shared_within T.turn_of (arc_value setup) (Some (record { turns = window }))) }
        ensures leases { IfOk result (λ both. both.1.items
            ≡ start_leases_within T.turn_of (arc_value setup) (Some (record { turns = window }))) }
        ensures numbers { IfOk result (λ both. map number_of both.1.items
            ≡ numbers (arc_value setup)) }
        ensures start { IfOk result (λ both. StandForStart T.turn_of (arc_value setup) both.0
            both.1.items) }
        ensures inboxes { IfOk result (λ both. HasFewInInboxes T.turn_of both.0) }
        ensures few { IfOk result (λ both. All StaysInWindow both.1.items) }
    {
        machine_is_lawful(&setup);
        exchange_is_core::<State, Action>();
        exchange_is_sound::<State, Action>();
        committed_is_reference::<State, Action>();
        each_step_is_answered::<State, Action>();
        let (exchange, leases) = Exchange::start(alloc, setup, Some(Window { turns: window }))?;
        exchange.soundness_law();
        Ok((exchange, leases))
    }

    /// Does the same as `with_window` where there is a window, and as `new` where there is none.
    pub fn start(
        alloc: Global,
        setup: Arc<Setup<T>>,
        window: Option<Window>,
    ) -> Result<(Exchange<T>, Vec<Lease<T>>), NoMemory>
        ensures exchange { IfOk result (λ both. both.0
            ≡ start_shared_within T.turn_of (arc_value setup) window) }
        ensures leases { IfOk result (λ both. both.1.items
            ≡ start_leases_within T.turn_of (arc_value setup) window) }
        ensures inboxes { IfOk result (λ both. HasFewInInboxes T.turn_of both.0) }
    {
        let (exchange, leases) = Exchange::begin(alloc, setup, window)?;
        exchange.soundness_law();
        Ok((exchange, leases))
    }

    // The same exchange and leases.
    fn begin(
        alloc: Global,
        setup: Arc<Setup<T>>,
        window: Option<Window>,
    ) -> Result<(Exchange<T>, Vec<Lease<T>>), NoMemory>
        ensures exchange { IfOk result (λ both. both.0
            ≡ start_shared_within T.turn_of (arc_value setup) window) }
        ensures leases { IfOk result (λ both. both.1.items
            ≡ start_leases_within T.turn_of (arc_value setup) window) }
    {
        machine_is_lawful(&setup);
        exchange_is_sound::<State, Action>();
        window_law::<State, Action>();
        let mut stubs = Vec::new(alloc);
        let mut walks = Vec::new(alloc);
        let mut held = Vec::new(alloc);
        let mut leases = Vec::new(alloc);
        for i in 0..setup.plan().components() {
            stubs.push(start_stub(&setup, i))?;
            walks.push(Walk::new())?;
            held.push(Queue::empty())?;
            leases.push(start_lease(alloc, Arc::try_clone(&setup)?, window, i)?)?;
        }
        let notes = Notes {
            receivers: Receivers::none(alloc, setup.plan().components())?,
            tally: Tally::default(),
        };
        let exchange = Exchange {
            setup,
            stubs,
            walks,
            bound: FIRST,
            held,
            given: 0,
            window,
            notes,
        };
        Ok((exchange, leases))
    }
}
