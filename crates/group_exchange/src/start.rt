//! The exchange of groups and its leases at the start.
ghost use Rattle.std.specs.Prelude.{◌≡◌, ◌<◌, [], IfOk, None, length, map, replicate};
ghost use Rattle.std.specs.Arc.{arc_value};
ghost use Rattle.std.specs.List.{range_with_len};
ghost use Rattle.plans.specs.Plans.{composition};
ghost use Rattle.task_seed.specs.Setups.{system, plan_of};
ghost use Rattle.rollback.specs.ComponentView.{machine_of};
ghost use Rattle.virtual_time.specs.Groups.Stubs.{start_exchange};
ghost use Rattle.partitions.specs.Groups.{group_count, groups_of};
ghost use Rattle.partitions.specs.Partitions.{IsPartition};
ghost use Rattle.group_exchange.specs.ExchangeView.{exchange_of, group_at};
ghost use Rattle.group_exchange.specs.Seen.{HasFewInInboxes, StaysInWindow};
ghost use Rattle.group_exchange.specs.Start.{AreStarted, IsStarted, StandForStart, start_passage, start_shared, start_shared_within, stub_of_lease};
ghost use Rattle.group_exchange.specs.Windows.{OfEachLease};

use crate::exchange::Exchange;
use crate::lease::{Lease, lease_of};
use crate::notes::{Notes, Receivers};
use crate::passage::Passage;
use crate::queue::Queue;
use crate::stub::Stub;
use crate::tally::Tally;
use antimessage::Bag;
use event_keys::{Bound, Key};
use groups::{Group, Window};
use partitions::Partition;
use std::alloc::Global;
use std::sync::Arc;
use task_seed::laws::machine_is_lawful;
use task_seed::{Setup, Turns, Walk};
use terms::{Action, NoMemory, State};
use virtual_time::grouped::{group_exchange_is_core, group_exchange_is_sound, group_window_law};
use virtual_time::worlds::{committed_is_reference, each_step_is_answered};

// Below it there is no key.
const FIRST: Bound = Bound::At(Key {
    tick: 0,
    component: 0,
    number: 0,
});

// What is kept of a lease at the start.
fn start_stub<T: Turns>(lease: &Lease<T>) -> Stub
    ensures { result ≡ stub_of_lease lease.now }
{
    Stub {
        base: FIRST,
        floor: lease.floor(),
        taken: Bag::new(),
        standing: Bag::new(),
        inbox: Bag::new(),
        copies: Bag::new(),
    }
}

fn start_passage<T: Turns>(setup: &Setup<T>, i: u16) -> Passage
    ensures { result ≡ start_passage (system T.turn_of setup.now) i }
{
    Passage {
        passed: 0,
        ahead: setup.first_key(i),
    }
}

// The lease of a group, with a window or without.
fn start_lease<T: Turns>(
    alloc: Global,
    setup: Arc<Setup<T>>,
    window: Option<Window>,
    groups: &[u16],
    number: u16,
) -> Result<Lease<T>, NoMemory>
    requires { length groups.now ≡ length (composition (plan_of (arc_value setup))) }
    ensures lease { IfOk result (IsStarted T.turn_of (arc_value setup) groups.now number) }
    ensures window { IfOk result (λ lease. lease.window ≡ window) }
    ensures few { IfOk result StaysInWindow }
{
    machine_is_lawful(&setup);
    group_exchange_is_sound::<State, Action>();
    group_window_law::<State, Action>();
    let mut group = Group::new(alloc, setup, groups, number)?;
    group.soundness_law();
    group.set_window(window);
    let lease = lease_of(group);
    lease.soundness_law();
    Ok(lease)
}

// A lease for each group, in order.
fn start_leases<T: Turns>(
    alloc: Global,
    setup: &Arc<Setup<T>>,
    window: Option<Window>,
    groups: &[u16],
    count: u16,
) -> Result<Vec<Lease<T>>, NoMemory>
    requires { length groups.now ≡ length (composition (plan_of (arc_value setup.now))) }
    ensures leases { IfOk result (λ leases. AreStarted
        T.turn_of (arc_value setup.now) groups.now count leases.items) }
    ensures window { IfOk result
        (λ leases. OfEachLease (λ lease. lease.window ≡ window) leases.items) }
    ensures few { IfOk result (λ leases. OfEachLease StaysInWindow leases.items) }
{
    let mut leases = Vec::new(alloc);
    for number in 0..count {
        leases.push(start_lease(alloc, Arc::try_clone(setup)?, window, groups, number)?)?;
    }
    Ok(leases)
}

// What is kept of the leases.
fn start_stubs<T: Turns>(alloc: Global, leases: &[Lease<T>]) -> Result<Vec<Stub>, NoMemory>
    ensures { IfOk result (λ stubs. stubs.items ≡ map stub_of_lease leases.now) }
{
    let mut stubs = Vec::new(alloc);
    for lease in leases {
        stubs.push(start_stub(lease))?;
    }
    Ok(stubs)
}

// What is kept of components.
#[derive(Drop)]
struct Counted {
    passages: Vec<Passage>,
    walks: Vec<Walk>,
    held: Vec<Queue>,
}

fn start_counted<T: Turns>(alloc: Global, setup: &Setup<T>) -> Result<Counted, NoMemory>
    ensures passages { IfOk result (λ counted. counted.passages.items
        ≡ map (start_passage (system T.turn_of setup.now))
        (range_with_len 0 (length (composition (plan_of setup.now))))) }
    ensures walks { IfOk result (λ counted. length counted.walks.items
        ≡ length (composition (plan_of setup.now))) }
    ensures held { IfOk result (λ counted. counted.held.items
        ≡ replicate (length (composition (plan_of setup.now))) []) }
{
    let mut passages = Vec::new(alloc);
    let mut walks = Vec::new(alloc);
    let mut held = Vec::new(alloc);
    for i in 0..setup.plan().components() {
        passages.push(start_passage(setup, i))?;
        walks.push(Walk::new())?;
        held.push(Queue::empty())?;
    }
    Ok(Counted {
        passages,
        walks,
        held,
    })
}

// The same numbers in a list of its own.
fn listed(alloc: Global, numbers: &[u16]) -> Result<Vec<u16>, NoMemory>
    ensures { IfOk result (λ list. list.items ≡ numbers.now) }
{
    let mut list = Vec::new(alloc);
    for number in numbers {
        list.push(*number)?;
    }
    Ok(list)
}

impl<T: Turns> Exchange<T> {
    /// The exchange of a setup at its start whose components are held in the groups of a partition of them, with a lease for each group, in
    /// order. They stand for the world at its start.
    pub fn with_groups(
        alloc: Global,
        setup: Arc<Setup<T>>,
        partition: &Partition,
    ) -> Result<(Exchange<T>, Vec<Lease<T>>), NoMemory>
        requires { length (groups_of partition.now)
            ≡ length (composition (plan_of (arc_value setup))) }
        ensures exchange { IfOk result (λ both. both.0
            ≡ start_shared T.turn_of (arc_value setup) (groups_of partition.now) both.1.items) }
        ensures seen { IfOk result (λ both. exchange_of
            (machine_of T.turn_of (arc_value setup)) both.0
            ≡ start_exchange (machine_of T.turn_of (arc_value setup))
            (group_at (groups_of partition.now)) (length (composition (plan_of (arc_value setup))))) }
        ensures leases { IfOk result (λ both. AreStarted T.turn_of (arc_value setup)
            (groups_of partition.now) (group_count partition.now) both.1.items) }
        ensures start { IfOk result (λ both. StandForStart T.turn_of (arc_value setup)
            (groups_of partition.now) both.0 both.1.items) }
        ensures window { IfOk result
            (λ both. OfEachLease (λ lease. lease.window ≡ None) both.1.items) }
    {
        Exchange::start(alloc, setup, partition, None)
    }

    /// The same with a window, or with none. With a window, from then on, whatever is called and in any order, each record has at most so many own
    /// turns done, and as many messages of each other component done or pending; and all inboxes together hold at most twice as many messages
    /// and antimessages for each pair of components of two groups.
    pub fn start(
        alloc: Global,
        setup: Arc<Setup<T>>,
        partition: &Partition,
        window: Option<Window>,
    ) -> Result<(Exchange<T>, Vec<Lease<T>>), NoMemory>
        requires { length (groups_of partition.now)
            ≡ length (composition (plan_of (arc_value setup))) }
        ensures exchange { IfOk result (λ both. both.0
            ≡ start_shared_within T.turn_of (arc_value setup) (groups_of partition.now) window
            both.1.items) }
        ensures seen { IfOk result (λ both. exchange_of
            (machine_of T.turn_of (arc_value setup)) both.0
            ≡ start_exchange (machine_of T.turn_of (arc_value setup))
            (group_at (groups_of partition.now)) (length (composition (plan_of (arc_value setup))))) }
        ensures leases { IfOk result (λ both. AreStarted T.turn_of (arc_value setup)
            (groups_of partition.now) (group_count partition.now) both.1.items) }
        ensures start { IfOk result (λ both. StandForStart T.turn_of (arc_value setup)
            (groups_of partition.now) both.0 both.1.items) }
        ensures window { IfOk result
            (λ both. OfEachLease (λ lease. lease.window ≡ window) both.1.items) }
        ensures inboxes { IfOk result (λ both. HasFewInInboxes T.turn_of both.0) }
        ensures few { IfOk result (λ both. OfEachLease StaysInWindow both.1.items) }
    {
        let (exchange, leases) = start_both(alloc, setup, partition, window)?;
        exchange.soundness_law();
        Ok((exchange, leases))
    }
}

// The same exchange and leases.
fn start_both<T: Turns>(
    alloc: Global,
    setup: Arc<Setup<T>>,
    partition: &Partition,
    window: Option<Window>,
) -> Result<(Exchange<T>, Vec<Lease<T>>), NoMemory>
    requires { length (groups_of partition.now)
        ≡ length (composition (plan_of (arc_value setup))) }
    ensures exchange { IfOk result (λ both. both.0
        ≡ start_shared_within T.turn_of (arc_value setup) (groups_of partition.now) window
        both.1.items) }
    ensures seen { IfOk result (λ both. exchange_of
        (machine_of T.turn_of (arc_value setup)) both.0
        ≡ start_exchange (machine_of T.turn_of (arc_value setup))
        (group_at (groups_of partition.now)) (length (composition (plan_of (arc_value setup))))) }
    ensures leases { IfOk result (λ both. AreStarted T.turn_of (arc_value setup)
        (groups_of partition.now) (group_count partition.now) both.1.items) }
    ensures start { IfOk result (λ both. StandForStart T.turn_of (arc_value setup)
        (groups_of partition.now) both.0 both.1.items) }
    ensures window { IfOk result
        (λ both. OfEachLease (λ lease. lease.window ≡ window) both.1.items) }
    ensures few { IfOk result (λ both. OfEachLease StaysInWindow both.1.items) }
{
    machine_is_lawful(&setup);
    group_exchange_is_core::<State, Action>();
    group_exchange_is_sound::<State, Action>();
    committed_is_reference::<State, Action>();
    each_step_is_answered::<State, Action>();
    let groups = partition.group_of();
    let leases = start_leases(alloc, &setup, window, groups, partition.groups())?;
    let exchange = begin(alloc, setup, window, groups, &leases)?;
    Ok((exchange, leases))
}

// The exchange at the start, where these are the leases.
fn begin<T: Turns>(
    alloc: Global,
    setup: Arc<Setup<T>>,
    window: Option<Window>,
    groups: &[u16],
    leases: &[Lease<T>],
) -> Result<Exchange<T>, NoMemory>
    requires partition { IsPartition (length (composition (plan_of (arc_value setup))))
        (length leases.now) groups.now }
    requires few { length leases.now < 65536 }
    requires leases { AreStarted T.turn_of (arc_value setup) groups.now (length leases.now)
        leases.now }
    ensures { IfOk result (λ exchange. exchange
        ≡ start_shared_within T.turn_of (arc_value setup) groups.now window leases.now) }
{
    machine_is_lawful(&setup);
    group_exchange_is_sound::<State, Action>();
    group_window_law::<State, Action>();
    let stubs = start_stubs(alloc, leases)?;
    let counted = start_counted(alloc, &setup)?;
    let groups = listed(alloc, groups)?;
    let notes = Notes {
        receivers: Receivers::none(alloc, stubs.len() as u16)?,
        tally: Tally::default(),
    };
    Ok(Exchange {
        setup,
        groups,
        stubs,
        passages: counted.passages,
        walks: counted.walks,
        bound: FIRST,
        held: counted.held,
        given: 0,
        window,
        notes,
    })
}
