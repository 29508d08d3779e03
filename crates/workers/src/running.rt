//! A run: workers in threads of their own, and the calling thread, which writes.
ghost use Rattle.std.specs.Prelude.{◌≡◌, ◌+◌, ◌≤◌, All, IfErr, IfOk, length};
ghost use Rattle.std.specs.Arc.{arc_value};
ghost use Rattle.gvt.specs.Seats.{IsSeatOf};
ghost use Rattle.schedules.specs.Schedules.{HasSchedulesBelow};
ghost use Rattle.task_seed.specs.Setups.{plan_of, system};
ghost use Rattle.workers.specs.Runs.{WroteAll, WroteAllIn, WroteSome, WroteSomeIn};
ghost use Rattle.workers.specs.Crews.{AreHeld, IsCallerOf, IsOf, IsOfAll, IsStart};

use crate::activity::Activity;
use crate::crew::{Caller, Division, Lent, Worker};
use crate::desk::Desk;
use crate::fault::{RunFault, WorkFault};
use crate::gate::Gate;
use crate::running_alone::run_alone;
use crate::shared::{Ends, Shared};
use crate::working::work;
use crate::writing::{Page, write_all};
use boards::{Board, Made, Pass};
use core::mem::replace_with;
use group_exchange::{Exchange, Lease, Parcel, Parted, Stub, Window, partition_of};
use gvt::{Published, Seat};
use partitions::Cut;
use raw_events::EventList;
use schedules::laws::turns_are_schedule;
use std::alloc::Global;
use std::io::Write;
use std::sync::atomic::AtomicU64;
use std::sync::{Arc, Wait};
use std::thread;
use std::thread::Threads;
use steering::{Raises, Ready, Signals, Stats, Vigil};
use task_seed::{Setup, Turns};
use terms::NoMemory;
use trace::{Counted, Form, write_front};

/// What a run came to.
#[derive(Clone, Copy, PartialEq, Eq)]
pub struct Summary {
    /// How many turns there were, written or not.
    pub turns: u64,
}

/// How a setup is run: by how many workers, 1 to 64; how many entries each does at most before it looks round, 1 to 65,535; within which window, if
/// there is one: how many turns of its own each component may have done since its base; and in which form the turns are written. One group of all
/// components has no window.
#[derive(Clone, Copy)]
pub struct Job {
    pub workers: u16,
    pub budget: u32,
    pub window: Option<Window>,
    pub form: Form,
}

/// Simulates a setup by workers, each of which keeps a group of its components: it runs the group ahead and shares what it did; and writes the lines of
/// the turns as they are committed for good, in the order of keys, behind a head where it is asked for. There are no more workers than components.
/// One worker, or one component, makes one group of all: then nothing is ever taken back, and three threads run it. One draws the turns, one takes
/// them, and the calling thread writes them. The calling thread writes in any case; it and the others may wait for each other, so that what is promised
/// holds if the call returns.
///
/// What was written is a beginning of the text of the one-thread simulator that always takes the least key, and all of it where the answer
/// isn't a fault; the actions of these turns are a schedule of the composition. That several threads ran, and that what is written comes of
/// what they did, no clause can say.
///
/// # Errors
///
/// The first fault that is met ends the run: want of memory (1), a failed write (60), where `written` counts every byte of the run, or a worker
/// that wasn't started (61). That no chunk is out of place (62) is shown by tests.
pub fn run<T: Turns, W: Write + Drop, G: Gate<T>, R: Threads + Wait + Sync>(
    rt: &R,
    alloc: Global,
    setup: Arc<Setup<T>>,
    job: Job,
    gate: &G,
    out: &mut Counted<W>,
) -> Result<Summary, RunFault>
    requires workers { (1 ≤ job.workers) × (job.workers ≤ 64) }
    requires budget { (1 ≤ job.budget) × (job.budget ≤ 65535) }
    ensures whole { IfOk result (λ summary. WroteAllIn T.turn_of W.contents (arc_value setup)
        job.form out.old out.new summary.turns) }
    ensures unfinished { IfErr result
        (WroteSomeIn T.turn_of W.contents (arc_value setup) job.form out.old out.new) }
{
    match run_with_stats(rt, alloc, setup, job, gate, out) {
        Ok(stats) => Ok(Summary { turns: stats.turns }),
        Err(fault) => Err(fault),
    }
}

/// Does the same as [`run`], with the same faults, and answers what the workers did too.
pub fn run_with_stats<T: Turns, W: Write + Drop, G: Gate<T>, R: Threads + Wait + Sync>(
    rt: &R,
    alloc: Global,
    setup: Arc<Setup<T>>,
    job: Job,
    gate: &G,
    out: &mut Counted<W>,
) -> Result<Stats, RunFault>
    requires workers { (1 ≤ job.workers) × (job.workers ≤ 64) }
    requires budget { (1 ≤ job.budget) × (job.budget ≤ 65535) }
    ensures whole { IfOk result (λ stats. WroteAllIn T.turn_of W.contents (arc_value setup)
        job.form out.old out.new stats.turns) }
    ensures unfinished { IfErr result
        (WroteSomeIn T.turn_of W.contents (arc_value setup) job.form out.old out.new) }
{
    turns_are_schedule(&setup);
    match write_front(job.form.head, out) {
        Ok(before) => run_on(Means { rt, alloc, gate }, &setup, job, before, out),
        Err(fault) => Err(RunFault::Write(fault)),
    }
}

// What a run runs on: threads, memory, and the gate before its groups.
#[derive(Drop)]
pub(crate) struct Means<'x, G, R> {
    pub(crate) rt: &'x R,
    pub(crate) alloc: Global,
    pub(crate) gate: &'x G,
}

// Runs, where so many bytes went out before the lines.
fn run_on<'x, T: Turns, W: Write + Drop, G: Gate<T>, R: Threads + Wait + Sync>(
    means: Means<'x, G, R>,
    setup: &Arc<Setup<T>>,
    job: Job,
    before: u64,
    out: &mut Counted<W>,
) -> Result<Stats, RunFault>
    requires workers { (1 ≤ job.workers) × (job.workers ≤ 64) }
    requires known { HasSchedulesBelow (plan_of (arc_value setup.now))
        (system T.turn_of (arc_value setup.now)) }
    ensures whole { IfOk result (λ stats. WroteAll T.turn_of W.contents (arc_value setup.now)
        job.form.lines out.old out.new stats.turns) }
    ensures unfinished { IfErr result (WroteSome T.turn_of W.contents (arc_value setup.now)
        job.form.lines out.old out.new before) }
{
    let lines = job.form.lines;
    if job.workers.min(setup.plan().components()) <= 1 {
        return run_alone(means, setup, job.budget, Page { lines, before }, out);
    }
    match start(means.rt, means.alloc, setup, job) {
        Ok(begun) => run_begun(means, setup, begun, Page { lines, before }, out),
        Err(_refused) => Err(RunFault::NoMemory),
    }
}

// The workers, and what the calling thread has.
#[derive(Drop)]
struct Hands<T: Turns> {
    crew: Vec<Worker<T>>,
    caller: Caller<T>,
}

// What the threads share, and the threads' own.
#[derive(Drop)]
struct Begun<T: Turns> {
    shared: Shared<T>,
    hands: Hands<T>,
}

// What the workers get, one of each.
#[derive(Drop)]
struct Shares<T: Turns> {
    passes: Vec<Pass<Lent<T>, Division<T>, Stub>>,
    leases: Vec<Lease<T>>,
    seats: Vec<Seat>,
}

// The exchange at its start, as it waits for its workers, and a lease for each.
#[derive(Drop)]
struct Parts<T: Turns> {
    made: Made<Lent<T>, Division<T>, Stub>,
    leases: Vec<Lease<T>>,
    groups: u16,
    cut: Cut,
}

// Divides the components into groups, one for each worker, and makes the exchange of these.
fn divide<T: Turns, R: Wait>(
    rt: &R,
    alloc: Global,
    setup: &Arc<Setup<T>>,
    job: Job,
) -> Result<Parts<T>, NoMemory>
    requires { job.workers ≤ 64 }
    ensures few { IfOk result (λ parts. parts.groups ≤ 64) }
    ensures start { IfOk result (λ parts. IsStart T.turn_of (arc_value setup.now) parts.made
        parts.leases.items) }
    ensures count { IfOk result (λ parts. (length parts.made.passes.items ≡ parts.groups)
        × (length parts.leases.items ≡ parts.groups)) }
{
    let Parted { partition, cut } = partition_of(alloc, setup.plan(), job.workers)?;
    let groups = partition.groups();
    let own = Arc::try_clone(setup)?;
    let (exchange, leases) = Exchange::start(alloc, own, &partition, job.window)?;
    let desk = Desk {
        exchange,
        raises: Raises::new(setup.plan().components()),
        count: 0,
        ready: Ready::new(alloc, groups)?,
        spare: EventList::new(),
        activity: Activity::default(),
        lost: 0,
    };
    let desk = Box::new(alloc, desk)?;
    let made = Board::new(rt, alloc, Lent { desk }, groups)?;
    Ok(Parts {
        made,
        leases,
        groups,
        cut,
    })
}

// Makes what the threads share, and gives each worker its group, its pass and its seat.
fn start<T: Turns, R: Wait>(
    rt: &R,
    alloc: Global,
    setup: &Arc<Setup<T>>,
    job: Job,
) -> Result<Begun<T>, NoMemory>
    requires workers { (1 ≤ job.workers) × (job.workers ≤ 64) }
    ensures crew { IfOk result
        (λ begun. All (IsOf T.turn_of begun.shared) begun.hands.crew.items) }
    ensures caller { IfOk result (λ begun. IsCallerOf begun.shared
        (arc_value setup.now) begun.hands.caller) }
{
    let Parts {
        made,
        leases,
        groups,
        cut,
    } = divide(rt, alloc, setup, job)?;
    let Made {
        board,
        passes,
        reader,
    } = made;
    let signals = Signals::new(alloc, groups)?;
    let (published, mut seats) = Published::new(alloc, groups + 1)?;
    let Some(seat) = seats.pop() else {
        unreachable!()
    };
    let vigil = Vigil::new(job.budget);
    let shares = Shares {
        passes,
        leases,
        seats,
    };
    let crew = gather(alloc, &board, &published, shares, vigil)?;
    let parcel = Parcel::new(alloc, setup.plan().components())?;
    Ok(Begun {
        shared: Shared {
            board,
            signals,
            ends: Ends::new(groups == 0),
            looks: AtomicU64::new(0),
            published,
        },
        hands: Hands {
            crew,
            caller: Caller {
                pass: reader,
                seat,
                activity: Activity::default(),
                parcel,
                cut,
            },
        },
    })
}

// A worker for each group, with its pass and a seat, the last one first.
fn gather<T: Turns>(
    alloc: Global,
    board: &Board<Lent<T>, Division<T>, Stub>,
    published: &Published,
    shares: Shares<T>,
    vigil: Vigil,
) -> Result<Vec<Worker<T>>, NoMemory>
    requires held { AreHeld T.turn_of board.now shares.passes.items shares.leases.items }
    requires seats { All (λ seat. IsSeatOf published.now seat) shares.seats.items }
    requires many { length shares.leases.items ≡ length shares.passes.items }
    requires many_seats { length shares.passes.items ≤ length shares.seats.items }
    ensures { IfOk result
        (λ crew. All (IsOfAll T.turn_of board.now published.now) crew.items) }
{
    let Shares {
        mut passes,
        mut leases,
        mut seats,
    } = shares;
    let mut crew = Vec::with_capacity(alloc, passes.len())?;
    while let Some(pass) = passes.pop() {
        let (Some(lease), Some(seat)) = (leases.pop(), seats.pop()) else {
            unreachable!()
        };
        crew.push(Worker {
            pass,
            seat,
            lease,
            vigil,
        })?;
    }
    Ok(crew)
}

// Has the workers work while the calling thread writes.
fn run_begun<'x, T: Turns, W: Write + Drop, G: Gate<T>, R: Threads + Wait + Sync>(
    means: Means<'x, G, R>,
    own: &Setup<T>,
    begun: Begun<T>,
    page: Page,
    out: &mut Counted<W>,
) -> Result<Stats, RunFault>
    requires crew { All (IsOf T.turn_of begun.shared) begun.hands.crew.items }
    requires caller { IsCallerOf begun.shared own.now begun.hands.caller }
    ensures whole { IfOk result
        (λ stats. WroteAll T.turn_of W.contents own.now page.lines out.old out.new stats.turns) }
    ensures unfinished { IfErr result
        (WroteSome T.turn_of W.contents own.now page.lines out.old out.new page.before) }
{
    let Begun { shared, hands } = begun;
    lend(means, &shared, own, hands, page, out)
}

// Lends the writer to the scope by value, since a scope's closure tells nothing of what is behind a `&mut`.
fn lend<'x, 'y, T: Turns, W: Write + Drop, G: Gate<T>, R: Threads + Wait + Sync>(
    means: Means<'x, G, R>,
    shared: &'y Shared<T>,
    own: &'y Setup<T>,
    hands: Hands<T>,
    page: Page,
    out: &mut Counted<W>,
) -> Result<Stats, RunFault>
    requires crew { All (IsOf T.turn_of shared.now) hands.crew.items }
    requires caller { IsCallerOf shared.now own.now hands.caller }
    ensures whole { IfOk result
        (λ stats. WroteAll T.turn_of W.contents own.now page.lines out.old out.new stats.turns) }
    ensures unfinished { IfErr result
        (WroteSome T.turn_of W.contents own.now page.lines out.old out.new page.before) }
{
    let Means { rt, alloc, gate } = means;
    let Hands { crew, caller } = hands;
    let Page { lines, before } = page;
    replace_with(
        out,
        (crew, caller),
        move |lent: Counted<W>, lent_hands: (Vec<Worker<T>>, Caller<T>)| -> (
            Counted<W>,
            Result<Stats, RunFault>,
        )
            requires { All (IsOf T.turn_of shared.now) lent_hands.0.items
                × IsCallerOf shared.now own.now lent_hands.1 }
            ensures whole { IfOk result.1
                (λ stats. WroteAll T.turn_of W.contents own.entry.now lines lent result.0
                stats.turns) }
            ensures unfinished { IfErr result.1
                (WroteSome T.turn_of W.contents own.entry.now lines lent result.0 before) }
        {
            let hands = Hands {
                crew: lent_hands.0,
                caller: lent_hands.1,
            };
            in_scope(
                Means { rt, alloc, gate },
                shared,
                own,
                hands,
                Page { lines, before },
                lent,
            )
        },
    )
}

// The workers in threads of a scope, while this thread writes.
fn in_scope<'x, 'y, T: Turns, W: Write + Drop, G: Gate<T>, R: Threads + Wait + Sync>(
    means: Means<'x, G, R>,
    shared: &'y Shared<T>,
    own: &'y Setup<T>,
    hands: Hands<T>,
    page: Page,
    out: Counted<W>,
) -> (Counted<W>, Result<Stats, RunFault>)
    requires crew { All (IsOf T.turn_of shared.now) hands.crew.items }
    requires caller { IsCallerOf shared.now own.now hands.caller }
    ensures whole { IfOk result.1
        (λ stats. WroteAll T.turn_of W.contents own.now page.lines out result.0 stats.turns) }
    ensures unfinished { IfErr result.1
        (WroteSome T.turn_of W.contents own.now page.lines out result.0 page.before) }
{
    let Means { rt, alloc, gate } = means;
    let Hands { crew, caller } = hands;
    thread::scope(
        thread::scope_env(),
        rt,
        move |scope| -> (Counted<W>, Result<Stats, RunFault>)
            requires { All (IsOf T.turn_of shared.now) crew.items
                × IsCallerOf shared.now own.now caller }
            ensures whole { IfOk result.1
                (λ stats. WroteAll T.turn_of W.contents own.entry.now page.lines out result.0
                stats.turns) }
            ensures unfinished { IfErr result.1
                (WroteSome T.turn_of W.contents own.entry.now page.lines out result.0 page.before) }
        {
            let mut number = 0u16;
            for worker in crew {
                if !gate.may_start(number) {
                    shared.ends.note(rt, WorkFault::ThreadRefused);
                    break;
                }
                number = number.wrapping_add(1);
                let child = scope.spawn(
                    move ||
                        requires { IsOf T.turn_of shared.now worker }
                    { work(rt, alloc, shared, gate, worker) },
                );
                if child.is_err() {
                    shared.ends.note(rt, WorkFault::ThreadRefused);
                    break;
                }
            }
            let mut caller = caller;
            let mut out = out;
            let result = write_all(rt, shared, own, &mut caller, page, &mut out);
            if result.is_err() {
                shared.ends.end();
            }
            (out, result)
        },
    )
}
