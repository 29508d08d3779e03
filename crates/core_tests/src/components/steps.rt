//! Rows of steps of one component, each with its answer, and what runs them.

use super::given::{
    AT_2, AT_3, Given, Held, NOTHING, Node, Pass, bag, cell, message, passes, plus, start,
};
use antimessage::Bag;
use event_keys::{Bound, Key, Outcome, Signed, Turned};
use raw_events::{EventCell, EventList};
use rollback::{Copies, ProcessRefused, Trip};
use std::alloc::{AllocGlobal, Global};
use std::mem;
use std::process::Abort;
use terms::{Action, NoMemory};

/// A component with what it posted, the copies of it, and the dropped turns; and the component before it.
#[derive(Drop)]
pub(crate) struct Bench {
    pub(crate) node: Node,
    before: Option<Box<Node>>,
    pub(crate) out: Bag,
    pub(crate) copies: Copies,
    dropped: EventList<Turned>,
}

/// In a box, which is dropped by one call.
pub(crate) fn at_start(alloc: Global, given: Given, number: u16) -> Result<Box<Bench>, NoMemory> {
    let bench = Bench {
        node: start(alloc, given, number)?,
        before: None,
        out: Bag::new(),
        copies: Copies::new(),
        dropped: EventList::new(),
    };
    Ok(Box::new(alloc, bench)?)
}

/// Nothing is left to process.
pub(crate) const ENDED: Result<Key, ProcessRefused> = Err(ProcessRefused::NothingPending);

/// What is done with its answer, or what is seen.
#[derive(Clone, Copy)]
pub(crate) enum Step {
    /// A component of the ring at the start, with nothing posted.
    Begin(u16),
    /// The same; the one of the steps before is kept.
    Anew(u16),
    /// The component is equal to the one that was kept.
    Same,
    /// Does the next entry.
    Process(Result<Key, ProcessRefused>),
    /// Does the next entry with copies.
    Copy(Result<Key, ProcessRefused>),
    /// A message or antimessage comes; the answer is the number of the entries taken back.
    Come(Pass, u64),
    /// Takes the last entry back; the answer is whether there was one.
    RollBack(bool),
    /// Goes at most so many entries and comes back.
    Go(u32, Trip),
    /// Two messages of what was posted annihilate.
    Meet(Pass),
    /// Drops what is below the bound.
    Drop(Bound),
    /// The next dropped turn was idle.
    Idled(Key),
    /// The next dropped turn passed the token on.
    Passed(Key),
    /// There is no further dropped turn.
    NoneDropped,
    /// The key of the next entry.
    Next(Bound),
    /// The bound of the base.
    Base(Bound),
    /// What was posted: so many messages of one turn, and so many antimessages.
    Out(Key, u32, u32),
    /// A message of each of two turns was posted.
    OutTwo(Key, Key),
    /// What there is in each of the two bags of copies.
    Copied(Key, u32, u32),
    /// A message of each of two turns is in each of the two bags of copies.
    CopiedTwo(Key, Key),
    /// Whether so many of component 0's first message were taken, with so many of it in the tray and so many antimessages.
    Taken(u32, u32, u32, bool),
    /// Whether component 1's second message was taken, with an empty tray.
    TakenOther(bool),
    /// Whether so many of component 0's first message stand, with so many of it that have not left and so many antimessages.
    Standing(u32, u32, u32, bool),
    /// Whether component 1's second message stands, where all has left.
    StandingOther(bool),
}

/// Nothing was posted.
pub(crate) const EMPTY: Step = Step::Out(AT_2, 0, 0);

// Whether the step's answer is the one that it says, or tells what is seen.
fn does(alloc: Global, bench: &mut Bench, step: Step) -> bool {
    match step {
        Step::Begin(_) => false,
        Step::Anew(number) => begins_anew(alloc, bench, number),
        Step::Process(wanted) => bench.node.process(alloc, &mut bench.out) == wanted,
        Step::Copy(wanted) => does_copied(alloc, bench, wanted),
        Step::Come(pass, taken_back) => comes(alloc, bench, pass, taken_back),
        Step::RollBack(wanted) => bench.node.roll_back(&mut bench.out) == wanted,
        Step::Go(most, wanted) => goes(alloc, bench, most, wanted),
        Step::Meet(pass) => meets(alloc, &mut bench.out, pass),
        Step::Drop(bound) => drops(bench, bound),
        Step::Idled(key) => has_idled(&mut bench.dropped, key),
        Step::Passed(key) => has_passed(alloc, &mut bench.dropped, key),
        _ => is_seen(alloc, bench, step),
    }
}

// Whether what the step tells is seen.
fn is_seen(alloc: Global, bench: &Bench, step: Step) -> bool {
    match step {
        Step::Same => is_as_before(bench),
        Step::NoneDropped => bench.dropped.peek_next().is_none(),
        Step::Next(bound) => bench.node.next() == bound,
        Step::Base(bound) => bench.node.base() == bound,
        Step::Out(key, pluses, minuses) => {
            is_bag(alloc, &bench.out, passes(key, pluses, minuses), NOTHING)
        }
        Step::OutTwo(first, second) => {
            is_bag(alloc, &bench.out, passes(first, 1, 0), passes(second, 1, 0))
        }
        Step::Copied(key, pluses, minuses) => is_copied(
            alloc,
            &bench.copies,
            passes(key, pluses, minuses),
            NOTHING,
        ),
        Step::CopiedTwo(first, second) => is_copied(
            alloc,
            &bench.copies,
            passes(first, 1, 0),
            passes(second, 1, 0),
        ),
        _ => is_known(alloc, &bench.node, step),
    }
}

// Whether the component matches what others may know of it as the step says.
fn is_known(alloc: Global, node: &Node, step: Step) -> bool {
    match step {
        Step::Taken(known, tray, minuses, wanted) => is_taken(
            alloc,
            node,
            passes(AT_2, known, 0),
            passes(AT_2, tray, minuses),
            wanted,
        ),
        Step::TakenOther(wanted) => is_taken(alloc, node, passes(AT_3, 1, 0), NOTHING, wanted),
        Step::Standing(known, out, minuses, wanted) => is_standing(
            alloc,
            node,
            passes(AT_2, known, 0),
            passes(AT_2, out, minuses),
            wanted,
        ),
        Step::StandingOther(wanted) => {
            is_standing(alloc, node, passes(AT_3, 1, 0), NOTHING, wanted)
        }
        _ => false,
    }
}

fn begins(alloc: Global, bench: &mut Box<Bench>, number: u16) -> bool {
    match at_start(alloc, Given::Ring, number) {
        Ok(fresh) => {
            drop(mem::replace(bench, fresh));
            true
        }
        Err(_) => false,
    }
}

fn begins_anew(alloc: Global, bench: &mut Bench, number: u16) -> bool {
    match start(alloc, Given::Ring, number) {
        Ok(node) => {
            drop(mem::replace(&mut bench.out, Bag::new()));
            let before = mem::replace(&mut bench.node, node);
            keeps(alloc, &mut bench.before, before)
        }
        Err(_) => false,
    }
}

fn keeps(alloc: Global, kept: &mut Option<Box<Node>>, node: Node) -> bool {
    match Box::new(alloc, node) {
        Ok(node) => {
            drop(mem::replace(kept, Some(node)));
            true
        }
        Err(_) => false,
    }
}

fn is_as_before(bench: &Bench) -> bool {
    match &bench.before {
        Some(before) => bench.node == **before,
        None => false,
    }
}

fn does_copied(alloc: Global, bench: &mut Bench, wanted: Result<Key, ProcessRefused>) -> bool {
    let done = bench
        .node
        .process_copied(alloc, &mut bench.out, &mut bench.copies);
    done == wanted
}

fn comes(alloc: Global, bench: &mut Bench, pass: Pass, taken_back: u64) -> bool {
    match cell(alloc, pass) {
        Ok(cell) => deliver(bench, cell) == Some(taken_back),
        Err(_) => false,
    }
}

/// How many entries a message that comes takes back; nothing where it goes to another component.
pub(crate) fn deliver(bench: &mut Bench, cell: EventCell<Signed>) -> Option<u64> {
    if cell.value().message.to == bench.node.number() {
        Some(bench.node.deliver(cell, &mut bench.out))
    } else {
        drop(cell);
        None
    }
}

fn goes(alloc: Global, bench: &mut Bench, most: u32, wanted: Trip) -> bool {
    bench.node.lists_law();
    bench.node.there_and_back(alloc, most, &mut bench.out) == wanted
}

fn meets(alloc: Global, out: &mut Bag, pass: Pass) -> bool {
    match message(alloc, pass) {
        Ok(message) => {
            let is_met = out.meet(&message);
            drop(message);
            is_met
        }
        Err(_) => false,
    }
}

fn drops(bench: &mut Bench, bound: Bound) -> bool {
    let dropped = bench.node.drop_below(bound);
    drop(mem::replace(&mut bench.dropped, dropped));
    true
}

fn has_idled(turns: &mut EventList<Turned>, key: Key) -> bool {
    match turns.take_first() {
        Some(cell) => {
            let is_idle = cell.value().key == key && is_idle(&cell.value().outcome);
            drop(cell);
            is_idle
        }
        None => false,
    }
}

fn has_passed(alloc: Global, turns: &mut EventList<Turned>, key: Key) -> bool {
    match message(alloc, plus(key)) {
        Ok(message) => {
            let is_done = has_done(turns, key, &message.action);
            drop(message);
            is_done
        }
        Err(_) => false,
    }
}

fn has_done(turns: &mut EventList<Turned>, key: Key, action: &Action) -> bool {
    match turns.take_first() {
        Some(cell) => {
            let is_done = cell.value().key == key && did(&cell.value().outcome, action);
            drop(cell);
            is_done
        }
        None => false,
    }
}

fn is_idle(outcome: &Outcome) -> bool {
    matches!(outcome, Outcome::Idle)
}

fn did(outcome: &Outcome, action: &Action) -> bool {
    match outcome {
        Outcome::Did(done) => *done == *action,
        Outcome::Idle => false,
    }
}

fn is_bag(alloc: Global, held: &Bag, first: Held, second: Held) -> bool {
    match bag(alloc, first, second) {
        Ok(wanted) => {
            let is_same = *held == wanted;
            drop(wanted);
            is_same
        }
        Err(_) => false,
    }
}

fn is_copied(alloc: Global, copies: &Copies, first: Held, second: Held) -> bool {
    is_bag(alloc, &copies.of_sender, first, second)
        && is_bag(alloc, &copies.of_receiver, first, second)
}

// So many messages that are known, and those in another bag.
fn two_bags(alloc: Global, known: Held, held: Held) -> Result<(Bag, Bag), NoMemory> {
    let known = bag(alloc, known, NOTHING)?;
    match bag(alloc, held, NOTHING) {
        Ok(held) => Ok((known, held)),
        Err(refused) => {
            drop(known);
            Err(refused)
        }
    }
}

fn is_taken(alloc: Global, node: &Node, known: Held, tray: Held, wanted: bool) -> bool {
    match two_bags(alloc, known, tray) {
        Ok((known, tray)) => {
            let is_taken = node.has_taken(&known, &tray);
            drop(known);
            drop(tray);
            is_taken == wanted
        }
        Err(_) => false,
    }
}

fn is_standing(alloc: Global, node: &Node, known: Held, out: Held, wanted: bool) -> bool {
    match two_bags(alloc, known, out) {
        Ok((known, out)) => {
            let is_standing = node.has_standing(&known, &out);
            drop(known);
            drop(out);
            is_standing == wanted
        }
        Err(_) => false,
    }
}

/// The steps have the answers that they say.
pub(crate) fn assert_steps(rt: &(impl Abort + AllocGlobal), steps: &[Step]) {
    let mut bench = at_start(rt.alloc(), Given::Ring, 0).expect(rt, "memory for a component");
    for (k, step) in steps.iter().enumerate() {
        let is_right = is_answered(rt.alloc(), &mut bench, *step);
        assert!(rt; is_right, "at step {k}");
    }
    drop(bench);
}

fn is_answered(alloc: Global, bench: &mut Box<Bench>, step: Step) -> bool {
    match step {
        Step::Begin(number) => begins(alloc, bench, number),
        _ => does(alloc, &mut **bench, step),
    }
}
