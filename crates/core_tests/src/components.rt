//! One component of the ring of two, against values worked out by hand; worlds, and calls that are refused their memory.

mod apart;
mod calls;
mod copied;
mod given;
mod matching;
mod refused;
mod steps;
mod turns;
mod worlds;

use event_keys::Bound;
use given::{AT_1, AT_2, AT_3, Given, PASS_2, UNSENT_2};
use rollback::{ProcessRefused, Trip};
use steps::Step::{
    self, Anew, Base, Begin, Come, Drop, Go, Idled, Meet, Next, NoneDropped, Out, Passed, Process,
    RollBack, Same,
};
use steps::{EMPTY, ENDED, assert_steps, at_start};
use terms::{NoMemory, Refusal};

const STRAGGLERS: [Step; 48] = [
    // a message takes back what is later
    Begin(0),
    Process(Ok(AT_2)),
    Out(AT_2, 1, 0),
    Begin(1),
    Process(Ok(AT_1)),
    Process(Ok(AT_3)),
    EMPTY,
    Come(PASS_2, 1),
    Next(Bound::At(AT_2)),
    EMPTY,
    // a pending message is taken back
    Begin(1),
    Process(Ok(AT_1)),
    Process(Ok(AT_3)),
    EMPTY,
    Come(PASS_2, 1),
    Come(UNSENT_2, 0),
    Next(Bound::At(AT_3)),
    Process(Ok(AT_3)),
    EMPTY,
    Anew(1),
    Process(Ok(AT_1)),
    Process(Ok(AT_3)),
    EMPTY,
    Same,
    // a turn is rolled back once
    Begin(0),
    Process(Ok(AT_2)),
    RollBack(true),
    Out(AT_2, 1, 1),
    Meet(PASS_2),
    EMPTY,
    RollBack(false),
    EMPTY,
    Anew(0),
    Same,
    // an antimessage takes back from its message on
    Begin(1),
    Process(Ok(AT_1)),
    EMPTY,
    Come(PASS_2, 0),
    Process(Ok(AT_2)),
    Process(Ok(AT_3)),
    Out(AT_3, 1, 0),
    Come(UNSENT_2, 2),
    Out(AT_3, 1, 1),
    Next(Bound::At(AT_3)),
    Anew(1),
    Process(Ok(AT_1)),
    EMPTY,
    Same,
];

const OWED: [Step; 29] = [
    // an antimessage is owed until its message comes
    Begin(1),
    Come(UNSENT_2, 0),
    Come(PASS_2, 0),
    Next(Bound::At(AT_1)),
    EMPTY,
    Anew(1),
    Same,
    // and once
    Begin(1),
    Process(Ok(AT_1)),
    EMPTY,
    Come(UNSENT_2, 0),
    Come(PASS_2, 0),
    Next(Bound::At(AT_3)),
    Come(PASS_2, 0),
    Next(Bound::At(AT_2)),
    // a message that comes twice is taken back once
    Begin(0),
    Process(Ok(AT_2)),
    RollBack(true),
    Process(Ok(AT_2)),
    Out(AT_2, 2, 1),
    Begin(1),
    Come(PASS_2, 0),
    Come(PASS_2, 0),
    Come(UNSENT_2, 0),
    EMPTY,
    Anew(1),
    Come(PASS_2, 0),
    EMPTY,
    Same,
];

const THERE_AND_BACK: [Step; 15] = [
    // component 0 passes the token and then idles
    Begin(0),
    Go(
        1,
        Trip {
            entries: 1,
            stopped: None,
        },
    ),
    Out(AT_2, 1, 1),
    Anew(0),
    Same,
    Begin(0),
    Go(
        2,
        Trip {
            entries: 2,
            stopped: None,
        },
    ),
    Out(AT_2, 1, 1),
    Anew(0),
    Same,
    Begin(0),
    Go(
        7,
        Trip {
            entries: 2,
            stopped: Some(ProcessRefused::NothingPending),
        },
    ),
    Out(AT_2, 1, 1),
    Anew(0),
    Same,
];

const DROPPED: [Step; 40] = [
    Begin(1),
    Process(Ok(AT_1)),
    Process(Ok(AT_3)),
    EMPTY,
    Drop(Bound::At(AT_3)),
    Base(Bound::At(AT_3)),
    Idled(AT_1),
    NoneDropped,
    RollBack(true),
    Next(Bound::At(AT_3)),
    RollBack(false),
    EMPTY,
    Process(Ok(AT_3)),
    Drop(Bound::End),
    Idled(AT_3),
    NoneDropped,
    RollBack(false),
    // turns are dropped in order
    Begin(1),
    Process(Ok(AT_1)),
    Come(PASS_2, 0),
    Process(Ok(AT_2)),
    Process(Ok(AT_3)),
    Drop(Bound::End),
    Idled(AT_1),
    Passed(AT_3),
    NoneDropped,
    Begin(1),
    Process(Ok(AT_1)),
    Process(Ok(AT_3)),
    Drop(Bound::End),
    Idled(AT_1),
    Idled(AT_3),
    NoneDropped,
    // nothing is pending at the end
    Begin(1),
    Process(Ok(AT_1)),
    Process(Ok(AT_3)),
    Next(Bound::End),
    Process(ENDED),
    Next(Bound::End),
    EMPTY,
];

#[test]
fn stragglers_and_antimessages(rt: HostRuntime) {
    assert_steps(&rt, &STRAGGLERS);
    assert_steps(&rt, &OWED);
}

#[test]
fn what_is_processed_is_taken_back(rt: HostRuntime) {
    assert_steps(&rt, &THERE_AND_BACK);
}

#[test]
fn what_is_below_the_bound_is_dropped_in_order(rt: HostRuntime) {
    assert_steps(&rt, &DROPPED);
}

#[test]
fn a_component_has_its_setup(rt: HostRuntime) {
    let first = at_start(rt.alloc(), Given::Ring, 0).expect(&rt, "memory for a component");
    let second = at_start(rt.alloc(), Given::Ring, 1).expect(&rt, "memory for another");
    assert!(rt; second.node.setup().key(1, 1) == Some(AT_3));
    assert!(rt; second.node.setup() == first.node.setup());
    drop(first);
    drop(second);
}

#[test]
fn refusals_have_numbers(rt: HostRuntime) {
    let memory = ProcessRefused::from(NoMemory);
    for (refused, number) in [(memory, 1), (ProcessRefused::NothingPending, 31)] {
        assert_eq!(rt; refused.number(), number);
        assert_eq!(rt; refused.place(), None);
    }
}
