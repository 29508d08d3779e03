//! Components of the ring against what others may know of them, by hand.

use super::given::{AT_1, AT_2, AT_3, PASS_2, UNSENT_2};
use super::steps::Step::{self, Begin, Come, Process, Standing, StandingOther, Taken, TakenOther};
use super::steps::assert_steps;

// Of the first pass: how often it is in a bag that is known, how often it and its antimessage are in one on its way, and the answer.
const MATCHING: [Step; 43] = [
    // nothing is taken at the start
    Begin(1),
    Taken(0, 0, 0, true),
    Taken(1, 0, 0, false),
    Taken(0, 1, 0, false),
    Taken(1, 1, 0, true),
    Taken(0, 1, 1, true),
    TakenOther(true),
    // what is pending is taken
    Begin(1),
    Come(PASS_2, 0),
    Taken(1, 0, 0, true),
    Taken(0, 0, 0, false),
    Taken(2, 0, 0, false),
    Taken(2, 1, 0, true),
    Taken(1, 0, 1, false),
    Taken(0, 0, 1, true),
    // what is done is taken
    Begin(1),
    Process(Ok(AT_1)),
    Come(PASS_2, 0),
    Process(Ok(AT_2)),
    Process(Ok(AT_3)),
    Taken(1, 0, 0, true),
    Taken(0, 0, 0, false),
    Taken(2, 0, 0, false),
    Taken(2, 1, 0, true),
    Taken(1, 0, 1, false),
    Taken(0, 0, 1, true),
    // what is owed waits for its message
    Begin(1),
    Come(UNSENT_2, 0),
    Taken(0, 0, 0, false),
    Taken(0, 1, 0, true),
    // nothing stands at the start
    Begin(0),
    Standing(0, 0, 0, true),
    Standing(1, 0, 0, false),
    Standing(0, 1, 0, false),
    Standing(1, 0, 1, true),
    StandingOther(true),
    // what was passed stands
    Begin(0),
    Process(Ok(AT_2)),
    Standing(1, 0, 0, true),
    Standing(0, 1, 0, true),
    Standing(0, 0, 0, false),
    Standing(1, 1, 0, false),
    Standing(2, 0, 1, true),
];

#[test]
fn what_is_taken_and_what_stands(rt: HostRuntime) {
    assert_steps(&rt, &MATCHING);
}
