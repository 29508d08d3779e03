//! Messages that differ in the key or in the action alone, and what an antimessage does to them.

use super::given::{AT_1, AT_2, AT_3, PASS_2, Pass, UNSENT_2};
use super::steps::Step::{self, Anew, Begin, Come, Next, Process, Same};
use super::steps::{EMPTY, assert_steps};
use event_keys::{Bound, Key, Sign};

// Component 0's next turn at the same tick, and its first turn at another one.
const LATER: Key = Key {
    tick: 2,
    component: 0,
    number: 1,
};

const AT_TICK_3: Key = Key {
    tick: 3,
    component: 0,
    number: 0,
};

const PASS_LATER: Pass = Pass {
    sign: Sign::Plus,
    key: LATER,
    argument: 1,
};

const UNSENT_LATER: Pass = Pass {
    sign: Sign::Minus,
    key: LATER,
    argument: 1,
};

const PASS_AT_3: Pass = Pass {
    sign: Sign::Plus,
    key: AT_TICK_3,
    argument: 1,
};

const UNSENT_AT_3: Pass = Pass {
    sign: Sign::Minus,
    key: AT_TICK_3,
    argument: 1,
};

const PASS_SEVEN: Pass = Pass {
    sign: Sign::Plus,
    key: AT_2,
    argument: 7,
};

const UNSENT_SEVEN: Pass = Pass {
    sign: Sign::Minus,
    key: AT_2,
    argument: 7,
};

// The first pass has the tick 2, the number 0 and the argument 1; the other message differs in one of these.
const APART: [Step; 78] = [
    // an antimessage takes its own message alone
    Begin(1),
    Come(PASS_2, 0),
    Come(PASS_LATER, 0),
    Come(UNSENT_2, 0),
    EMPTY,
    Anew(1),
    Come(PASS_LATER, 0),
    EMPTY,
    Same,
    // another antimessage leaves a message
    Begin(1),
    Come(PASS_LATER, 0),
    Come(PASS_2, 0),
    Come(UNSENT_LATER, 0),
    EMPTY,
    Anew(1),
    Come(PASS_2, 0),
    EMPTY,
    Same,
    // an antimessage leaves another input that is done
    Begin(1),
    Come(PASS_LATER, 0),
    EMPTY,
    Process(Ok(AT_1)),
    Process(Ok(LATER)),
    Come(UNSENT_2, 0),
    Next(Bound::At(AT_3)),
    EMPTY,
    // an antimessage takes its own message alone
    Begin(1),
    Come(PASS_2, 0),
    Come(PASS_AT_3, 0),
    Come(UNSENT_2, 0),
    EMPTY,
    Anew(1),
    Come(PASS_AT_3, 0),
    EMPTY,
    Same,
    // another antimessage leaves a message
    Begin(1),
    Come(PASS_AT_3, 0),
    Come(PASS_2, 0),
    Come(UNSENT_AT_3, 0),
    EMPTY,
    Anew(1),
    Come(PASS_2, 0),
    EMPTY,
    Same,
    // an antimessage leaves another input that is done
    Begin(1),
    Come(PASS_AT_3, 0),
    EMPTY,
    Process(Ok(AT_1)),
    Process(Ok(AT_TICK_3)),
    Come(UNSENT_2, 0),
    Next(Bound::At(AT_3)),
    EMPTY,
    // an antimessage takes its own message alone
    Begin(1),
    Come(PASS_2, 0),
    Come(PASS_SEVEN, 0),
    Come(UNSENT_2, 0),
    EMPTY,
    Anew(1),
    Come(PASS_SEVEN, 0),
    EMPTY,
    Same,
    // another antimessage leaves a message
    Begin(1),
    Come(PASS_SEVEN, 0),
    Come(PASS_2, 0),
    Come(UNSENT_SEVEN, 0),
    EMPTY,
    Anew(1),
    Come(PASS_2, 0),
    EMPTY,
    Same,
    // an antimessage leaves another input that is done
    Begin(1),
    Come(PASS_SEVEN, 0),
    EMPTY,
    Process(Ok(AT_1)),
    Process(Ok(AT_2)),
    Come(UNSENT_2, 0),
    Next(Bound::At(AT_3)),
    EMPTY,
];

#[test]
fn an_antimessage_takes_its_own_message_alone(rt: HostRuntime) {
    assert_steps(&rt, &APART);
}
