//! Steps that copy what they send, on the ring, by hand.

use super::given::{AT_1, AT_2, AT_3, AT_4, PASS_2, PASS_3};
use super::steps::Step::{self, Begin, Come, Copied, CopiedTwo, Copy, Out, OutTwo, RollBack};
use super::steps::{EMPTY, ENDED, assert_steps};

const COPIED: [Step; 34] = [
    // what a turn sends is copied
    Begin(0),
    Copy(Ok(AT_2)),
    Out(AT_2, 1, 0),
    Copied(AT_2, 1, 0),
    // a further turn adds its copies; the token comes back between the turns
    Begin(0),
    Copy(Ok(AT_2)),
    Come(PASS_3, 0),
    Copy(Ok(AT_3)),
    Copy(Ok(AT_4)),
    OutTwo(AT_2, AT_4),
    CopiedTwo(AT_2, AT_4),
    // a roll-back leaves the copies
    Begin(0),
    Copy(Ok(AT_2)),
    RollBack(true),
    Out(AT_2, 1, 1),
    Copied(AT_2, 1, 0),
    // an entry that is done again is copied again
    Begin(0),
    Copy(Ok(AT_2)),
    RollBack(true),
    Copy(Ok(AT_2)),
    Out(AT_2, 2, 1),
    Copied(AT_2, 2, 0),
    // an idle turn and an input make no copies
    Begin(1),
    Copy(Ok(AT_1)),
    Come(PASS_2, 0),
    Copy(Ok(AT_2)),
    EMPTY,
    Copied(AT_2, 0, 0),
    // where nothing is next the copies stay
    Begin(0),
    Copy(Ok(AT_2)),
    Copy(Ok(AT_4)),
    Copy(ENDED),
    Out(AT_2, 1, 0),
    Copied(AT_2, 1, 0),
];

#[test]
fn what_a_turn_sends_is_copied(rt: HostRuntime) {
    assert_steps(&rt, &COPIED);
}
