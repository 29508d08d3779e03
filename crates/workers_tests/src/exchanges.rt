//! The exchange of the ring of two and its leases, against answers worked out by hand.

pub(crate) mod steps;

use event_keys::Bound::End;
use exchange::MeetRefused::{self, OtherSetup, Stranger};
use steps::Away::{Coming, Floor, Number, Runs, Settles, Stands, Waits};
use steps::Here::{Commits, Finished, Gives, Mail, Turn};
use steps::Step::{self, Judges, Meets, Of, On, SameExchanges, SameLeases};
use steps::{AT_1, AT_2, AT_3, AT_4, START, assert_steps};
use terms::Refusal;

const FIRST_TURN: [Step; 31] = [
    // a fresh lease of an equal setup is known at the start
    Meets(0, 4, Ok(START)),
    SameExchanges(0, 1, true),
    Of(0, Runs(1, 1)),
    Meets(0, 0, Ok(START)),
    Of(1, Runs(2, 2)),
    Meets(0, 1, Ok(START)),
    Of(1, Coming(AT_2)),
    Of(1, Stands(2, End)),
    On(0, Commits(1, AT_2)),
    On(0, Gives(0, 0)),
    Of(1, Settles(1)),
    Meets(0, 1, Ok(AT_2)),
    Meets(0, 0, Ok(AT_2)),
    On(0, Gives(0, 1)),
    On(0, Finished(false)),
    // the same with another exchange
    Of(2, Runs(1, 1)),
    Meets(1, 2, Ok(START)),
    Of(3, Runs(2, 2)),
    Meets(1, 3, Ok(START)),
    On(1, Commits(1, AT_2)),
    Of(3, Settles(1)),
    Meets(1, 3, Ok(AT_2)),
    Meets(1, 2, Ok(AT_2)),
    On(1, Gives(0, 1)),
    // a fresh lease is a stranger now, and a refusal changes neither
    Meets(0, 6, Err(Stranger)),
    Meets(0, 8, Err(OtherSetup)),
    SameExchanges(0, 1, true),
    SameLeases(4, 6, true),
    SameLeases(0, 2, true),
    SameLeases(1, 3, true),
    Meets(0, 0, Ok(AT_2)),
];

// A window of one turn: a lease stops before its second one until the first is committed; inputs are always taken.
const IN_A_WINDOW: [Step; 14] = [
    SameLeases(4, 10, false),
    SameExchanges(2, 5, false),
    Of(11, Runs(2, 1)),
    Of(11, Runs(2, 0)),
    Of(10, Runs(1, 1)),
    Meets(5, 10, Ok(START)),
    Meets(5, 11, Ok(START)),
    On(5, Commits(1, AT_2)),
    Of(11, Settles(1)),
    Meets(5, 11, Ok(AT_2)),
    Of(11, Runs(2, 2)),
    // a lease without a window isn't one of this exchange, nor one with a window of another
    Judges(5, 0, Err(OtherSetup)),
    Meets(5, 0, Err(OtherSetup)),
    Meets(0, 10, Err(OtherSetup)),
];

// Each lease delivers its tray, runs ahead and meets, and the exchange commits and gives, in each of six rounds.
const ROUNDS: [Step; 50] = [
    Of(0, Settles(0)),
    Of(0, Runs(5, 2)),
    Meets(0, 0, Ok(START)),
    Of(1, Settles(0)),
    Of(1, Runs(5, 2)),
    Meets(0, 1, Ok(START)),
    On(0, Commits(1, AT_2)),
    On(0, Gives(0, 0)),
    // the token comes to component 1, which passes it on at the tick 3
    Of(0, Settles(0)),
    Of(0, Runs(5, 0)),
    Meets(0, 0, Ok(AT_2)),
    Of(1, Settles(1)),
    Of(1, Runs(5, 2)),
    Meets(0, 1, Ok(AT_2)),
    On(0, Commits(2, AT_3)),
    On(0, Gives(0, 1)),
    Of(0, Settles(0)),
    Of(0, Runs(5, 0)),
    Meets(0, 0, Ok(AT_3)),
    Of(1, Settles(0)),
    Of(1, Runs(5, 0)),
    Meets(0, 1, Ok(AT_3)),
    On(0, Commits(2, AT_3)),
    On(0, Gives(1, 2)),
    // it comes back to component 0, which passes it on at the tick 4
    Of(0, Settles(1)),
    Of(0, Runs(5, 2)),
    Meets(0, 0, Ok(AT_3)),
    Of(1, Settles(0)),
    Of(1, Runs(5, 0)),
    Meets(0, 1, Ok(AT_3)),
    On(0, Commits(3, AT_4)),
    On(0, Gives(2, 2)),
    Of(0, Settles(0)),
    Of(0, Runs(5, 0)),
    Meets(0, 0, Ok(AT_4)),
    Of(1, Settles(1)),
    Of(1, Runs(5, 1)),
    Meets(0, 1, Ok(AT_4)),
    On(0, Commits(4, End)),
    On(0, Gives(2, 3)),
    On(0, Finished(false)),
    Of(0, Settles(0)),
    Of(0, Runs(5, 0)),
    Meets(0, 0, Ok(End)),
    Of(1, Settles(0)),
    Of(1, Runs(5, 0)),
    Meets(0, 1, Ok(End)),
    On(0, Commits(4, End)),
    On(0, Gives(3, 4)),
    On(0, Finished(true)),
];

#[test]
fn all_turns_come_once_and_in_order(rt: HostRuntime) {
    assert_steps(&rt, &FIRST_TURN, &[]);
    assert_steps(&rt, &ROUNDS, &[]);
}

#[test]
fn a_window_stops_own_turns(rt: HostRuntime) {
    assert_steps(&rt, &IN_A_WINDOW, &[]);
}

// Both leases run ahead, and all else is done without memory: the first turn is given, and what was told of the next is delivered.
const AHEAD: [Step; 3] = [Of(0, Runs(1, 1)), Of(1, Runs(2, 2)), Of(4, Runs(1, 1))];

const WITHOUT_MEMORY: [Step; 27] = [
    Of(1, Number(1)),
    On(0, Turn(1, 1, AT_3)),
    Of(0, Waits(true, false)),
    Judges(0, 0, Ok(())),
    Meets(0, 0, Ok(START)),
    Meets(0, 1, Ok(START)),
    Of(1, Coming(AT_2)),
    On(0, Commits(1, AT_2)),
    On(0, Gives(0, 0)),
    Of(1, Settles(1)),
    Of(1, Stands(1, AT_2)),
    Meets(0, 1, Ok(AT_2)),
    Meets(0, 0, Ok(AT_2)),
    On(0, Mail(1, false)),
    On(0, Gives(0, 1)),
    On(0, Finished(false)),
    Of(0, Floor(AT_4)),
    // strangers stay strangers
    Meets(0, 6, Err(Stranger)),
    Meets(0, 8, Err(OtherSetup)),
    SameLeases(6, 2, true),
    SameExchanges(1, 2, true),
    // a lease of another exchange is known at the start, and the own one isn't then
    Meets(1, 4, Ok(START)),
    Meets(1, 2, Err(Stranger)),
    Meets(1, 2, Err(Stranger)),
    SameLeases(2, 6, true),
    SameExchanges(1, 2, false),
    Of(4, Settles(0)),
];

const AWAY: [Step; 26] = [
    On(0, Turn(1, 1, AT_3)),
    On(0, Turn(1, 2, End)),
    On(0, Finished(false)),
    // leases run ahead to their last turn
    Of(2, Number(0)),
    Of(2, Runs(0, 0)),
    Of(2, Runs(1, 1)),
    Of(2, Runs(5, 1)),
    Of(2, Runs(5, 0)),
    Of(2, Settles(0)),
    Of(3, Number(1)),
    Of(3, Runs(0, 0)),
    Of(3, Runs(1, 1)),
    Of(3, Runs(5, 1)),
    Of(3, Runs(5, 0)),
    Of(3, Settles(0)),
    // component 0 has the token at the start, and passes it on; then it has nothing to do, as component 1 has from the start
    Of(4, Waits(false, false)),
    Of(4, Runs(1, 1)),
    Of(4, Waits(true, false)),
    Of(4, Runs(1, 1)),
    Of(4, Waits(true, true)),
    Of(5, Runs(1, 1)),
    Of(5, Waits(false, true)),
    // nothing is below the first floor
    On(1, Commits(0, AT_1)),
    On(1, Commits(0, AT_1)),
    On(1, Finished(false)),
    On(1, Gives(0, 0)),
];

const MAIL: [Step; 23] = [
    On(0, Mail(0, false)),
    On(0, Mail(1, false)),
    On(0, Mail(2, false)),
    Of(0, Stands(0, AT_2)),
    Of(1, Stands(0, AT_1)),
    Of(0, Runs(1, 1)),
    On(0, Mail(1, false)),
    Meets(0, 0, Ok(START)),
    On(0, Mail(1, true)),
    On(0, Mail(0, false)),
    Of(0, Stands(1, AT_4)),
    Of(0, Floor(AT_4)),
    Of(1, Runs(2, 2)),
    Meets(0, 1, Ok(START)),
    On(0, Mail(1, false)),
    Of(1, Coming(AT_2)),
    Of(1, Stands(2, End)),
    Of(1, Floor(AT_2)),
    On(0, Commits(1, AT_2)),
    // the token takes the turn at the tick 3 back, and that at the tick 1 is below the bound
    Of(1, Settles(1)),
    Of(1, Stands(1, AT_2)),
    Meets(0, 1, Ok(AT_2)),
    Of(1, Stands(0, AT_2)),
];

#[test]
fn leases_tell_where_they_stand(rt: HostRuntime) {
    assert_steps(&rt, &AHEAD, &WITHOUT_MEMORY);
    assert_steps(&rt, &AWAY, &[]);
    assert_steps(&rt, &MAIL, &[]);
}

const STRANGE: [Step; 19] = [
    // a lease of an equal setup is known, also a turn ahead, and one of another horizon isn't
    Judges(0, 2, Ok(())),
    Of(2, Runs(1, 1)),
    Judges(0, 2, Ok(())),
    Judges(0, 3, Ok(())),
    Of(3, Runs(1, 1)),
    Judges(0, 3, Ok(())),
    Judges(0, 8, Err(OtherSetup)),
    Of(8, Runs(1, 1)),
    Judges(0, 8, Err(OtherSetup)),
    Judges(0, 9, Err(OtherSetup)),
    Of(9, Runs(1, 1)),
    Judges(0, 9, Err(OtherSetup)),
    // one that ran ahead takes the own lease's place, which is a stranger then
    Meets(0, 2, Ok(START)),
    Of(4, Runs(1, 1)),
    Meets(3, 4, Ok(START)),
    Meets(0, 0, Err(Stranger)),
    Meets(0, 0, Err(Stranger)),
    SameExchanges(0, 3, true),
    SameLeases(0, 6, true),
];

const SAME: [Step; 40] = [
    SameLeases(0, 0, true),
    SameLeases(0, 1, false),
    SameLeases(0, 2, true),
    SameLeases(1, 3, true),
    SameExchanges(0, 1, true),
    // with another horizon
    SameLeases(0, 8, false),
    SameLeases(1, 9, false),
    SameExchanges(0, 4, false),
    // one lease alone is a turn ahead
    Of(4, Runs(1, 1)),
    SameLeases(4, 6, false),
    Of(6, Runs(1, 1)),
    SameLeases(4, 6, true),
    Of(5, Runs(1, 1)),
    SameLeases(5, 7, false),
    Of(7, Runs(1, 1)),
    SameLeases(5, 7, true),
    // the first commit raises the bound to the tick 1, and none raises it further before a lease meets
    On(2, Commits(0, AT_1)),
    SameExchanges(2, 3, false),
    On(3, Commits(0, AT_1)),
    SameExchanges(2, 3, true),
    On(3, Commits(0, AT_1)),
    SameExchanges(2, 3, true),
    // leases that did nothing leave the exchange as it is, and one that is a turn ahead changes its stub's floor
    Meets(0, 0, Ok(START)),
    SameExchanges(0, 1, true),
    Meets(0, 1, Ok(START)),
    SameExchanges(0, 1, true),
    Of(0, Runs(1, 1)),
    Meets(0, 0, Ok(START)),
    SameExchanges(0, 1, false),
    Of(2, Runs(1, 1)),
    Meets(1, 2, Ok(START)),
    SameExchanges(0, 1, true),
    SameLeases(0, 2, true),
    Of(1, Runs(1, 1)),
    Meets(0, 1, Ok(START)),
    SameExchanges(0, 1, false),
    Of(3, Runs(1, 1)),
    Meets(1, 3, Ok(START)),
    SameExchanges(0, 1, true),
    SameLeases(1, 3, true),
];

#[test]
fn strangers_are_refused_and_equals_are_known(rt: HostRuntime) {
    assert_steps(&rt, &STRANGE, &[]);
    assert_steps(&rt, &SAME, &[]);
    assert!(rt; OtherSetup.number() == 40 && OtherSetup.place().is_none());
    assert!(rt; Stranger.number() == 41 && Stranger.place().is_none());
}
