//! Orders and ranks at values that were worked out by hand.
ghost use Rattle.std.specs.Prelude.{◌≡◌, ◌^◌};
ghost use Rattle.event_keys.specs.Ranks.{rank, rank_of_bound, owner_of};

use super::key;
use event_keys::{Bound, Entry, Key, Message, Outcome, Sign, Signed, Turned};
use std::alloc::AllocGlobal;
use std::process::Abort;
use terms::{Action, Scalar};

fn action(rt: &(impl Abort + AllocGlobal), name: u16, argument: i64, truth: bool) -> Action {
    let args = [Scalar::Int(argument), Scalar::Bool(truth)];
    let args = Vec::from_array(rt.alloc(), args).expect(rt, "memory for arguments");
    Action::new(name, args)
}

fn message(
    rt: &(impl Abort + AllocGlobal),
    key: Key,
    name: u16,
    argument: i64,
    to: u16,
) -> Message {
    Message {
        key,
        action: action(rt, name, argument, true),
        to,
    }
}

// A turn that was idle, or did an action of this name with this argument.
fn turned(rt: &(impl Abort + AllocGlobal), key: Key, did: Option<(u16, i64)>) -> Turned {
    let outcome = match did {
        None => Outcome::Idle,
        Some((name, argument)) => Outcome::Did(action(rt, name, argument, true)),
    };
    Turned { key, outcome }
}

// Whether each value is above all those before it, and equal to itself alone.
fn rise<T: Ord>(values: &[T]) -> bool {
    for (k, earlier) in values.iter().enumerate() {
        for (n, later) in values.iter().enumerate() {
            if earlier.cmp(later) != k.cmp(&n) || (earlier == later) != (k == n) {
                return false;
            }
        }
    }
    true
}

// 2 * 2^80, 2^80 + 2^64 and 2^144.
fn ranks_by_hand()
    ensures tick { rank (record { tick = 2; component = 0; number = 0 })
        ≡ 2417851639229258349412352 }
    ensures component { rank (record { tick = 1; component = 1; number = 0 })
        ≡ 1208944266358702884257792 }
    ensures number { rank (record { tick = 0; component = 0; number = 7 }) ≡ 7 }
    ensures owner { owner_of 1208944266358702884257792 ≡ 1 }
    ensures end { rank_of_bound Bound.End ≡ 22300745198530623141535718272648361505980416 }
{}

#[test]
fn keys_rise_by_tick_then_component_then_number_and_the_end_is_above_all(rt: HostRuntime) {
    ranks_by_hand();
    let keys = [
        key(1, 9, 9),
        key(2, 0, 0),
        key(2, 0, 9),
        key(2, 1, 0),
        key(2, 1, 1),
        key(10, 0, 0),
    ];
    assert!(rt; rise(&keys));
    let bounds = [
        Bound::At(key(0, 0, 0)),
        Bound::At(key(0, 0, 1)),
        Bound::At(key(u64::MAX, u16::MAX, u64::MAX)),
        Bound::End,
    ];
    assert!(rt; rise(&bounds));
}

#[test]
fn messages_rise_by_key_then_action_then_receiver_and_then_by_sign(rt: HostRuntime) {
    let actions = [
        action(&rt, 1, -3, true),
        action(&rt, 1, 2, false),
        action(&rt, 1, 2, true),
        action(&rt, 2, -9, false),
    ];
    assert!(rt; rise(&actions));
    let copy = actions[0].clone().expect(&rt, "memory for a copy");
    assert!(rt; copy == actions[0]);
    drop(copy);
    drop(actions);
    let messages = [
        message(&rt, key(1, 1, 1), 3, 2, 9),
        message(&rt, key(1, 2, 0), 3, -5, 4),
        message(&rt, key(1, 2, 0), 3, -5, 5),
        message(&rt, key(1, 2, 0), 3, 2, 0),
    ];
    assert!(rt; rise(&messages));
    drop(messages);
    let signed = [
        Signed {
            message: message(&rt, key(1, 0, 0), 3, 0, 1),
            sign: Sign::Plus,
        },
        Signed {
            message: message(&rt, key(1, 0, 0), 3, 0, 1),
            sign: Sign::Minus,
        },
        Signed {
            message: message(&rt, key(1, 0, 0), 3, 0, 2),
            sign: Sign::Plus,
        },
    ];
    assert!(rt; rise(&signed));
    drop(signed);
}

// An idle turn is before any action, and an own turn before an input of the same action.
#[test]
fn entries_rise_by_key_then_action_and_then_by_receiver(rt: HostRuntime) {
    let at = key(6, 2, 1);
    let entries = [
        Entry::Input(message(&rt, key(5, 9, 9), 4, 0, 9)),
        Entry::Own(turned(&rt, at, None)),
        Entry::Own(turned(&rt, at, Some((3, 1)))),
        Entry::Input(message(&rt, at, 3, 1, 0)),
        Entry::Input(message(&rt, at, 3, 1, 1)),
        Entry::Own(turned(&rt, at, Some((4, 0)))),
        Entry::Input(message(&rt, at, 4, 0, 0)),
    ];
    assert!(rt; rise(&entries));
    assert!(rt; entries[0].key() == key(5, 9, 9) && entries[1].key() == at);
    drop(entries);
    let turns = [
        turned(&rt, at, Some((0, 0))),
        turned(&rt, key(6, 2, 2), None),
    ];
    assert!(rt; rise(&turns));
    drop(turns);
}
