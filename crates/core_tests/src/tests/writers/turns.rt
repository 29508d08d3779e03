//! The lines of turns, worked out by hand.

use super::super::key;
use super::{Narrow, counted};
use event_keys::{Key, Outcome, Turned};
use fixtures::memory::{exhaust, room};
use fixtures::ring;
use plans::Plan;
use std::alloc::AllocGlobal;
use std::io::ErrorKind;
use std::process::Abort;
use terms::{Action, Refusal, Scalar};
use trace::{Counted, Lines, WriteFault, write_head, write_turns};

const TEXT: &str = "1 1 0 idle\n2 0 0 pass(1)\n3 1 1 pass(0)\n4 0 1 pass(1)\n";

const TRACE: &str = "2 0 0 pass(1)\n3 1 1 pass(0)\n4 0 1 pass(1)\n";

// Turns with arguments of each type, and with none.
const ARGUMENTS: &str =
    "18446744073709551615 65535 10 pass(true,-3)\n7 0 18446744073709551615 pass\n8 2 0 (false,,-9223372036854775808)\n";

// A line that is too long to be put together at once: its pieces go out one after another.
const LONG: &str =
    "1 0 0 pass(-9223372036854775808,-9223372036854775808,-9223372036854775808,-9223372036854775808,-9223372036854775808,-9223372036854775808,-9223372036854775808,-9223372036854775808)\n";

const EIGHT_ARGUMENTS: [Scalar; 8] = [Scalar::Int(i64::MIN); 8];

const TWO_ARGUMENTS: [Scalar; 2] = [Scalar::Bool(true), Scalar::Int(-3)];

const THREE_ARGUMENTS: [Scalar; 3] = [
    Scalar::Bool(false),
    Scalar::Member(0),
    Scalar::Int(i64::MIN),
];

// A turn by which the action of this name was taken, or which was idle.
fn turned(rt: &(impl Abort + AllocGlobal), key: Key, name: Option<u16>, args: &[Scalar]) -> Turned {
    let outcome = match name {
        None => Outcome::Idle,
        Some(name) => {
            let args = args.to_vec(rt.alloc()).expect(rt, "memory for arguments");
            Outcome::Did(Action::new(name, args))
        }
    };
    Turned { key, outcome }
}

// Whether a writer with so much room takes as much of the text's beginning, and a failed write is counted where that isn't all.
fn writes(
    mut out: Counted<Narrow>,
    plan: &Plan,
    turns: &[Turned],
    lines: Lines,
    room: usize,
    text: &str,
) -> bool {
    let answer = write_turns(plan, turns.iter(), lines, &mut out);
    went(answer, out, room, text)
}

// Whether this is what became of a text, and of a writer with so much room.
fn went(answer: Result<(), WriteFault>, out: Counted<Narrow>, room: usize, text: &str) -> bool {
    let bytes = text.as_bytes();
    let is_short = room < bytes.len();
    let wanted = if is_short {
        Err(WriteFault::WriteFailed(room as u64))
    } else {
        Ok(())
    };
    let is_counted = out.failures() == u64::from(is_short);
    let part = bytes.get(..room).unwrap_or(bytes);
    let writer = out.into_inner();
    let is_part = writer.held.as_slice() == part;
    drop(writer);
    answer == wanted && is_counted && is_part
}

#[test]
fn writes_turns_up_to_where_the_writer_fails(rt: HostRuntime) {
    let plan = ring(rt.alloc()).expect(&rt, "memory for a plan");
    let turns = [
        turned(&rt, key(1, 1, 0), None, &[]),
        turned(&rt, key(2, 0, 0), Some(0), &[Scalar::Int(1)]),
        turned(&rt, key(3, 1, 1), Some(0), &[Scalar::Int(0)]),
        turned(&rt, key(4, 0, 1), Some(0), &[Scalar::Int(1)]),
    ];
    for step in [1, 3, 100] {
        let all = counted(&rt, step, 100, None);
        assert!(rt; writes(all, &plan, &turns, Lines::All, 100, TEXT));
        let external = counted(&rt, step, 100, None);
        assert!(rt; writes(external, &plan, &turns, Lines::Trace, 100, TRACE));
        let nothing = counted(&rt, step, 0, None);
        assert!(rt; writes(nothing, &plan, &turns[..0], Lines::All, 0, ""));
    }
    for room in 0..10 {
        let mut narrow = counted(&rt, 3, room, None);
        let answer = write_head(&mut narrow);
        assert!(rt;
            went(answer, narrow, room, "trace 2\n"),
            "room for {room} of a head"
        );
    }
    assert!(rt; TEXT.len() == 53);
    for error in [None, Some(ErrorKind::Other), Some(ErrorKind::Interrupted)] {
        for room in 0..54 {
            let narrow = counted(&rt, 100, room, error);
            let is_beginning = writes(narrow, &plan, &turns, Lines::All, room, TEXT);
            assert!(rt; is_beginning, "room for {room}");
        }
    }
    let all = counted(&rt, 100, 100, None);
    let mut held = room(rt.alloc()).expect(&rt, "room for blocks");
    assert!(rt; exhaust(rt.alloc(), &mut held));
    assert!(rt; writes(all, &plan, &turns, Lines::All, 100, TEXT));
    drop(held);
    drop(turns);
    let others = [
        turned(&rt, key(u64::MAX, u16::MAX, 10), Some(0), &TWO_ARGUMENTS),
        turned(&rt, key(7, 0, u64::MAX), Some(0), &[]),
        turned(&rt, key(8, 2, 0), Some(1), &THREE_ARGUMENTS),
    ];
    let all = counted(&rt, 100, 200, None);
    assert!(rt; writes(all, &plan, &others, Lines::All, 200, ARGUMENTS));
    let external = counted(&rt, 100, 200, None);
    assert!(rt; writes(external, &plan, &others, Lines::Trace, 200, ""));
    drop(others);
    let long = [turned(&rt, key(1, 0, 0), Some(0), &EIGHT_ARGUMENTS)];
    for room in [0, 53, 54, 73, 100, 179, 180, 200] {
        let narrow = counted(&rt, 90, room, None);
        let is_beginning = writes(narrow, &plan, &long, Lines::All, room, LONG);
        assert!(rt; is_beginning, "room for {room} of a long line");
    }
    drop(long);
    drop(plan);
    let fault = WriteFault::WriteFailed(5);
    assert!(rt; fault.number() == 60 && fault.place().is_none());
}
