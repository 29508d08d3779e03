//! What seats of a published word read of each other.

use fixtures::memory::{exhaust, room};
use gvt::Published;
use std::test::Fail;
use std::thread;

#[test]
fn a_seat_reads_the_greatest_count_of_all(rt: HostRuntime) {
    let mut held = room(rt.alloc()).expect(&rt, "room for blocks");
    let made = Published::new(rt.alloc(), 2);
    let (published, mut seats) = made.expect(&rt, "memory for a count");
    let Some(mut second) = seats.pop() else {
        panic!(rt; "no seat")
    };
    let Some(mut first) = seats.pop() else {
        panic!(rt; "one seat")
    };
    assert!(rt; seats.is_empty());
    assert!(rt; exhaust(rt.alloc(), &mut held));
    published.publish(&mut first, 5);
    published.publish(&mut second, 3);
    assert_eq!(rt; published.read(&mut second), 5);
    published.publish(&mut first, 2);
    assert_eq!(rt; published.read(&mut first), 5);
    published.publish(&mut first, 9);
    assert_eq!(rt; published.read(&mut second), 9);
    drop(held);
    drop(seats);
    drop(first);
    drop(second);
    drop(published);
}

#[test]
fn two_threads_read_what_they_published(rt: HostRuntime) -> Result<(), Fail> {
    let (published, mut seats) = Published::new(rt.alloc(), 2)?;
    let Some(mut second) = seats.pop() else {
        panic!(rt; "no seat")
    };
    let Some(mut first) = seats.pop() else {
        panic!(rt; "one seat")
    };
    let shared = &published;
    let (low, high) = thread::join(
        &rt,
        move || {
            shared.publish(&mut first, 20);
            shared.read(&mut first)
        },
        move || {
            shared.publish(&mut second, 30);
            shared.read(&mut second)
        },
    );
    assert!(rt; low == 20 || low == 30);
    assert_eq!(rt; high, 30);
    Ok(())
}
