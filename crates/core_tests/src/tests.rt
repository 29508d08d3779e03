//! Rows worked out by hand. A list of steps is gone through by one loop, so that a further row is data and costs no proof.

mod bags;
mod bounds;
mod keys;
mod layouts;
mod nodes;
mod seats;
mod shared_actions;
mod stores;
mod token_lists;
mod writers;

use event_keys::Key;
use std::process::Abort;

const fn key(tick: u64, component: u16, number: u64) -> Key {
    Key {
        tick,
        component,
        number,
    }
}

// Of a value that may be sent to another thread, and of one that may be shared with it.
fn may_cross<S: Send, T: Sync>(_sent: &S, _shared: &T) {}

// As many steps came out as they say as there are; else the first number is the place of the first that did not, counted from 0.
fn assert_all(rt: &impl Abort, found: usize, wanted: usize) {
    assert_eq!(rt; found, wanted);
}
