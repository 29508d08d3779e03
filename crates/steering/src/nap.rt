//! Naps.
use crate::policy::POLICY;
use std::sync::Wait;
use std::thread::Parker;
use std::time::Duration;

/// Sleeps for a moment, where there is nothing to do and a thread that looked again and again would take a processor from one that works.
pub fn nap<R: Wait>(rt: &R) {
    nap_for(rt, POLICY.nap);
}

// Sleeps for so many microseconds.
pub(crate) fn nap_for<R: Wait>(rt: &R, micros: u64) {
    Parker::new().park_timeout(rt, Duration::from_micros(micros));
}
