//! The tests of `exchange`, `pools` and `workers`, in a crate of their own, so that those aren't proved a second time with them.
#![tactic(auto)]

#[cfg(test)]
mod exchanges;
#[cfg(test)]
mod faults;
#[cfg(test)]
mod gates;
#[cfg(test)]
mod passes;
#[cfg(test)]
mod refused;
#[cfg(test)]
mod rings;
