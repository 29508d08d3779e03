//! Tests of crates of the core, of `rollback`, `reference` and `world`, in a crate of their own, so that those aren't proved a second time with them.
#![tactic(auto)]

#[cfg(test)]
mod components;
#[cfg(test)]
mod tests;
