//! How turns are drawn from a seed.

/// How the turns of a seed are drawn, and how far they go.
#[derive(Clone, Copy)]
pub struct Course {
    /// The stream of component 0; component i has this one plus i, modulo 2^64.
    pub stream: u64,
    /// How many gaps there may be between two turns of a component, 1 to 65,535.
    pub gap: u32,
    /// Gaps are drawn from 0 ticks on, and not from 1 tick on.
    pub from_zero: bool,
    /// The last tick, 0 to 4,294,967,296.
    pub ticks: u64,
}
