//! The turns that an engine is given.

/// Where the turns of a composition come from.
#[derive(Clone, Copy)]
pub enum GivenTurns<'a> {
    /// They are drawn by the numbers of a seed.
    Seed {
        seed: u64,
        /// The stream of component 0; component i has this one plus i, modulo 2^64.
        stream: u64,
        /// How many gaps there may be between two turns of a component, 1 to 65,535.
        gap: u64,
        /// Gaps are drawn from 0 ticks on, and else from 1 on.
        from_zero: bool,
    },
    /// They stand in a table, which has these bytes.
    Table(&'a [u8]),
}
