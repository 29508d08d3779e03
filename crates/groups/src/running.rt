//! How far a group ran ahead.

/// Why a group that ran ahead stopped.
#[derive(Clone, Copy, PartialEq, Eq)]
pub enum Stop {
    /// So many entries were processed as it was allowed.
    Budget,
    /// Nothing is next.
    End,
    /// Something is next, the window has room for it, and memory was refused.
    NoMemory,
    /// An own turn is next, and as many are done as the window has.
    NoRoom,
}

/// How far a group ran ahead.
#[derive(Clone, Copy, PartialEq, Eq)]
pub struct Ran {
    /// How many entries were processed.
    pub count: u32,
    /// Why there were no more.
    pub stop: Stop,
}
