//! What the workers of a run did.

/// What the workers of a run did, counted for who measures them. Nothing is promised but of `turns`; each of the others ends at the greatest `u64`.
#[derive(Clone, Copy, PartialEq, Eq)]
pub struct Stats {
    /// How many turns there were, written or not.
    pub turns: u64,
    /// How many of these were sure: taken without marks, since nothing could come before them any more.
    pub sure: u64,
    /// In how many groups the components were, each with a worker of its own.
    pub groups: u64,
    /// How many pairs of components there are of which the first can send to the second, as far as they were looked for: for one group none is.
    pub pairs: u64,
    /// How many of these are in two groups.
    pub cut: u64,
    /// How many entries were processed: turns, idle ones too, and received messages.
    pub processed: u64,
    /// How many of these weren't taken back.
    pub kept: u64,
    /// How many were.
    pub taken_back: u64,
    /// How many times messages or antimessages took something back.
    pub roll_backs: u64,
    /// How many of these times it was a message, which came too late.
    pub stragglers: u64,
    /// How many messages were received within their group and not taken back.
    pub inside: u64,
    /// How many messages went to other groups, one for each receiver.
    pub across: u64,
    /// How many antimessages did.
    pub antimessages: u64,
    /// How many antimessages met their message before the receiver had either.
    pub annihilated: u64,
    /// How many times a worker took the exchange.
    pub visits: u64,
    /// How many times a lease met the exchange.
    pub meetings: u64,
    /// How often the bound was raised, or was to be.
    pub commits: u64,
    /// How many chunks the calling thread took.
    pub chunks: u64,
    /// How many ticks a group was let run ahead of all others at most.
    pub leash: u64,
    /// How many microseconds workers slept at least, until each had the exchange for the last time.
    pub waited: u64,
}
