//! Keys of events, and bounds of virtual time.

/// The virtual time of an event: the turn `number` of the component `component` at the tick `tick`. It is compared by
/// tick, then component, then number, so no two turns of a run have one key.
///
/// An output and the inputs that it makes are one joint step. So a message carries the key of its sender's turn both as
/// the virtual send time and as the virtual receive time (Jefferson 1985), and an event that takes an input
/// has the key of the turn that sent it.
#[derive(Clone, Copy, PartialEq, Eq, PartialOrd, Ord)]
pub struct Key {
    /// The sum of the gaps of the turns up to this one, in ticks of the simulated clock.
    pub tick: u64,
    /// The number of the component whose turn it is, from 0.
    pub component: u16,
    /// The number of the turn among those of its component, from 0.
    pub number: u64,
}

/// A bound of virtual time, as a local virtual clock or global virtual time (Jefferson 1985): what lies
/// before it is told from what doesn't. `End` is above every key.
#[derive(Clone, Copy, PartialEq, Eq, PartialOrd, Ord)]
pub enum Bound {
    At(Key),
    End,
}
