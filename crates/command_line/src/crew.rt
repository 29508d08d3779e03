//! The workers of a simulation.
ghost use Rattle.std.specs.Prelude.{◌≤◌};
ghost use Rattle.command_line.specs.Chosen.{or_one};

/// By how many workers a composition is simulated, how far each runs ahead at a time, how much a component may have done that isn't committed, into
/// how many groups the components are put, and whether the workers tell what they did.
#[derive(Clone, Copy)]
pub struct Crew {
    /// How many workers there are at most, 1 to 64; with `groups` it isn't used.
    pub workers: u16,
    /// The most entries that a worker processes of a component before it shares what it did, 1 to 65,535.
    pub budget: u32,
    /// The most turns of its own that a component has done since its base, 1 to 65,535; without it there is no such bound.
    pub window: Option<u32>,
    /// Into how many groups the components are put, each with a worker of its own, 1 to 64, or one for each component if there are fewer; without it
    /// a trial finds how many, up to `workers`.
    pub groups: Option<u16>,
    /// What they did is told after all else.
    pub stats: bool,
    pub ghost some_workers: { 1 ≤ workers },
    pub ghost few_workers: { workers ≤ 64 },
    pub ghost some_budget: { 1 ≤ budget },
    pub ghost small_budget: { budget ≤ 65535 },
    pub ghost some_window: { 1 ≤ or_one window },
    pub ghost small_window: { or_one window ≤ 65535 },
    pub ghost some_groups: { 1 ≤ or_one groups },
    pub ghost few_groups: { or_one groups ≤ 64 },
}
