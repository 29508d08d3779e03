//! The constants that steer the workers. No promise rests on them.

/// How far groups run, how often the exchange is looked at, and how long threads sleep. `docs/PERFORMANCE.md` has their measurements.
#[derive(Clone, Copy)]
pub(crate) struct Policy {
    /// How long a nap is, in microseconds: of a worker that finds nothing to do, and of the calling thread between two looks at what was committed.
    pub(crate) nap: u64,
    /// How many turns may be published before the calling thread has looked for them again. A worker waits then until it has: what isn't written
    /// takes memory, and the cells of what is written serve again.
    pub(crate) most_unseen: u64,
    /// How many turns of a lone group are drawn at most in one list, and are taken at most before they are handed over: a millisecond or two of work.
    pub(crate) most_waiting: usize,
    /// How many lists of drawn turns may wait, and how many batches of taken ones. While the host takes the processor away from one of the three
    /// threads, the two others go on with these, or fill them.
    pub(crate) most_lists: u64,
    /// How many are drawn at first.
    pub(crate) first_page: usize,
    /// How many ticks a group may run ahead of all others, where entries of it were taken back lately.
    pub(crate) leash: u64,
    /// The same after many entries without any.
    pub(crate) most_leash: u64,
    /// How many entries of its group a worker does before it looks whether something is to leave or has come.
    pub(crate) slice: u32,
    /// The same where there is one group alone.
    pub(crate) slice_alone: u32,
    /// How many entries of its group a worker does at most between two visits to the exchange.
    pub(crate) entries_a_visit: u64,
    /// How many entries all groups do at least between two times that the bound is raised.
    pub(crate) entries_a_raise: u64,
    /// The same for each component, where that comes to more.
    pub(crate) entries_a_component: u64,
    /// How many times in a row a worker looks again at once that found nothing to do, before it naps: some tens of microseconds.
    pub(crate) most_vain: u32,
    /// The same of a thread of a lone group, before it gives the processor up between looks.
    pub(crate) most_vain_alone: u32,
    /// How many times in a row a thread of a lone group gives the processor up and looks again, before it naps. A nap may end much later than it should
    /// where the host takes processors away, and the two other threads then wait too.
    pub(crate) most_yields_alone: u32,
}

pub(crate) const POLICY: Policy = Policy {
    nap: 50,
    most_unseen: 1024,
    most_waiting: 4096,
    most_lists: 4,
    first_page: 64,
    leash: 8,
    most_leash: 64,
    slice: 2,
    slice_alone: 64,
    entries_a_visit: 64,
    entries_a_raise: 256,
    entries_a_component: 4,
    most_vain: 600,
    most_vain_alone: 200,
    most_yields_alone: 400,
};
