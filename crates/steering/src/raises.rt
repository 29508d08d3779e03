//! When the bound is raised where workers keep groups.
use crate::policy::POLICY;

/// How many entries were done since the bound was raised last.
#[derive(Drop)]
pub struct Raises {
    most: u64,
    done: u64,
}

// How many entries all groups do at least between two times that the bound is raised, where there are so many components: each time costs a look at
// all of them.
pub(crate) fn entries_a_raise(components: u16) -> u64 {
    POLICY
        .entries_a_raise
        .max(POLICY.entries_a_component * u64::from(components))
}

impl Raises {
    /// None was, of so many components.
    pub fn new(components: u16) -> Raises {
        Raises {
            most: entries_a_raise(components),
            done: 0,
        }
    }

    /// So many more were done, by a worker that can go on only after the bound has risen or not. Whether the bound is to be raised: it costs a look at all stubs, and at each turn that it passes.
    pub fn is_due(&mut self, done: u64, waits: bool) -> bool {
        self.done = self.done.saturating_add(done);
        if self.done < self.most && !waits {
            return false;
        }
        self.done = 0;
        true
    }
}
