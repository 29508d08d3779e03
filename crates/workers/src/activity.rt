//! What the workers of a run do, as it is counted.
ghost use Rattle.std.specs.Prelude.{◌≡◌};

use group_exchange::{Effort, Tally};
use partitions::Cut;
use steering::Stats;

// How many visits there were, how long workers slept, how many ticks a group was let run ahead of all others at most, and what was done of the groups.
#[derive(Clone, Copy, Default)]
pub(crate) struct Activity {
    visits: u64,
    waited: u64,
    leash: u64,
    effort: Effort,
    pub(crate) tally: Tally,
}

impl Activity {
    // A worker visits, after it did so much, slept for so many microseconds, and might run so many ticks ahead.
    pub(crate) fn visit(&mut self, effort: Effort, waited: u64, leash: u64) {
        self.visits = self.visits.saturating_add(1);
        self.waited = self.waited.saturating_add(waited);
        self.leash = self.leash.max(leash);
        self.effort = self.effort.and(effort);
    }

    // The same with the number of the turns, and that of the groups with the pairs that they cut.
    pub(crate) fn stats(&self, turns: u64, groups: u16, cut: Cut) -> Stats
        ensures { result.turns ≡ turns }
    {
        let effort = self.effort;
        let kept = effort.processed.saturating_sub(effort.taken_back);
        let arrived = self.tally.messages.saturating_sub(self.tally.antimessages);
        Stats {
            turns,
            sure: 0,
            groups: u64::from(groups),
            pairs: cut.edges as u64,
            cut: cut.cut as u64,
            processed: effort.processed,
            kept,
            taken_back: effort.taken_back,
            roll_backs: effort.roll_backs,
            stragglers: effort.stragglers,
            inside: kept.saturating_sub(turns).saturating_sub(arrived),
            across: self.tally.messages,
            antimessages: self.tally.antimessages,
            annihilated: self.tally.annihilated,
            visits: self.visits,
            meetings: self.tally.meetings,
            commits: self.tally.commits,
            chunks: self.tally.chunks,
            leash: self.leash,
            waited: self.waited,
        }
    }
}

// What is told of a run whose components were all in one group: each turn was sure. So many batches were handed over, and the worker slept for so
// many microseconds.
pub(crate) fn alone_stats(turns: u64, batches: u64, waited: u64) -> Stats
    ensures { result.turns ≡ turns }
{
    Stats {
        turns,
        sure: turns,
        groups: 1,
        pairs: 0,
        cut: 0,
        processed: turns,
        kept: turns,
        taken_back: 0,
        roll_backs: 0,
        stragglers: 0,
        inside: 0,
        across: 0,
        antimessages: 0,
        annihilated: 0,
        visits: batches,
        meetings: 0,
        commits: 0,
        chunks: batches,
        leash: 0,
        waited,
    }
}
