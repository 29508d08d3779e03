//! Entries processed and taken back.
ghost use Rattle.std.specs.Prelude.{◌≡◌, ◌≤◌, take};
ghost use Rattle.virtual_time.specs.Records.{roll_back_times};
ghost use Rattle.rollback.specs.Runs.{IsRun, IsEnd, IsTrip};
ghost use Rattle.rollback.specs.Stepped.{GainsEvenly, IsUnsent, machine_at};

use crate::component::Component;
use crate::refused::ProcessRefused;
use antimessage::Bag;
use std::alloc::Global;
use task_seed::Turns;
use task_seed::laws::machine_is_lawful;
use terms::{Action, State};
use virtual_time::rolling_back::record_law;

/// How far a component went before it was taken back.
#[derive(Clone, Copy, PartialEq, Eq)]
pub struct Trip {
    /// The number of the entries that were processed.
    pub entries: u32,
    /// What refused the next entry, where there were fewer than asked for.
    pub stopped: Option<ProcessRefused>,
}

impl<T: Turns> Component<T> {
    /// Processes entries, at most `most` of them, until nothing is pending or memory is refused, and takes them back again.
    /// That gives the component back, and of each message the bag has gained as many as antimessages: those that the entries
    /// sent.
    pub fn there_and_back(&mut self, alloc: Global, most: u32, out: &mut Bag) -> Trip
        ensures same { self.new ≡ self.old }
        ensures trip { IsTrip
            (machine_at T.turn_of self.old) self.old.number self.old.history out.old out.new
            result.entries most result.stopped }
        ensures balance { GainsEvenly T.turn_of self.old out.old out.new }
        ensures most { result.entries ≤ most }
    {
        machine_is_lawful(self.setup());
        record_law::<State, Action>();
        self.lists_law();
        let trip = self.process_some(alloc, most, out);
        self.roll_back_some(trip.entries, out);
        trip
    }

    // Processes entries, at most `most` of them, until nothing is pending or memory is refused.
    fn process_some(&mut self, alloc: Global, most: u32, out: &mut Bag) -> Trip
        ensures rest { self.new ≡ record self.old { history = self.new.history } }
        ensures run { IsRun
            (machine_at T.turn_of self.old) self.old.number self.old.history self.new.history
            out.old out.new result.entries }
        ensures end { IsEnd
            (machine_at T.turn_of self.old) self.old.number self.new.history result.entries most
            result.stopped }
        ensures most { result.entries ≤ most }
    {
        for entries in 0..most {
            match self.process(alloc, out) {
                Ok(_) => {}
                Err(refused) => {
                    return Trip {
                        entries,
                        stopped: Some(refused),
                    };
                }
            }
        }
        Trip {
            entries: most,
            stopped: None,
        }
    }

    // Takes entries back, as many as are done but at most `count`.
    fn roll_back_some(&mut self, count: u32, out: &mut Bag)
        ensures record { self.new ≡ record self.old {
          history = roll_back_times (machine_at T.turn_of self.old) count self.old.history;
        } }
        ensures sent { IsUnsent T.turn_of self.old
            (take count self.old.history.done) out.old out.new }
    {
        for _k in 0..count {
            self.roll_back(out);
        }
    }
}
