//! What stands between a worker and the group that it runs ahead.
ghost use Rattle.std.specs.Prelude.{◌≡◌, ◌≤◌};
ghost use Rattle.groups.specs.Moves.{HasStopped, IsAhead};
ghost use Rattle.lone_group.specs.Lone.{HasStopped as HasStoppedAlone, IsAhead as IsAheadAlone};
ghost use Rattle.task_seed.specs.Any.{any_turn};
ghost use Rattle.workers.specs.Gates.{StaysItself};

use group_exchange::Lease;
use groups::Ran;
use lone_group::{LoneGroup, Took};
use std::alloc::Global;
use task_seed::{AnyTurns, Turns};

/// What a worker asks before it is started and each time that it runs its group ahead. A gate may hold a group up, run fewer entries or none, or look
/// on; it is called by many workers at once, without the lock round what they share. A gate that holds nothing up calls [`run_ahead`], as
/// [`Unheld`] does.
pub trait Gate<T: Turns>: Sync {
    /// Runs a group ahead by at most `budget` entries, and answers how many and why there were no more. The lease stays that of its group: who knew
    /// it before knows it afterwards.
    ///
    /// Where memory was refused for the first entry, the run ends with that fault.
    fn ahead(&self, alloc: Global, lease: &mut Lease<T>, budget: u32) -> Ran
        ensures same { StaysItself T.turn_of lease.old lease.new };

    /// Takes turns of the group that has all components, at most `budget` of them, as [`Gate::ahead`] does of others: where one group alone is run, a
    /// gate is asked this.
    fn ahead_alone(&self, alloc: Global, group: &mut LoneGroup<T>, budget: u32) -> Took
        ensures same { group.new.setup ≡ group.old.setup };

    /// Whether a worker may be started. Workers are numbered from 0 and asked in order by the calling thread; after the first that isn't
    /// started no other is.
    fn may_start(&self, worker: u16) -> bool {
        let _ = worker;
        true
    }
}

/// The gate that holds nothing up.
#[derive(Drop)]
pub struct Unheld;

impl Gate<AnyTurns> for Unheld {
    fn ahead(&self, alloc: Global, lease: &mut Lease<AnyTurns>, budget: u32) -> Ran
        ensures same { StaysItself any_turn lease.old lease.new }
        ensures ahead { IsAhead any_turn lease.old lease.new result.count }
        ensures most { result.count ≤ budget }
        ensures stop { HasStopped any_turn budget result.count result.stop lease.new }
    {
        run_ahead(alloc, lease, budget)
    }

    fn ahead_alone(&self, alloc: Global, group: &mut LoneGroup<AnyTurns>, budget: u32) -> Took
        ensures same { group.new.setup ≡ group.old.setup }
        ensures ahead { IsAheadAlone group.old group.new result.count }
        ensures most { result.count ≤ budget }
        ensures stop { HasStoppedAlone budget result.count result.rest group.new }
    {
        group.run_ahead(alloc, budget)
    }
}

/// Runs a group ahead: what the body of a gate's `ahead` does where nothing is held up. At most `budget` entries are done, the least first, and it
/// stops short only where no more are there or memory is refused. Where none is done the lease hasn't changed.
pub fn run_ahead<T: Turns>(alloc: Global, lease: &mut Lease<T>, budget: u32) -> Ran
    ensures same { StaysItself T.turn_of lease.old lease.new }
    ensures ahead { IsAhead T.turn_of lease.old lease.new result.count }
    ensures most { result.count ≤ budget }
    ensures stop { HasStopped T.turn_of budget result.count result.stop lease.new }
    ensures kept { result.count ≡ 0 → lease.new ≡ lease.old }
{
    lease.run_ahead(alloc, budget)
}
