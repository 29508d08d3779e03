//! What the threads of a run share.
ghost use Rattle.std.specs.Prelude.{◌≡◌, IfNone, IfSome, Some};
ghost use Rattle.boards.specs.Passes.{IsOf, Owns, sight};
ghost use Rattle.workers.specs.Crews.{HasTaken};

use crate::crew::{Division, Lent};
use crate::fault::WorkFault;
use boards::{Board, Pass};
use crossbeam_utils::Backoff;
use group_exchange::Stub;
use gvt::Published;
use std::sync::atomic::{AtomicBool, AtomicU64, Ordering};
use std::sync::{Mutex, Wait};
use steering::Signals;
use task_seed::Turns;

// The first fault, and whether a worker has ended.
#[derive(Drop)]
pub(crate) struct Ends {
    fault: Mutex<Option<WorkFault>>,
    ended: AtomicBool,
}

// The exchange, which one thread at a time has, what workers tell each other without it, the first fault, whether a worker has ended, how often
// the calling thread looked for turns, and the count of committed turns.
#[derive(Drop)]
pub(crate) struct Shared<T: Turns> {
    pub(crate) board: Board<Lent<T>, Division<T>, Stub>,
    pub(crate) signals: Signals,
    pub(crate) ends: Ends,
    pub(crate) looks: AtomicU64,
    pub(crate) published: Published,
}

// Waits for the exchange by looking again and again: who has it gives it back shortly, and a thread that slept would come late.
pub(crate) fn hold<T: Turns, R: Wait>(
    rt: &R,
    shared: &Shared<T>,
    pass: &mut Pass<Lent<T>, Division<T>, Stub>,
) -> Lent<T>
    requires { IsOf shared.now.board pass.old }
    ensures { HasTaken shared.now.board pass.old result pass.new }
{
    let backoff = Backoff::new();
    for _ in rt.forever() {
        if let Some(lent) = shared.board.take(rt, pass) {
            return lent;
        }
        backoff.snooze();
    }
    unreachable!()
}

impl Ends {
    // No fault was noted; whether all have ended already.
    pub(crate) fn new(has_ended: bool) -> Ends {
        Ends {
            fault: Mutex::new(None),
            ended: AtomicBool::new(has_ended),
        }
    }

    // Whether a worker has ended, or is to end: all turns are there, or a fault was noted.
    pub(crate) fn has_ended(&self) -> bool {
        self.ended.load(Ordering::SeqCst)
    }

    // Tells all that a worker ends.
    pub(crate) fn end(&self) {
        self.ended.store(true, Ordering::SeqCst);
    }

    // Notes a fault, if it is the first, and has all workers end.
    pub(crate) fn note<R: Wait>(&self, rt: &R, fault: WorkFault) {
        set_first(&mut self.fault.lock(rt), fault);
        self.end();
    }

    // The first fault, if there is one.
    pub(crate) fn noted<R: Wait>(&self, rt: &R) -> Option<WorkFault> {
        *self.fault.lock(rt)
    }
}

// The calling thread looks for turns.
pub(crate) fn note_look<T: Turns>(shared: &Shared<T>) {
    shared.looks.fetch_add(1, Ordering::SeqCst);
}

// How often the calling thread looked for turns.
pub(crate) fn looks<T: Turns>(shared: &Shared<T>) -> u64 {
    shared.looks.load(Ordering::SeqCst)
}

fn set_first(noted: &mut Option<WorkFault>, fault: WorkFault) {
    if noted.is_none() {
        *noted = Some(fault);
    }
}
