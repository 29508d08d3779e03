//! That leases run ahead side by side, without the lock, and that what is written comes of them.

ghost use Rattle.std.specs.Prelude.{◌≤◌};

use crate::rings::{TEXT, run_ring};
use std::alloc::{AllocGlobal, Global};
use std::io::{self, Write};
use std::process::Abort;
use std::sync::Wait;
use std::sync::atomic::{AtomicBool, AtomicU64, Ordering};
use std::thread;
use std::thread::Threads;
use task_seed::AnyTurns;
use trace::Counted;
use workers::{Gate, Lease, LoneGroup, Ran, Rest, Stop, Summary, Took};

// How many rounds a gate waits at most.
const MOST: u32 = 1_000_000;

// A gate that holds its first caller until there is a second one.
#[derive(Drop)]
struct Together {
    begun: AtomicU64,
    first: AtomicU64,
    second: AtomicU64,
    gave_up: AtomicBool,
}

impl Together {
    fn wait_for_second(&self) {
        for _ in 0..MOST {
            if self.begun.load(Ordering::SeqCst) >= 2 {
                return;
            }
            thread::yield_now();
        }
        self.gave_up.store(true, Ordering::SeqCst);
    }
}

impl Gate<AnyTurns> for Together {
    fn ahead(&self, alloc: Global, lease: &mut Lease<AnyTurns>, budget: u32) -> Ran {
        let number = u64::from(lease.number());
        match self.begun.fetch_add(1, Ordering::SeqCst) {
            0 => {
                self.first.store(number, Ordering::SeqCst);
                self.wait_for_second();
            }
            1 => self.second.store(number, Ordering::SeqCst),
            _ => {}
        }
        lease.run_ahead(alloc, budget)
    }

    fn ahead_alone(&self, alloc: Global, group: &mut LoneGroup<AnyTurns>, budget: u32) -> Took {
        group.run_ahead(alloc, budget)
    }
}

#[test]
fn two_leases_are_away_at_once(rt: HostRuntime) {
    let gate = Together {
        begun: AtomicU64::new(0),
        first: AtomicU64::new(9),
        second: AtomicU64::new(9),
        gave_up: AtomicBool::new(false),
    };
    let mut out = Counted::new(Vec::new(rt.alloc()));
    let ran = run_ring(&rt, (2, 64), &gate, &mut out);
    assert!(rt; ran == Ok(Summary { turns: 4 }));
    assert!(rt; out.into_inner().as_slice() == TEXT.as_bytes());
    assert!(rt; !gate.gave_up.load(Ordering::SeqCst));
    let (first, second) = (
        gate.first.load(Ordering::SeqCst),
        gate.second.load(Ordering::SeqCst),
    );
    assert!(rt; first < 2 && second < 2 && first != second);
}

// A writer over memory, of which others see how much it has taken.
#[derive(Drop)]
struct Watched<'a> {
    held: Vec<u8>,
    taken: &'a AtomicU64,
}

impl<'a> Write for Watched<'a> {
    fn write(&mut self, piece: &[u8]) -> io::Result<usize> {
        self.held.extend_from_slice(piece)?;
        self.taken.fetch_add(piece.len() as u64, Ordering::SeqCst);
        Ok(piece.len())
    }

    fn flush(&mut self) -> io::Result<()> {
        Ok(())
    }
}

// A gate that runs nothing of component 0, or of a group alone after its first turn, until the writer has taken 11 bytes, and in 1,000 calls more.
#[derive(Drop)]
struct Holding<'a> {
    taken: &'a AtomicU64,
    begun: AtomicBool,
    calls: AtomicU64,
    later: AtomicU64,
    had: AtomicU64,
}

impl<'a> Holding<'a> {
    // Whether this call of component 0 runs nothing.
    fn holds(&self) -> bool {
        if self.taken.load(Ordering::SeqCst) < 11 {
            return self.calls.fetch_add(1, Ordering::SeqCst) < u64::from(MOST);
        }
        let later = self.later.fetch_add(1, Ordering::SeqCst);
        if later == 1000 {
            let taken = self.taken.load(Ordering::SeqCst);
            self.had.store(taken, Ordering::SeqCst);
        }
        later < 1000
    }
}

impl<'a> Gate<AnyTurns> for Holding<'a> {
    fn ahead(&self, alloc: Global, lease: &mut Lease<AnyTurns>, budget: u32) -> Ran {
        if lease.has(0) && self.holds() {
            thread::yield_now();
            return Ran {
                count: 0,
                stop: Stop::Budget,
            };
        }
        lease.run_ahead(alloc, budget)
    }

    fn ahead_alone(&self, alloc: Global, group: &mut LoneGroup<AnyTurns>, budget: u32) -> Took {
        if !self.begun.swap(true, Ordering::SeqCst) {
            return group.run_ahead(alloc, 1);
        }
        if self.holds() {
            thread::yield_now();
            return Took {
                count: 0,
                rest: Rest::Budget,
            };
        }
        group.run_ahead(alloc, budget)
    }
}

#[test]
fn what_is_written_comes_of_the_leases(rt: HostRuntime) {
    for workers in [2u16, 1] {
        hold_and_write(&rt, workers);
    }
}

// Runs the ring by so many workers behind a gate that holds it up after the first line.
fn hold_and_write<R: Abort + Threads + Wait + Sync + AllocGlobal>(rt: &R, workers: u16)
    requires { (1 ≤ workers) × (workers ≤ 64) }
{
    let taken = AtomicU64::new(0);
    let gate = Holding {
        taken: &taken,
        begun: AtomicBool::new(false),
        calls: AtomicU64::new(0),
        later: AtomicU64::new(0),
        had: AtomicU64::new(0),
    };
    let mut out = Counted::new(Watched {
        held: Vec::new(rt.alloc()),
        taken: &taken,
    });
    let ran = run_ring(rt, (workers, 64), &gate, &mut out);
    assert!(rt; ran == Ok(Summary { turns: 4 }));
    assert!(rt; out.into_inner().held.as_slice() == TEXT.as_bytes());
    assert!(rt; gate.calls.load(Ordering::SeqCst) < u64::from(MOST));
    assert!(rt; gate.had.load(Ordering::SeqCst) == 11);
}
