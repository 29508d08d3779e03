//! Runs that end before all is written.
ghost use Rattle.std.specs.Prelude.{◌≤◌};

use crate::rings::{TEXT, assert_held, page_of, run_ring};
use std::alloc::Global;
use std::io::{self, Write};
use std::sync::atomic::{AtomicBool, Ordering};
use std::thread;
use task_seed::AnyTurns;
use terms::Refusal;
use trace::{Counted, WriteFault};
use workers::{Gate, Lease, LoneGroup, Ran, RunFault, Summary, Took, Unheld};

#[test]
fn a_failing_writer_has_a_beginning(rt: HostRuntime) {
    for room in 0..106usize {
        let (workers, room) = (1 + (room / 53) as u16, room % 53);
        let mut out = page_of(rt.alloc(), room, 100);
        let ran = run_ring(&rt, (workers, 64), &Unheld, &mut out);
        let fault = WriteFault::WriteFailed(room as u64);
        assert!(rt; ran == Err(RunFault::Write(fault)), "{room}");
        assert!(rt; out.failures() == 1);
        assert_held(&rt, out, &TEXT.as_bytes()[..room]);
    }
}

#[test]
fn a_writer_with_just_room_has_all(rt: HostRuntime) {
    for most in [1usize, 53] {
        let mut out = page_of(rt.alloc(), 53, most);
        let ran = run_ring(&rt, (2, 64), &Unheld, &mut out);
        assert!(rt; ran == Ok(Summary { turns: 4 }) && out.failures() == 0);
        assert_held(&rt, out, TEXT.as_bytes());
    }
}

// A gate that lets no worker from this number on start.
#[derive(Drop)]
struct Few {
    workers: u16,
}

impl Gate<AnyTurns> for Few {
    fn ahead(&self, alloc: Global, lease: &mut Lease<AnyTurns>, budget: u32) -> Ran {
        lease.run_ahead(alloc, budget)
    }

    fn ahead_alone(&self, alloc: Global, group: &mut LoneGroup<AnyTurns>, budget: u32) -> Took {
        group.run_ahead(alloc, budget)
    }

    fn may_start(&self, worker: u16) -> bool {
        worker < self.workers
    }
}

#[test]
fn a_worker_that_may_not_start_ends_the_run(rt: HostRuntime) {
    let mut out = page_of(rt.alloc(), 100, 100);
    let ran = run_ring(&rt, (2, 64), &Few { workers: 0 }, &mut out);
    assert!(rt; ran == Err(RunFault::ThreadRefused));
    assert_held(&rt, out, b"");
    for (crew, workers) in [((2u16, 64u32), 1u16), ((3, 64), 1), ((1, 64), 0)] {
        let mut out = page_of(rt.alloc(), 100, 100);
        let ran = run_ring(&rt, crew, &Few { workers }, &mut out);
        assert!(rt; ran == Err(RunFault::ThreadRefused));
        assert!(rt;
            TEXT.as_bytes()
                .starts_with(out.into_inner().held.as_slice())
        );
    }
    assert!(rt; RunFault::ThreadRefused.number() == 61);
    assert!(rt; RunFault::OutOfPlace.number() == 62);
}

// A gate that holds its first caller until the writer has failed, for so many turns at most.
#[derive(Drop)]
struct Waiting<'a> {
    failed: &'a AtomicBool,
    held: AtomicBool,
}

impl<'a> Gate<AnyTurns> for Waiting<'a> {
    fn ahead(&self, alloc: Global, lease: &mut Lease<AnyTurns>, budget: u32) -> Ran {
        if !self.held.swap(true, Ordering::SeqCst) {
            for _ in 0..1_000_000u32 {
                if self.failed.load(Ordering::SeqCst) {
                    break;
                }
                thread::yield_now();
            }
        }
        lease.run_ahead(alloc, budget)
    }

    fn ahead_alone(&self, alloc: Global, group: &mut LoneGroup<AnyTurns>, budget: u32) -> Took {
        group.run_ahead(alloc, budget)
    }
}

// A writer that fails at once, and tells so.
#[derive(Drop)]
struct Failing<'a> {
    failed: &'a AtomicBool,
}

impl<'a> Write for Failing<'a> {
    fn write(&mut self, _piece: &[u8]) -> io::Result<usize> {
        self.failed.store(true, Ordering::SeqCst);
        Ok(0)
    }

    fn flush(&mut self) -> io::Result<()> {
        Ok(())
    }
}

#[test]
fn a_held_worker_does_not_hide_a_failed_write(rt: HostRuntime) {
    let failed = AtomicBool::new(false);
    let gate = Waiting {
        failed: &failed,
        held: AtomicBool::new(false),
    };
    let mut out = Counted::new(Failing { failed: &failed });
    let ran = run_ring(&rt, (2, 64), &gate, &mut out);
    assert!(rt; ran == Err(RunFault::Write(WriteFault::WriteFailed(0))));
    assert!(rt; failed.load(Ordering::SeqCst) && out.failures() == 1);
}
