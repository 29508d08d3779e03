//! A counted writer over memory, which may have little room.

mod turns;

use std::alloc::AllocGlobal;
use std::io::{self, ErrorKind, Write};
use std::process::Abort;
use trace::Counted;

/// A writer over memory that takes at most `step` bytes a write and `room` bytes in all. Then it takes none, or gives an error of this
/// kind where there is one; with one it can't be flushed either.
#[derive(Drop)]
struct Narrow {
    held: Vec<u8>,
    step: usize,
    room: usize,
    error: Option<ErrorKind>,
}

impl Write for Narrow {
    fn write(&mut self, buf: &[u8]) -> io::Result<usize> {
        if let Some(kind) = self.error
            && self.room == 0
        {
            return Err(io::Error::from(kind));
        }
        let count = buf.len().min(self.step).min(self.room);
        self.held.extend_from_slice(&buf[..count])?;
        self.room -= count;
        Ok(count)
    }

    fn flush(&mut self) -> io::Result<()> {
        match self.error {
            Some(kind) => Err(io::Error::from(kind)),
            None => Ok(()),
        }
    }
}

// It has taken the memory for what it holds.
fn counted(
    rt: &(impl AllocGlobal + Abort),
    step: usize,
    room: usize,
    error: Option<ErrorKind>,
) -> Counted<Narrow> {
    Counted::new(Narrow {
        held: Vec::with_capacity(rt.alloc(), room).expect(rt, "memory for a page"),
        step,
        room,
        error,
    })
}

#[test]
fn does_not_count_a_flush(rt: HostRuntime) {
    let mut stuck = counted(&rt, 1, 1, Some(ErrorKind::Other));
    assert!(rt; !stuck.flush() && stuck.failures() == 0);
    let mut fine = counted(&rt, 1, 1, None);
    assert!(rt; fine.flush() && fine.failures() == 0);
    drop(stuck);
    drop(fine);
}

#[test]
fn counts_errors_and_writes_of_no_bytes(rt: HostRuntime) {
    let mut stuck = counted(&rt, 1, 0, Some(ErrorKind::Interrupted));
    assert!(rt; stuck.write(b"a").is_err() && stuck.failures() == 1);
    let mut narrow = counted(&rt, 2, 3, None);
    for (piece, taken, failures) in [
        ("", 0, 0),
        ("abc", 2, 0),
        ("cde", 1, 0),
        ("d", 0, 1),
        ("", 0, 1),
    ] {
        let found = narrow.write(piece.as_bytes()).ok();
        assert!(rt;
            found == Some(taken) && narrow.failures() == failures,
            "{piece}"
        );
    }
    assert!(rt; narrow.into_inner().held.as_slice() == b"abc".as_slice());
    let mut pieces = counted(&rt, 2, 9, None);
    assert!(rt; pieces.write_piece(b"hello") == Ok(()) && pieces.failures() == 0);
    assert!(rt; pieces.write_piece(b"world") == Err(4) && pieces.failures() == 1);
    assert!(rt; pieces.into_inner().held.as_slice() == b"helloworl".as_slice());
    drop(stuck);
}
