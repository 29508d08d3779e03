//! A writer that notes why a write failed, which what is written doesn't tell.

use std::cell::Cell;
use std::io::{self, ErrorKind, Write};

/// A writer beside which stands why it failed, once it has.
#[derive(Drop)]
pub struct Noted<'a, W> {
    writer: W,
    failure: &'a Cell<Option<ErrorKind>>,
}

impl<'a, W: Write> Noted<'a, W> {
    pub fn new(writer: W, failure: &'a Cell<Option<ErrorKind>>) -> Noted<'a, W> {
        Noted { writer, failure }
    }

    fn note<T>(&self, done: &io::Result<T>) {
        if let Err(error) = done {
            if error.kind() != ErrorKind::Interrupted {
                self.failure.set(Some(error.kind()));
            }
        }
    }
}

impl<'a, W: Write> Write for Noted<'a, W> {
    fn write(&mut self, piece: &[u8]) -> io::Result<usize> {
        let done = self.writer.write(piece);
        self.note(&done);
        done
    }

    fn flush(&mut self) -> io::Result<()> {
        let done = self.writer.flush();
        self.note(&done);
        done
    }
}
