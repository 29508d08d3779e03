//! A writer that may be full, and may fail to flush.

use std::alloc::Global;
use std::io::{self, Write};

/// A writer over memory that takes so many bytes in all, may fail to flush, and knows whether it was flushed after the last write.
#[derive(Drop)]
pub struct Narrow {
    pub held: Vec<u8>,
    room: usize,
    is_stuck: bool,
    pub is_flushed: bool,
}

impl Narrow {
    pub fn new(held: Vec<u8>, room: usize, is_stuck: bool) -> Narrow {
        Narrow {
            held,
            room,
            is_stuck,
            is_flushed: false,
        }
    }

    /// One that takes all.
    pub fn wide(alloc: Global) -> Narrow {
        Narrow::new(Vec::new(alloc), usize::MAX, false)
    }
}

impl Write for Narrow {
    fn write(&mut self, buf: &[u8]) -> io::Result<usize> {
        let count = buf.len().min(self.room);
        self.held.extend_from_slice(&buf[..count])?;
        self.room -= count;
        self.is_flushed = false;
        Ok(count)
    }

    fn flush(&mut self) -> io::Result<()> {
        if self.is_stuck {
            return Err(io::Error::from(io::ErrorKind::Other));
        }
        self.is_flushed = true;
        Ok(())
    }
}
