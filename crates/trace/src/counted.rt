//! A writer that counts its failures.

use std::io::{self, Write};

/// A writer, and how many of its writes failed, up to the greatest `u64`: those that gave an error or took 0 bytes of a nonempty piece.
#[derive(Drop)]
pub struct Counted<W> {
    writer: W,
    failures: u64,
}

impl<W: Write> Counted<W> {
    ghost use Rattle.std.specs.Prelude.{◌≡◌, ◌<◌, take, length, OnOk, OnErr, IfErr};
    ghost use Rattle.std.specs.Io.KnownBytes.{Keeps, Appends, WriteAppends};
    ghost use Rattle.std.specs.Io.{WritesAtMost};
    ghost use Rattle.trace.specs.Counts.{writer_of, failures_of, failures_after, is_failure, one_more};

    /// A writer of which no write has failed yet.
    pub fn new(writer: W) -> Counted<W>
        ensures writer { writer_of result ≡ writer }
        ensures failures { failures_of result ≡ 0 }
    {
        Counted {
            writer,
            failures: 0,
        }
    }

    /// How many writes have failed.
    pub fn failures(&self) -> u64
        ensures { result ≡ failures_of self.now }
    {
        self.failures
    }

    /// Writes a first part of a piece, and gives its length in bytes; the rest is for later calls. A write that fails is
    /// counted: it gives an error, which is the writer's own, or takes 0 bytes of a nonempty piece. At an error no byte goes
    /// out.
    #[inline]
    pub fn write(&mut self, piece: &[u8]) -> io::Result<usize>
        ensures bound { WritesAtMost result piece.now }
        ensures bytes { WriteAppends (W.contents (writer_of self.old))
            (W.contents (writer_of self.new)) result piece.now }
        ensures failures { failures_of self.new
            ≡ failures_after (failures_of self.old) (is_failure result piece.now) }
    {
        let Counted { writer, failures } = self;
        let taken = writer.write(piece);
        let has_failed = match &taken {
            Ok(count) => *count == 0 && !piece.is_empty(),
            Err(_) => true,
        };
        if has_failed {
            *failures = failures.saturating_add(1);
        }
        taken
    }

    /// Writes a whole piece, by as many writes as it takes, up to the first that fails. An error is the number of the bytes
    /// that went out before it, from the front; then one more failure is counted.
    #[inline]
    pub fn write_piece(&mut self, piece: &[u8]) -> Result<(), usize>
        ensures ok { OnOk result (Appends (W.contents (writer_of self.old))
            (W.contents (writer_of self.new)) piece.now) }
        ensures ok_failures { OnOk result (failures_of self.new ≡ failures_of self.old) }
        ensures err { IfErr result
            (λ written. Appends (W.contents (writer_of self.old)) (W.contents (writer_of self.new))
            (take written piece.now)) }
        ensures err_short { IfErr result (λ written. written < length piece.now) }
        ensures err_failures { OnErr result
            (failures_of self.new ≡ one_more (failures_of self.old)) }
    {
        if piece.is_empty() {
            return Ok(());
        }
        let taken = match self.write(piece) {
            Ok(taken) => taken,
            Err(_) => return Err(0),
        };
        if taken == piece.len() {
            return Ok(());
        }
        if taken == 0 {
            return Err(0);
        }
        match self.write_rest(&piece[taken..]) {
            Ok(()) => Ok(()),
            Err(more) => Err(taken + more),
        }
    }

    // Writes what a first write left of a piece, as `write_piece` does.
    #[cold]
    #[inline(never)]
    fn write_rest(&mut self, piece: &[u8]) -> Result<(), usize>
        ensures ok { OnOk result (Appends (W.contents (writer_of self.old))
            (W.contents (writer_of self.new)) piece.now) }
        ensures ok_failures { OnOk result (failures_of self.new ≡ failures_of self.old) }
        ensures err { IfErr result
            (λ written. Appends (W.contents (writer_of self.old)) (W.contents (writer_of self.new))
            (take written piece.now)) }
        ensures err_short { IfErr result (λ written. written < length piece.now) }
        ensures err_failures { OnErr result
            (failures_of self.new ≡ one_more (failures_of self.old)) }
    {
        let mut written = 0;
        while written < piece.len() {
            match self.write(&piece[written..]) {
                Ok(0) => return Err(written),
                Ok(taken) => written += taken,
                Err(_) => return Err(written),
            }
        }
        Ok(())
    }

    /// Flushes the writer. A flush that fails answers `false` and isn't counted.
    pub fn flush(&mut self) -> bool
        ensures bytes { Keeps (W.contents (writer_of self.old)) (W.contents (writer_of self.new)) }
        ensures failures { failures_of self.new ≡ failures_of self.old }
    {
        self.writer.flush().is_ok()
    }

    /// The writer.
    pub fn into_inner(self) -> W
        ensures { result ≡ writer_of self }
    {
        let Counted {
            writer,
            failures: _,
        } = self;
        writer
    }
}
