//! How far a simulation is, told on standard error once a second. Nothing of it is claimed by a contract but that what is written stays
//! what it is.

use std::io::{self, Write};
use std::rt::Clock;
use std::time::Instant;

/// What was seen of the lines of turns.
#[derive(Clone, Copy)]
pub struct Pace {
    /// The last tick.
    ticks: u64,
    start: Instant,
    /// For how many seconds it was told.
    seconds: u64,
    turns: u64,
    /// How many turns there were when it was told last.
    told: u64,
    /// The tick of the last whole line.
    tick: u64,
    /// The number at the front of a line that isn't whole.
    number: u64,
    is_front: bool,
    is_turn: bool,
}

impl Pace {
    /// The pace from now on; nothing where there is no clock.
    pub fn new<R: Clock>(rt: &R, ticks: u64) -> Option<Pace> {
        let start = Instant::now(rt).ok()?;
        Some(Pace {
            ticks,
            start,
            seconds: 0,
            turns: 0,
            told: 0,
            tick: 0,
            number: 0,
            is_front: true,
            is_turn: false,
        })
    }

    fn see(&mut self, byte: u8) {
        if byte == b'\n' {
            if self.is_turn {
                self.turns = self.turns.saturating_add(1);
                self.tick = self.number;
            }
            self.number = 0;
            self.is_front = true;
            self.is_turn = false;
        } else if self.is_front && b'0' <= byte && byte <= b'9' {
            let digit = u64::from(byte.saturating_sub(b'0'));
            self.number = self.number.saturating_mul(10).saturating_add(digit);
            self.is_turn = true;
        } else {
            self.is_front = false;
        }
    }

    // Tells where a second has passed since it was told last.
    fn tell<R: Clock + Eprint>(&mut self, rt: &R) {
        let Ok(passed) = self.start.elapsed(rt) else {
            return;
        };
        let seconds = passed.as_secs();
        if seconds <= self.seconds {
            return;
        }
        let rate = self.turns.saturating_sub(self.told) / (seconds - self.seconds);
        let _ = eprintln!(rt;
            "tick {} of {}, {} turns, {rate} turns a second",
            self.tick, self.ticks, self.turns
        );
        self.seconds = seconds;
        self.told = self.turns;
    }
}

/// A writer that tells how far it is.
#[derive(Drop)]
pub struct Paced<'a, R, W> {
    rt: &'a R,
    writer: W,
    pace: Option<Pace>,
}

impl<'a, R, W> Paced<'a, R, W> {
    pub fn new(rt: &'a R, writer: W, pace: Option<Pace>) -> Paced<'a, R, W> {
        Paced { rt, writer, pace }
    }
}

impl<'a, R: Clock + Eprint, W: Write> Write for Paced<'a, R, W> {
    fn write(&mut self, piece: &[u8]) -> io::Result<usize> {
        let taken = self.writer.write(piece)?;
        if let Some(pace) = &mut self.pace {
            let (went, _) = piece.split_at(taken.min(piece.len()));
            for byte in went {
                pace.see(*byte);
            }
            pace.tell(self.rt);
        }
        Ok(taken)
    }

    fn flush(&mut self) -> io::Result<()> {
        self.writer.flush()
    }
}
