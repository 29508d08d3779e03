//! Places among drawn turns, from which turns are read one after another.
ghost use Rattle.std.specs.Prelude.{◌≡◌, ◌<◌, ◌≤◌, ◌+◌};
ghost use Rattle.task_seed.specs.Walks.{start_of, turn_after};

use crate::turns::Turn;
use rand_core::Rng;
use rand_pcg::Lcg64Xsh32;
use std::marker::Model;

// One for its gap, one for its task and one for its choice.
const WORDS_OF_A_TURN: u64 = 3;

/// Where the turn that was read last ends among the words of a generator. It saves a jump, and changes no answer. It is seen as the seed and
/// the stream of the generator, and the number of the turn before which it stands.
#[derive(Drop)]
pub struct Walk {
    seed: u64,
    stream: u64,
    number: u64,
    pub(crate) words: Lcg64Xsh32,
}

impl Model for Walk {
    ghost use Rattle.task_seed.specs.Walks.{StandsBefore, WalkView};

    ghost Value = { WalkView };

    ghost view = { λ w. record { seed = w.seed; stream = w.stream; number = w.number } };

    ghost invariant = { λ w. StandsBefore w.seed w.stream w.number w.words };
}

impl Walk {
    /// A walk before the first turn of one stream.
    pub fn new() -> Walk {
        jumped(0, 0, 0)
    }

    // Stands before turn `n` of a stream: it stays, or a generator jumps there.
    #[inline(always)]
    pub(crate) fn stand(&mut self, seed: u64, stream: u64, n: u64)
        requires { n < 4294967296 }
        ensures { self.new ≡ record { seed = seed; stream = stream; number = n } }
    {
        if self.number != n || self.seed != seed || self.stream != stream {
            self.jump(seed, stream, n);
        }
    }

    // A generator jumps to turn `n` of a stream. It stays a call, so that turns that are read one after another don't pay for it.
    #[inline(never)]
    fn jump(&mut self, seed: u64, stream: u64, n: u64)
        requires { n < 4294967296 }
        ensures { self.new ≡ record { seed = seed; stream = stream; number = n } }
    {
        *self = jumped(seed, stream, n);
    }

    // A turn of these gaps is read: its three words.
    #[inline(always)]
    pub(crate) fn draw(&mut self, least: u32, gap: u32) -> Turn
        requires gap { (1 ≤ gap) × (gap ≤ 65535) }
        requires least { least ≤ 1 }
        requires number { self.old.number < 4294967296 }
        ensures turn { result ≡ turn_after
            (start_of self.old.seed self.old.stream) least gap self.old.number }
        ensures walk { self.new ≡ record self.old { number = self.old.number + 1 } }
    {
        let gap = least + self.words.next_u32() % gap;
        let task = self.words.next_u32();
        let choice = self.words.next_u32();
        self.number += 1;
        Turn { gap, task, choice }
    }
}

// A walk before turn `n` of a stream, to which a generator jumps.
fn jumped(seed: u64, stream: u64, number: u64) -> Walk
    requires { number < 4294967296 }
    ensures { result ≡ record { seed = seed; stream = stream; number = number } }
{
    let mut words = Lcg64Xsh32::new(seed, stream);
    words.advance(WORDS_OF_A_TURN * number);
    Walk {
        seed,
        stream,
        number,
        words,
    }
}
