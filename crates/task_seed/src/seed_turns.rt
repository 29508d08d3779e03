//! The turns that a generator gives.
ghost use Rattle.std.specs.Prelude.{◌≤◌};

use crate::turns::{GREATEST_GAP, MOST_TURNS, Turn, Turns};
use crate::walk::Walk;
use std::marker::{Send, Sync};
use terms::Refusal;
use thiserror::Error;

/// Why there are no turns of a seed.
#[derive(Clone, Copy, Debug, PartialEq, Eq, Error)]
pub enum SeedTurnsError {
    /// Never answered today: the turns of a seed take no memory.
    #[error("out of memory")]
    NoMemory,
    /// The greatest gap isn't 1 to 65,535.
    #[error("the gap is out of range")]
    GapOutOfRange,
}

impl Refusal for SeedTurnsError {
    ghost use Rattle.std.specs.Prelude.{None};
    ghost use Rattle.task_seed.specs.Refusals.{seed_turns_number};

    ghost number_of = { seed_turns_number };

    ghost place_of = { λ _. None };

    fn number(&self) -> u8 {
        match self {
            SeedTurnsError::NoMemory => 1,
            SeedTurnsError::GapOutOfRange => 27,
        }
    }

    fn place(&self) -> Option<usize> {
        None
    }
}

/// Turns drawn from a generator: component `i` has the words of the stream `stream + i` (modulo 2^64)
/// of the generator with this seed, three of them a turn. The gap of a turn is its word modulo `gap`, and `least` more.
#[derive(Clone, Copy, PartialEq, Eq)]
pub struct SeedTurns {
    seed: u64,
    stream: u64,
    least: u32,
    gap: u32,
    ghost in_range: { (1 ≤ gap) × (gap ≤ 65535) },
    ghost from: { least ≤ 1 },
}

impl SeedTurns {
    ghost use Rattle.std.specs.Prelude.{◌≡◌, ◌<◌, ℕ, ◌↔◌, ◌⊎◌, IfOk, IsErrOf};
    ghost use Rattle.task_seed.specs.Drawn.{drawn_turn, seed_turn};

    /// The turns of a seed, whose gaps are 1 to `gap` ticks, where `gap` is 1 to 65,535.
    pub fn new(seed: u64, stream: u64, gap: u32) -> Result<SeedTurns, SeedTurnsError>
        ensures numbers { IfOk result (λ t. (t.seed ≡ seed) × (t.stream ≡ stream) × (t.least ≡ 1)
            × (t.gap ≡ gap)) }
        ensures turns { IfOk result (λ t. (i n : ℕ)
            → seed_turn t i n ≡ drawn_turn seed stream 1 gap i n) }
        ensures refused { IsErrOf result SeedTurnsError.GapOutOfRange
            ↔ ((gap < 1) ⊎ (65535 < gap)) }
        ensures memory { IsErrOf result SeedTurnsError.NoMemory → ⊥ }
    {
        SeedTurns::from(seed, stream, 1, gap)
    }

    /// The turns of a seed, whose gaps are 0 to `gap - 1` ticks, where `gap` is 1 to 65,535.
    pub fn from_zero(seed: u64, stream: u64, gap: u32) -> Result<SeedTurns, SeedTurnsError>
        ensures numbers { IfOk result (λ t. (t.seed ≡ seed) × (t.stream ≡ stream) × (t.least ≡ 0)
            × (t.gap ≡ gap)) }
        ensures turns { IfOk result (λ t. (i n : ℕ)
            → seed_turn t i n ≡ drawn_turn seed stream 0 gap i n) }
        ensures refused { IsErrOf result SeedTurnsError.GapOutOfRange
            ↔ ((gap < 1) ⊎ (65535 < gap)) }
        ensures memory { IsErrOf result SeedTurnsError.NoMemory → ⊥ }
    {
        SeedTurns::from(seed, stream, 0, gap)
    }

    // The turns of a seed, whose gaps are so many from the least one on.
    fn from(seed: u64, stream: u64, least: u32, gap: u32) -> Result<SeedTurns, SeedTurnsError>
        requires { least ≤ 1 }
        ensures numbers { IfOk result (λ t. (t.seed ≡ seed) × (t.stream ≡ stream)
            × (t.least ≡ least) × (t.gap ≡ gap)) }
        ensures refused { IsErrOf result SeedTurnsError.GapOutOfRange
            ↔ ((gap < 1) ⊎ (65535 < gap)) }
        ensures memory { IsErrOf result SeedTurnsError.NoMemory → ⊥ }
    {
        if gap >= 1 && gap <= GREATEST_GAP {
            Ok(SeedTurns {
                seed,
                stream,
                least,
                gap,
            })
        } else {
            Err(SeedTurnsError::GapOutOfRange)
        }
    }
}

impl Turns for SeedTurns {
    ghost use Rattle.task_seed.specs.Drawn.{seed_turn};

    ghost turn_of = { seed_turn };

    ghost use Rattle.task_seed.specs.DrawnLaws.{seed_gap_range, seed_alike, seed_ended};

    ghost gap_range = { seed_gap_range };

    ghost alike = { seed_alike };

    ghost ended = { seed_ended };

    fn turn(&self, i: u16, n: u64) -> Option<Turn> {
        self.turn_by(i, n, &mut Walk::new())
    }

    #[inline(always)]
    fn turn_by(&self, i: u16, n: u64, walk: &mut Walk) -> Option<Turn> {
        if n >= MOST_TURNS {
            return None;
        }
        let stream = self.stream.wrapping_add(u64::from(i));
        walk.stand(self.seed, stream, n);
        Some(walk.draw(self.least, self.gap))
    }
}
