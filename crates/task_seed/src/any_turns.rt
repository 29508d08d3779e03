//! Turns of both kinds, as one type: drawn by a seed, or given by a table.

use crate::seed_turns::SeedTurns;
use crate::table_turns::TableTurns;
use crate::turns::{Turn, Turns};
use crate::walk::Walk;
use std::marker::{Send, Sync};

/// The turns of a seed, or those of a table. Values of different kinds aren't equal.
#[derive(PartialEq, Eq, Drop)]
pub enum AnyTurns {
    /// Turns that a generator gives.
    Seed(SeedTurns),
    /// Turns that a table gives.
    Table(TableTurns),
}

impl Turns for AnyTurns {
    ghost use Rattle.task_seed.specs.Any.{any_turn};
    ghost use Rattle.task_seed.specs.AnyLaws.{any_alike, any_ended, any_gap_range};

    ghost turn_of = { any_turn };

    ghost gap_range = { any_gap_range };

    ghost alike = { any_alike };

    ghost ended = { any_ended };

    fn turn(&self, i: u16, n: u64) -> Option<Turn> {
        match self {
            AnyTurns::Seed(turns) => turns.turn(i, n),
            AnyTurns::Table(turns) => turns.turn(i, n),
        }
    }

    #[inline(always)]
    fn turn_by(&self, i: u16, n: u64, walk: &mut Walk) -> Option<Turn> {
        match self {
            AnyTurns::Seed(turns) => turns.turn_by(i, n, walk),
            AnyTurns::Table(turns) => turns.turn(i, n),
        }
    }
}
