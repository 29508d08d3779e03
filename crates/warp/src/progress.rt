//! What is told of progress, by the words of the command line.
ghost use Rattle.std.specs.Prelude.{◌≡◌, ◌+◌, ◌-◌};

use crate::pace::Pace;
use command_line::{Asked, Hunting, Options, Seeds, read_words};
use std::alloc::Global;
use std::rt::Clock;

/// Of what it is told once a second how far it is.
#[derive(Clone, Copy)]
pub enum Progress {
    Nothing,
    /// Turns, up to this tick.
    Turns(u64),
    /// A hunt through so many seeds.
    Hunt(u64),
}

impl Progress {
    /// The pace of turns from now on, where it is to be told.
    pub fn pace<R: Clock>(self, rt: &R) -> Option<Pace> {
        match self {
            Progress::Turns(ticks) => Pace::new(rt, ticks),
            Progress::Nothing | Progress::Hunt(_) => None,
        }
    }

    /// How many seeds there are, where looks at them are to be told.
    pub fn seed_count(self) -> Option<u64> {
        match self {
            Progress::Hunt(seeds) => Some(seeds),
            Progress::Nothing | Progress::Turns(_) => None,
        }
    }
}

/// What the words want to be told.
pub fn progress_of(alloc: Global, words: &[String]) -> Progress {
    let Ok(asked) = read_words(alloc, words) else {
        return Progress::Nothing;
    };
    match asked {
        Asked::Reference { options, .. } => of_turns(options),
        Asked::Run { options, .. } => of_turns(options),
        Asked::Drive { options, .. } => of_turns(options),
        Asked::Hunt { hunting, .. } => of_hunt(hunting),
        _ => Progress::Nothing,
    }
}

fn of_turns(options: Options) -> Progress {
    if options.progress {
        Progress::Turns(options.ticks)
    } else {
        Progress::Nothing
    }
}

fn of_hunt(hunting: Hunting) -> Progress {
    if hunting.progress {
        Progress::Hunt(count_of(hunting.seeds))
    } else {
        Progress::Nothing
    }
}

// How many seeds a range has.
fn count_of(seeds: Seeds) -> u64
    ensures { result ≡ seeds.last + 1 - seeds.first }
{
    let end = seeds.last + 1;
    end.saturating_sub(seeds.first)
}
