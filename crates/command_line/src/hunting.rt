//! What is asked of a hunt.
ghost use Rattle.std.specs.Prelude.{◌≡◌, ◌≤◌, ◌<◌, ◌^◌, ◌++◌, ◌∷◌, ℕ, List, false, IfOk, IfSome, IsSomeAnd, MatchOption, Some, codes};
ghost use Rattle.std.specs.Fmt.{decimal};
ghost use Rattle.clap.specs.Words.{App, app_of, found_of, rows_of, rule_of, with_rule};
ghost use Rattle.command_line.specs.declared.hunting.Hunting.{Hunting as HuntingValue};
ghost use Rattle.command_line.specs.declared.seeds.Seeds.{Seeds as SeedsValue};
ghost use Rattle.command_line.specs.Hunting.{HasHunting, HasSeeds, IsRange, hunt_app, hunting, seeds_rule};

use crate::adding::{add_file, add_flag, add_number};
use crate::seeds::Seeds;
use crate::{add_draws, file_of, is_set, number_of, of_file, option};
use clap::{Arg, ArgMatches, Command, value_parser};
use itoa::Buffer;
use std::alloc::{AllocError, Global};

/// The seeds of a hunt, how turns are drawn from them, and who hunts.
#[derive(Clone, Copy)]
pub struct Hunting {
    /// The seeds whose schedules are looked at.
    pub seeds: Seeds,
    /// The stream of component 0; component i has this one plus i, modulo 2^64.
    pub stream: u64,
    /// How many gaps there may be between two turns of a component, 1 to 65,535.
    pub gap: u32,
    /// Gaps are drawn from 0 ticks on.
    pub from_zero: bool,
    /// The last tick, 0 to 4,294,967,296.
    pub ticks: u64,
    /// By how many workers the seeds are looked at, 1 to 64.
    pub workers: u16,
    /// How many seeds have the action is wanted, and not the least of them.
    pub count: bool,
    /// How many seeds were looked at is told once a second.
    pub progress: bool,
}

/// The subcommand `hunt`.
pub(crate) fn hunt<'a>(alloc: Global) -> Result<Command<'a>, AllocError>
    ensures { IfOk result (λ c. app_of c ≡ hunt_app) }
{
    let command = of_file(
        alloc,
        "hunt",
        "Find the least seed whose schedule has an action, and write its turns up to that",
        "Example: warp hunt examples/broken-lock.ioa alarm --ticks 60",
        "The file of the source",
    );
    let command = add_file(
        alloc,
        command,
        "ACTION",
        "An action's name, or an action with its arguments",
    );
    let command = add_draws(alloc, add_seeds(alloc, command));
    add_hunters(alloc, command)
}

// The seeds of a hunt.
fn add_seeds<'a>(
    alloc: Global,
    command: Result<Command<'a>, AllocError>,
) -> Result<Command<'a>, AllocError>
    ensures { (app : App) → IfOk command.entry (λ c. app_of c ≡ app)
        → IfOk result (λ c. app_of c ≡ with_rule app seeds_rule) }
{
    match command {
        Ok(command) => command.arg(range(alloc)),
        Err(error) => Err(error),
    }
}

// Who hunts, and what is told of it.
fn add_hunters<'a>(
    alloc: Global,
    command: Result<Command<'a>, AllocError>,
) -> Result<Command<'a>, AllocError>
    ensures { (app : App) → IfOk command.entry (λ c. app_of c ≡ app)
        → IfOk result (λ c. app_of c ≡ hunting app) }
{
    let workers = value_parser!(u64).range(1..65);
    let command = add_number(
        alloc,
        command,
        "workers",
        "2",
        workers,
        "How many workers look at seeds",
    );
    let command = add_flag(
        alloc,
        command,
        "count",
        "Write how many seeds have it, in place of the least one",
    );
    add_flag(
        alloc,
        command,
        "progress",
        "Tell on standard error once a second how many seeds were looked at",
    )
}

fn range<'a>(alloc: Global) -> Arg<'a>
    ensures rule { rule_of result ≡ seeds_rule }
    ensures local { result.global ≡ false }
{
    option(alloc, "seeds", "The first and the last seed")
        .value_name("A..B")
        .default_value("1..1000")
}

/// What is asked of a hunt, each number in its range.
pub(crate) fn hunting_of(found: &ArgMatches) -> Option<Hunting>
    ensures { MatchOption result
        ((h : HuntingValue) → HasHunting (rows_of (found_of found.now)) h → ⊥)
        (HasHunting (rows_of (found_of found.now))) }
{
    let seeds = seeds_of(found)?;
    let stream = number_of(found, "stream", 0, u64::MAX)?;
    let gap = number_of(found, "gap", 1, 65_535)?;
    let ticks = number_of(found, "ticks", 0, 4_294_967_296)?;
    let workers = number_of(found, "workers", 1, 64)?;
    Some(Hunting {
        seeds,
        stream,
        gap: gap as u32,
        from_zero: is_set(found, "from-zero"),
        ticks,
        workers: workers as u16,
        count: is_set(found, "count"),
        progress: is_set(found, "progress"),
    })
}

fn seeds_of(found: &ArgMatches) -> Option<Seeds>
    ensures { MatchOption result
        ((s : SeedsValue) → HasSeeds (rows_of (found_of found.now)) s → ⊥)
        (HasSeeds (rows_of (found_of found.now))) }
{
    let text = file_of(found, "seeds")?;
    range_of(text)
}

// The range that a text spells: two numbers with two dots between them, the first not above the
// last.
fn range_of(text: &str) -> Option<Seeds>
    ensures { MatchOption result ((s : SeedsValue) → IsRange text.now s → ⊥) (IsRange text.now) }
{
    let (word, rest) = text.split_once('.')?;
    let first = spelled(word)?;
    let tail = rest.strip_prefix('.')?;
    let last = spelled(tail)?;
    if first > last {
        return None;
    }
    if last == u64::MAX {
        return None;
    }
    Some(Seeds { first, last })
}

// The number that the word spells: a word is a number's if the number prints as it.
fn spelled(word: &str) -> Option<u64>
    ensures some { IfSome result (λ n. word.now ≡ decimal n) }
    ensures only { (n : ℕ) → n < 2 ^ 64 → word.now ≡ decimal n → result ≡ Some n }
{
    match word.parse::<u64>() {
        Ok(value) if Buffer::new().format(value) == word => Some(value),
        _ => None,
    }
}
