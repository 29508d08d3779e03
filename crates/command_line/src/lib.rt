//! The command line of `warp`: its subcommands and their options, read by `clap`.
#![tactic(auto)]

ghost use Rattle.std.specs.Prelude.{◌≡◌, ◌≤◌, ℕ, codes, false, Option, Some, IfOk, IfSome, MatchOption, MatchResult, map, option_map, string_bytes};
ghost use Rattle.clap.specs.Words.{App, app_of, first_of, found_of, kind_of, rows_of, rule_of, subcommand_rows_of, with_rule};
ghost use Rattle.command_line.specs.Chosen.{or_one};
ghost use Rattle.command_line.specs.declared.crew.Crew.{Crew as CrewValue};
ghost use Rattle.command_line.specs.declared.Options.{Options as OptionsValue};
ghost use Rattle.command_line.specs.Rules.{drawn, file_rule, flag_rule, long_rule, number_rule, of_file, option_rule, optional_rule, whole, IsChosen, IsFlag, IsNumber};
ghost use Rattle.command_line.specs.Words.{bare, version_text, warp, simulating, turned, manned, print_app, format_app, reference_app, run_app, check_app, drive_app, explain_app, judging, HasCrew, HasOptions, HasTurns, IsPlain, IsAsked, IsAskedBy, IsRefused, IsTold};
ghost use Rattle.command_line.specs.declared.Refused.TheVariants.{NoMemory};

mod adding;
mod crew;
mod drawing;
mod hunting;
mod seeds;
mod ticks;

use adding::{add_file, add_flag, add_number, add_optional, add_other, add_subcommand};
use clap::builder::ValueParser;
use clap::error::{Error, ErrorKind};
use clap::{Arg, ArgAction, ArgMatches, Command, value_parser};
pub use crew::Crew;
use drawing::ticks_of;
pub use hunting::Hunting;
use hunting::hunting_of;
pub use seeds::Seeds;
use std::alloc::{AllocError, Global};
pub use ticks::Ticks;

/// What the words ask for.
#[derive(Clone, Copy)]
pub enum Asked<'a> {
    /// The source in this file is printed in its layout.
    Print {
        source: &'a str,
    },
    /// The source in this file is laid out, its comments kept; or it is only told whether it is.
    Format {
        source: &'a str,
        check: bool,
    },
    /// The composition of the source in this file is simulated by one thread.
    Reference {
        source: &'a str,
        options: Options<'a>,
    },
    /// The composition of the source in this file is simulated by workers.
    Run {
        source: &'a str,
        options: Options<'a>,
        crew: Crew,
    },
    /// Whether the actions in the second file are a schedule of the composition of the source in the first.
    Check {
        source: &'a str,
        trace: &'a str,
    },
    /// The composition of the source in the first file is driven by the steps in the second.
    Drive {
        source: &'a str,
        steps: &'a str,
        options: Options<'a>,
    },
    /// People are told of the first fault of the source in this file, or of the other files by it; or of a number at length.
    Explain {
        source: &'a str,
        table: Option<&'a str>,
        steps: Option<&'a str>,
        actions: Option<&'a str>,
    },
    /// An action is hunted for in the schedules of the composition of the source in this file.
    Hunt {
        source: &'a str,
        action: &'a str,
        hunting: Hunting,
    },
    /// The schedule of the composition of the source in this file is drawn.
    Draw {
        source: &'a str,
        options: Options<'a>,
        ticks: Ticks,
    },
}

/// The turns with which a composition is simulated or driven, and what is written of them.
#[derive(Clone, Copy)]
pub struct Options<'a> {
    /// The seed of the turns; with a table, seed, stream and gap aren't used.
    pub seed: u64,
    /// The stream of component 0; component i has this one plus i, modulo 2^64.
    pub stream: u64,
    /// How many gaps there may be between two turns of a component, 1 to 65,535: of 1 tick and more, or of 0 and more.
    pub gap: u64,
    /// Gaps are drawn from 0 ticks on; with a table this has no effect.
    pub from_zero: bool,
    /// The last tick, 0 to 4,294,967,296.
    pub ticks: u64,
    /// The file of a table of turns.
    pub table: Option<&'a str>,
    /// Only turns with an external action are written.
    pub trace: bool,
    /// A head is written in front of the turns.
    pub head: bool,
    /// How far it is is told once a second.
    pub progress: bool,
}

/// Why the words ask for nothing.
#[derive(Drop)]
pub enum Refused {
    /// Want of memory.
    NoMemory,
    /// The words ask for help, which is the text of the error.
    Help(Error),
    /// The words ask for the program's version.
    Version,
    /// The words aren't those of the program; the text of the error says why.
    Words(Error),
}

impl From<AllocError> for Refused {
    ghost from_gives = { λ _ e. e ≡ NoMemory };

    fn from(_refused: AllocError) -> Refused {
        Refused::NoMemory
    }
}

/// What `--version` writes: the program's name and version, and the toolchain by which it was proved and built, as that names itself.
pub fn version() -> &'static str
    ensures { result.now ≡ version_text }
{
    "warp 0.1.0\nproved with Rattle, logic dac8208d650f15bf\n"
}

// What is said of words in which clap finds no fault and that ask for nothing: only a range of seeds can be so.
const NO_SEEDS: &str =
    "`--seeds` wants FIRST..LAST, two whole numbers with two dots between them, the first not above the last, and the last at most 18446744073709551614";

/// Reads the words after the program's name.
pub fn read_words<'a>(alloc: Global, words: &'a [String]) -> Result<Asked<'a>, Refused>
    ensures { MatchResult result (IsAsked (map string_bytes words.now))
        (IsRefused (map string_bytes words.now)) }
{
    let mut command = described(alloc)?;
    let matches = match command.try_get_matches_from_mut(words) {
        Ok(matches) => matches,
        Err(error) => {
            drop(command);
            return Err(refusal_of(error));
        }
    };
    let asked = asked_by(&matches);
    drop(matches);
    match asked {
        Some(asked) => {
            drop(command);
            Ok(asked)
        }
        None => {
            let error = command.error(ErrorKind::ValueValidation, NO_SEEDS);
            drop(command);
            Err(Refused::Words(error?))
        }
    }
}

// The program without its subcommands. Usage lines begin with its name.
fn bare<'a>(alloc: Global) -> Result<Command<'a>, AllocError>
    ensures { IfOk result (λ c. app_of c ≡ bare) }
{
    Command::new(alloc, "warp")
        .about("A parallel simulator of composed I/O automata")
        .version(version())
        .no_binary_name(true)
        .subcommand_required(true)
        .bin_name("warp")
}

fn described<'a>(alloc: Global) -> Result<Command<'a>, AllocError>
    ensures app { IfOk result (λ c. app_of c ≡ warp) }
{
    let command = add_subcommand(bare(alloc), print(alloc));
    let command = add_subcommand(command, format(alloc));
    let command = add_subcommand(command, reference(alloc));
    let command = add_subcommand(command, run(alloc));
    let command = add_subcommand(command, check(alloc));
    let command = add_subcommand(command, drive(alloc));
    let command = add_subcommand(command, explain(alloc));
    let command = add_subcommand(command, hunting::hunt(alloc));
    add_subcommand(command, drawing::draw(alloc))
}

// A subcommand of one file, with what is told of it: what it does, and examples.
fn of_file<'a>(
    alloc: Global,
    name: &'a str,
    about: &'a str,
    examples: &'a str,
    source: &'a str,
) -> Result<Command<'a>, AllocError>
    ensures { IfOk result (λ c. app_of c ≡ of_file name.now (codes "F")) }
{
    Command::new(alloc, name)
        .about(about)
        .after_help(examples)
        .arg(file(alloc, "F", source))
}

fn print<'a>(alloc: Global) -> Result<Command<'a>, AllocError>
    ensures { IfOk result (λ c. app_of c ≡ print_app) }
{
    of_file(
        alloc,
        "print",
        "Print a source in its layout; it is read and not checked",
        "Example: warp print examples/ring.ioa",
        "The file of the source",
    )
}

fn format<'a>(alloc: Global) -> Result<Command<'a>, AllocError>
    ensures { IfOk result (λ c. app_of c ≡ format_app) }
{
    let command = of_file(
        alloc,
        "format",
        "Lay a source out as people write it, its comments kept",
        "Example: warp format examples/paxos.ioa --check",
        "The file of the source",
    );
    add_flag(
        alloc,
        command,
        "check",
        "Write nothing; the status tells whether it is so laid out",
    )
}

fn reference<'a>(alloc: Global) -> Result<Command<'a>, AllocError>
    ensures { IfOk result (λ c. app_of c ≡ reference_app) }
{
    let command = of_file(
        alloc,
        "reference",
        "Simulate a composition by one thread, which always takes the turn with the least key",
        "Example: warp reference examples/ring.ioa --table examples/ring-a.table",
        "The file of the source",
    );
    add_options(alloc, command)
}

fn run<'a>(alloc: Global) -> Result<Command<'a>, AllocError>
    ensures { IfOk result (λ c. app_of c ≡ run_app) }
{
    let command = of_file(
        alloc,
        "run",
        "Simulate a composition by several workers, and write the turns that are committed",
        "Example: warp run examples/lcr.ioa --seed 7 --ticks 100 --workers 4",
        "The file of the source",
    );
    let command = add_options(alloc, command);
    add_crew(alloc, command)
}

fn check<'a>(alloc: Global) -> Result<Command<'a>, AllocError>
    ensures { IfOk result (λ c. app_of c ≡ check_app) }
{
    let command = of_file(
        alloc,
        "check",
        "Say whether actions are a schedule of a composition",
        "Example: warp check examples/ring.ioa ACTIONS",
        "The file of the source",
    );
    add_file(
        alloc,
        command,
        "TRACE",
        "The file of the actions, one a line",
    )
}

fn drive<'a>(alloc: Global) -> Result<Command<'a>, AllocError>
    ensures { IfOk result (λ c. app_of c ≡ drive_app) }
{
    let command = of_file(
        alloc,
        "drive",
        "Drive a composition by steps, and write the turns that are committed after all",
        "Example: warp drive examples/ring.ioa examples/ring.steps --table examples/ring-a.table",
        "The file of the source",
    );
    let command = add_file(alloc, command, "STEPS", "The file of the steps, one a line");
    add_options(alloc, command)
}

fn explain<'a>(alloc: Global) -> Result<Command<'a>, AllocError>
    ensures { IfOk result (λ c. app_of c ≡ explain_app) }
{
    let command = of_file(
        alloc,
        "explain",
        "Tell where a source or a file for it is refused, and what may help; or of a number",
        "Examples: warp explain examples/ring.ioa; warp explain 12",
        "The file of the source, or the number of a refusal or fault",
    );
    add_files(alloc, command)
}

// The options of what judges further files.
fn add_files<'a>(
    alloc: Global,
    command: Result<Command<'a>, AllocError>,
) -> Result<Command<'a>, AllocError>
    ensures { (app : App) → IfOk command.entry (λ c. app_of c ≡ app)
        → IfOk result (λ c. app_of c ≡ judging app) }
{
    let command = add_other(alloc, command, "table", "The file of a table of turns");
    let command = add_other(alloc, command, "steps", "The file of steps, one a line");
    add_other(alloc, command, "actions", "The file of actions, one a line")
}

// The options of what simulates or drives.
fn add_options<'a>(
    alloc: Global,
    command: Result<Command<'a>, AllocError>,
) -> Result<Command<'a>, AllocError>
    ensures { (app : App) → IfOk command.entry (λ c. app_of c ≡ app)
        → IfOk result (λ c. app_of c ≡ simulating app) }
{
    let command = add_turns(alloc, command);
    let command = add_flag(
        alloc,
        command,
        "trace",
        "Write only turns with an external action",
    );
    let command = add_flag(
        alloc,
        command,
        "head",
        "Begin with the line `trace 2`, after which `check` wants rising keys",
    );
    add_flag(
        alloc,
        command,
        "progress",
        "Tell on standard error once a second how far it is",
    )
}

// A seed, what else draws turns, and a table of them.
fn add_turns<'a>(
    alloc: Global,
    command: Result<Command<'a>, AllocError>,
) -> Result<Command<'a>, AllocError>
    ensures { (app : App) → IfOk command.entry (λ c. app_of c ≡ app)
        → IfOk result (λ c. app_of c ≡ turned app) }
{
    let whole = value_parser!(u64);
    let command = add_number(alloc, command, "seed", "1", whole, "The seed of the turns");
    let command = add_draws(alloc, command);
    add_other(
        alloc,
        command,
        "table",
        "The file of a table of turns; seed, stream and gap are then not used",
    )
}

// How turns are drawn from a seed.
fn add_draws<'a>(
    alloc: Global,
    command: Result<Command<'a>, AllocError>,
) -> Result<Command<'a>, AllocError>
    ensures { (app : App) → IfOk command.entry (λ c. app_of c ≡ app)
        → IfOk result (λ c. app_of c ≡ drawn app) }
{
    let whole = value_parser!(u64);
    let gaps = value_parser!(u64).range(1..65_536);
    let ticks = value_parser!(u64).range(0..4_294_967_297);
    let command = add_number(
        alloc,
        command,
        "stream",
        "0",
        whole,
        "The stream of the first component's turns",
    );
    let command = add_number(
        alloc,
        command,
        "gap",
        "8",
        gaps,
        "The greatest gap between two turns, in ticks",
    );
    let command = add_flag(
        alloc,
        command,
        "from-zero",
        "Draw gaps from 0 to one less than --gap, and not from 1 to --gap",
    );
    add_number(alloc, command, "ticks", "1000", ticks, "The last tick")
}

// The options of what workers simulate.
fn add_crew<'a>(
    alloc: Global,
    command: Result<Command<'a>, AllocError>,
) -> Result<Command<'a>, AllocError>
    ensures { (app : App) → IfOk command.entry (λ c. app_of c ≡ app)
        → IfOk result (λ c. app_of c ≡ manned app) }
{
    let workers = value_parser!(u64).range(1..65);
    let budgets = value_parser!(u64).range(1..65_536);
    let windows = value_parser!(u64).range(1..65_536);
    let groups = value_parser!(u64).range(1..65);
    let command = add_number(
        alloc,
        command,
        "workers",
        "2",
        workers,
        "How many workers run the components at most",
    );
    let command = add_number(
        alloc,
        command,
        "budget",
        "64",
        budgets,
        "How many entries a worker processes of a component at a time",
    );
    let command = add_optional(
        alloc,
        command,
        "window",
        windows,
        "How many turns of its own a component may have done that aren't committed",
    );
    let command = add_optional(
        alloc,
        command,
        "groups",
        groups,
        "How many groups of components there are, each with a worker; without it a trial finds how many",
    );
    add_flag(
        alloc,
        command,
        "stats",
        "Tell on standard error what the workers did",
    )
}

// What is entered by a name behind two dashes.
fn option<'a>(alloc: Global, name: &'a str, help: &'a str) -> Arg<'a>
    ensures rule { rule_of result ≡ long_rule name.now }
    ensures local { result.global ≡ false }
{
    Arg::new(alloc, name).long(name).help(help)
}

fn number<'a>(
    alloc: Global,
    name: &'a str,
    default: &'a str,
    parser: ValueParser<'a>,
    help: &'a str,
) -> Arg<'a>
    ensures rule { rule_of result ≡ number_rule name.now default.now parser.entry }
    ensures local { result.global ≡ false }
{
    optional(alloc, name, parser, help).default_value(default)
}

// The option of a number that may be left out.
fn optional<'a>(alloc: Global, name: &'a str, parser: ValueParser<'a>, help: &'a str) -> Arg<'a>
    ensures rule { rule_of result ≡ optional_rule name.now parser.entry }
    ensures local { result.global ≡ false }
{
    option(alloc, name, help).value_parser(parser)
}

// The option of another file.
fn other<'a>(alloc: Global, name: &'a str, help: &'a str) -> Arg<'a>
    ensures rule { rule_of result ≡ option_rule name.now }
    ensures local { result.global ≡ false }
{
    option(alloc, name, help).value_name("FILE")
}

fn flag<'a>(alloc: Global, name: &'a str, help: &'a str) -> Arg<'a>
    ensures rule { rule_of result ≡ flag_rule name.now }
    ensures local { result.global ≡ false }
{
    option(alloc, name, help).action(ArgAction::SetTrue)
}

fn file<'a>(alloc: Global, name: &'a str, help: &'a str) -> Arg<'a>
    ensures rule { rule_of result ≡ file_rule name.now }
    ensures local { result.global ≡ false }
{
    Arg::new(alloc, name).required(true).help(help)
}

// What the subcommand that was entered asks for.
fn asked_by<'a>(matches: &ArgMatches<'a>) -> Option<Asked<'a>>
    ensures { IsAskedBy (subcommand_rows_of matches.now) result }
{
    let (name, found) = matches.subcommand()?;
    let source = file_of(found, "F")?;
    asked_as(name, source, found)
}

// What is asked for by the subcommand of this name.
fn asked_as<'a>(name: &str, source: &'a str, found: &ArgMatches<'a>) -> Option<Asked<'a>>
    requires { first_of (codes "F") (rows_of (found_of found.now)) ≡ Some source.now }
    ensures { IsAskedBy (Some (name.now, rows_of (found_of found.now))) result }
{
    if name == "print" {
        return Some(Asked::Print { source });
    }
    if name == "format" {
        return asked_format(source, found);
    }
    if name == "reference" {
        return asked_reference(source, found);
    }
    if name == "run" {
        return asked_run(source, found);
    }
    if name == "check" {
        return asked_check(source, found);
    }
    if name == "drive" {
        return asked_drive(source, found);
    }
    if name == "explain" {
        return asked_explain(source, found);
    }
    if name == "hunt" {
        return asked_hunt(source, found);
    }
    if name == "draw" {
        return asked_draw(source, found);
    }
    None
}

// What is asked for by `format`.
fn asked_format<'a>(source: &'a str, found: &ArgMatches<'a>) -> Option<Asked<'a>>
    requires { first_of (codes "F") (rows_of (found_of found.now)) ≡ Some source.now }
    ensures { IsAskedBy (Some (codes "format", rows_of (found_of found.now))) result }
{
    let check = is_set(found, "check");
    Some(Asked::Format { source, check })
}

// What is asked for by `reference`.
fn asked_reference<'a>(source: &'a str, found: &ArgMatches<'a>) -> Option<Asked<'a>>
    requires { first_of (codes "F") (rows_of (found_of found.now)) ≡ Some source.now }
    ensures { IsAskedBy (Some (codes "reference", rows_of (found_of found.now))) result }
{
    let options = options_of(found)?;
    Some(Asked::Reference { source, options })
}

// What is asked for by `run`.
fn asked_run<'a>(source: &'a str, found: &ArgMatches<'a>) -> Option<Asked<'a>>
    requires { first_of (codes "F") (rows_of (found_of found.now)) ≡ Some source.now }
    ensures { IsAskedBy (Some (codes "run", rows_of (found_of found.now))) result }
{
    let options = options_of(found)?;
    let crew = crew_of(found)?;
    Some(Asked::Run {
        source,
        options,
        crew,
    })
}

// What is asked for by `check`.
fn asked_check<'a>(source: &'a str, found: &ArgMatches<'a>) -> Option<Asked<'a>>
    requires { first_of (codes "F") (rows_of (found_of found.now)) ≡ Some source.now }
    ensures { IsAskedBy (Some (codes "check", rows_of (found_of found.now))) result }
{
    let trace = file_of(found, "TRACE")?;
    Some(Asked::Check { source, trace })
}

// What is asked for by `drive`.
fn asked_drive<'a>(source: &'a str, found: &ArgMatches<'a>) -> Option<Asked<'a>>
    requires { first_of (codes "F") (rows_of (found_of found.now)) ≡ Some source.now }
    ensures { IsAskedBy (Some (codes "drive", rows_of (found_of found.now))) result }
{
    let steps = file_of(found, "STEPS")?;
    let options = options_of(found)?;
    Some(Asked::Drive {
        source,
        steps,
        options,
    })
}

// What is asked for by `explain`.
fn asked_explain<'a>(source: &'a str, found: &ArgMatches<'a>) -> Option<Asked<'a>>
    requires { first_of (codes "F") (rows_of (found_of found.now)) ≡ Some source.now }
    ensures { IsAskedBy (Some (codes "explain", rows_of (found_of found.now))) result }
{
    Some(Asked::Explain {
        source,
        table: file_of(found, "table"),
        steps: file_of(found, "steps"),
        actions: file_of(found, "actions"),
    })
}

// What is asked for by `hunt`.
fn asked_hunt<'a>(source: &'a str, found: &ArgMatches<'a>) -> Option<Asked<'a>>
    requires { first_of (codes "F") (rows_of (found_of found.now)) ≡ Some source.now }
    ensures { IsAskedBy (Some (codes "hunt", rows_of (found_of found.now))) result }
{
    let action = file_of(found, "ACTION")?;
    let hunting = hunting_of(found)?;
    Some(Asked::Hunt {
        source,
        action,
        hunting,
    })
}

// What is asked for by `draw`.
fn asked_draw<'a>(source: &'a str, found: &ArgMatches<'a>) -> Option<Asked<'a>>
    requires { first_of (codes "F") (rows_of (found_of found.now)) ≡ Some source.now }
    ensures { IsAskedBy (Some (codes "draw", rows_of (found_of found.now))) result }
{
    let options = turns_of(found)?;
    let ticks = ticks_of(found)?;
    Some(Asked::Draw {
        source,
        options,
        ticks,
    })
}

// The options, each number in its range.
fn options_of<'a>(found: &ArgMatches<'a>) -> Option<Options<'a>>
    ensures { MatchOption result
        ((o : OptionsValue) → HasOptions (rows_of (found_of found.now)) o → ⊥)
        (HasOptions (rows_of (found_of found.now))) }
{
    let turns = turns_of(found)?;
    Some(Options {
        trace: is_set(found, "trace"),
        head: is_set(found, "head"),
        progress: is_set(found, "progress"),
        ..turns
    })
}

// The options of turns alone, each number in its range: all turns are written, with no head, and nothing is told.
fn turns_of<'a>(found: &ArgMatches<'a>) -> Option<Options<'a>>
    ensures { MatchOption result
        ((o : OptionsValue) → HasTurns (rows_of (found_of found.now)) o → ⊥)
        (λ o. HasTurns (rows_of (found_of found.now)) o × IsPlain o) }
{
    let seed = number_of(found, "seed", 0, u64::MAX)?;
    let stream = number_of(found, "stream", 0, u64::MAX)?;
    let gap = number_of(found, "gap", 1, 65_535)?;
    let ticks = number_of(found, "ticks", 0, 4_294_967_296)?;
    Some(Options {
        seed,
        stream,
        gap,
        from_zero: is_set(found, "from-zero"),
        ticks,
        table: file_of(found, "table"),
        trace: false,
        head: false,
        progress: false,
    })
}

// The workers, each number in its range.
fn crew_of(found: &ArgMatches) -> Option<Crew>
    ensures { MatchOption result ((c : CrewValue) → HasCrew (rows_of (found_of found.now)) c → ⊥)
        (HasCrew (rows_of (found_of found.now))) }
{
    let workers = number_of(found, "workers", 1, 64)?;
    let budget = number_of(found, "budget", 1, 65_535)?;
    let window = chosen_of(found, "window", 65_535)?;
    let groups = chosen_of(found, "groups", 64)?;
    Some(Crew {
        workers: workers as u16,
        budget: budget as u32,
        window: widened(window),
        groups,
        stats: is_set(found, "stats"),
    })
}

// The same number in more bits.
fn widened(number: Option<u16>) -> Option<u32>
    ensures { result ≡ number }
{
    match number {
        Some(number) => Some(u32::from(number)),
        None => None,
    }
}

// The number that was entered for an option, from 1 to the greatest, or none where none was.
fn chosen_of(found: &ArgMatches, name: &str, most: u16) -> Option<Option<u16>>
    requires { 1 ≤ most }
    ensures chosen { MatchOption result
        ((n : Option ℕ) → IsChosen (rows_of (found_of found.now)) name.now 1 most n → ⊥)
        (IsChosen (rows_of (found_of found.now)) name.now 1 most) }
    ensures some { IfSome result (λ n. 1 ≤ or_one n) }
    ensures small { IfSome result (λ n. or_one n ≤ most) }
{
    let Some(_entered) = file_of(found, name) else {
        return Some(None);
    };
    let number = number_of(found, name, 1, u64::from(most))?;
    Some(Some(number as u16))
}

// The number that stands for an option, if it is in a range.
fn number_of(found: &ArgMatches, option: &str, least: u64, most: u64) -> Option<u64>
    ensures { MatchOption result
        ((n : ℕ) → IsNumber (rows_of (found_of found.now)) option.now least most n → ⊥)
        (IsNumber (rows_of (found_of found.now)) option.now least most) }
{
    match found.get_one::<u64>(option) {
        Some(number) => {
            if number < least {
                return None;
            }
            if most < number {
                return None;
            }
            Some(number)
        }
        None => None,
    }
}

// Whether a flag was entered: clap then has the text `true` for it.
fn is_set(found: &ArgMatches, flag: &str) -> bool
    ensures { IsFlag (first_of flag.now (rows_of (found_of found.now))) result }
{
    match file_of(found, flag) {
        Some(text) => text == "true",
        None => false,
    }
}

fn file_of<'a>(found: &ArgMatches<'a>, argument: &str) -> Option<&'a str>
    ensures { option_map (λ s. s.now) result
        ≡ first_of argument.now (rows_of (found_of found.now)) }
{
    found.get_str(argument)
}

fn refusal_of(error: Error) -> Refused
    ensures { IsTold (kind_of error) result }
{
    match error.kind() {
        ErrorKind::OutOfMemory => Refused::NoMemory,
        ErrorKind::DisplayHelp => Refused::Help(error),
        ErrorKind::DisplayVersion => Refused::Version,
        _ => Refused::Words(error),
    }
}
