//! What is asked of a diagram.
ghost use Rattle.std.specs.Prelude.{◌≡◌, IfOk, MatchOption};
ghost use Rattle.clap.specs.Words.{App, app_of, found_of, rows_of};
ghost use Rattle.command_line.specs.declared.ticks.Ticks.{Ticks as TicksValue};
ghost use Rattle.command_line.specs.Drawing.{HasTicks, ticked};
ghost use Rattle.command_line.specs.Words.{draw_app};

use crate::adding::add_number;
use crate::ticks::Ticks;
use crate::{add_turns, number_of, of_file};
use clap::{ArgMatches, Command, value_parser};
use std::alloc::{AllocError, Global};

/// The subcommand `draw`.
pub(crate) fn draw<'a>(alloc: Global) -> Result<Command<'a>, AllocError>
    ensures { IfOk result (λ c. app_of c ≡ draw_app) }
{
    let command = of_file(
        alloc,
        "draw",
        "Draw a schedule as a space-time diagram, in SVG",
        "Example: warp draw examples/paxos.ioa --ticks 40",
        "The file of the source",
    );
    let command = add_turns(alloc, command);
    add_ticks(alloc, command)
}

// The ticks that are drawn.
fn add_ticks<'a>(
    alloc: Global,
    command: Result<Command<'a>, AllocError>,
) -> Result<Command<'a>, AllocError>
    ensures { (app : App) → IfOk command.entry (λ c. app_of c ≡ app)
        → IfOk result (λ c. app_of c ≡ ticked app) }
{
    let all = value_parser!(u64).range(0..4_294_967_297);
    let command = add_number(
        alloc,
        command,
        "from",
        "0",
        all,
        "The first tick that is drawn",
    );
    add_number(
        alloc,
        command,
        "to",
        "4294967296",
        all,
        "The last tick that is drawn",
    )
}

/// The ticks that are drawn, each in its range.
pub(crate) fn ticks_of(found: &ArgMatches) -> Option<Ticks>
    ensures { MatchOption result
        ((t : TicksValue) → HasTicks (rows_of (found_of found.now)) t → ⊥)
        (HasTicks (rows_of (found_of found.now))) }
{
    let from = number_of(found, "from", 0, 4_294_967_296)?;
    let to = number_of(found, "to", 0, 4_294_967_296)?;
    Some(Ticks { from, to })
}
