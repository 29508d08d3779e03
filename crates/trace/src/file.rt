//! Reading a trace file of either version.
ghost use Rattle.std.specs.Prelude.{◌≡◌, Decides, IfOk, IfErr};
ghost use Rattle.trace.specs.OrderedFile.{head_line};
ghost use Rattle.trace.specs.Versions.{GivesFile, HasFault, IsVersionTwo};

use crate::fault::TraceError;
use crate::ordered::read_in_order;
use crate::reading::read_lines;
use plans::Plan;
use std::alloc::Global;
use task_seed::lines::split_line;
use terms::Action;

fn is_head(line: &[u8]) -> bool
    ensures { Decides result (line.now ≡ head_line) }
{
    line == b"trace 2".as_slice()
}

fn is_version_two(bytes: &[u8]) -> bool
    ensures { Decides result (IsVersionTwo bytes.now) }
{
    if bytes.is_empty() {
        return false;
    }
    let (first, _) = split_line(bytes);
    is_head(first)
}

/// Reads a trace file: the actions of its lines, in order.
///
/// A line is an action (`send(true,-3)`), or a turn as [`write_turns`](crate::write_turns) writes it: its tick, component
/// and number, and its action or `idle`, which gives no action. Words are separated by one space, and a line ends with a
/// line feed, which the last one may lack. The three numbers are at most the greatest `u64`, and aren't compared with
/// anything. An argument is a whole number of 64 bits, `true`, `false` or the name of a member of an enumeration; whether
/// a number is in a range isn't asked.
///
/// If the first line is `trace 2`, the file is of version 2: each other line is a turn of a component that exists, and its
/// key is above that of the turn on the line before.
///
/// # Errors
///
/// Refused is the first line, counted from 1, that is no such line ([`TraceError::BadLine`]), whose action the
/// composition doesn't have ([`TraceError::UnknownAction`]): no action has its name, or those have other parameters; or,
/// in a file of version 2, whose key isn't above the one before it ([`TraceError::NotInOrder`]). Of several faults of
/// that line the one with the least number is told. `NoMemory` where memory is refused.
pub fn read_trace(alloc: Global, plan: &Plan, bytes: &[u8]) -> Result<Vec<Action>, TraceError>
    ensures ok { IfOk result (λ actions. GivesFile plan.now bytes.now actions.items) }
    ensures err { IfErr result (λ error. HasFault plan.now bytes.now error) }
{
    if is_version_two(bytes) {
        read_in_order(alloc, plan, bytes)
    } else {
        read_lines(alloc, plan, bytes)
    }
}
