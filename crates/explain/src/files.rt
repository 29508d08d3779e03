//! What people are told of a refused table, trace or file of steps.
ghost use Rattle.std.specs.Prelude.{◌≡◌, IfOk};
ghost use Rattle.explain.specs.Explanations.{IsLineExplanation};

use crate::advice::Advice;
use crate::marks::line_mark;
use crate::texts::sentence;
use excerpts::{Told, explanation, line_of};
use plans::Plan;
use std::alloc::Global;
use terms::NoMemory;

/// A file of lines.
#[derive(Clone, Copy, PartialEq, Eq)]
pub enum FileKind {
    /// A table of turns.
    Table,
    /// A trace: actions or turns.
    Trace,
    /// The steps of `drive`.
    Steps,
}

/// Tells people of a file that is refused at a line, for a composition: `NAME:LINE:1: refused NUMBER: SENTENCE`, the line, carets below
/// all of it, and a line of advice.
pub fn explain_line(
    alloc: Global,
    plan: &Plan,
    kind: FileKind,
    name: &str,
    bytes: &[u8],
    number: u8,
    line: Option<usize>,
) -> Result<Vec<u8>, NoMemory>
    ensures { IfOk result (λ text. IsLineExplanation name.now bytes.now number line text.items) }
{
    let mark = line_mark(bytes, line);
    let text = match mark {
        Some(mark) => line_of(bytes, mark.at.min(bytes.len())),
        None => bytes,
    };
    let mut advice = Advice::new(alloc);
    advise_line(plan, kind, number, text, &mut advice)?;
    let told = Told {
        number,
        sentence: sentence(number),
        advice: advice.as_bytes(),
    };
    explanation(alloc, name, bytes, mark, told)
}

fn advise_line(
    plan: &Plan,
    kind: FileKind,
    number: u8,
    line: &[u8],
    advice: &mut Advice,
) -> Result<(), NoMemory> {
    match number {
        26 => advice.say("the last tick is at most 4294967296"),
        27 => advice.say("the second number of a row, the gap, is 0 to 65535"),
        28 => advise_task(plan, line, advice),
        30 => advice.count(
            "how many components there are: ",
            usize::from(plan.components()),
            "; they are counted from 0",
        ),
        51 => advise_action(plan, line, advice),
        52 => advice.say(
            "turns stand in the order of their keys: tick, then component, then number",
        ),
        _ => advice.say(form_of(kind)),
    }
}

fn form_of(kind: FileKind) -> &'static str {
    match kind {
        FileKind::Table =>
            "a row is `component gap task choice`: four numbers without zeros in front, and one space between two",
        FileKind::Trace =>
            "a line is an action, as `pass(1)`, or a turn, as `1 0 0 pass(1)` or `1 0 0 idle`; behind the line `trace 2` only a turn",
        FileKind::Steps =>
            "a step is `process I`, `back I`, `deliver + TO T C N A`, `deliver - TO T C N A`, `meet TO T C N A`, `commit T C N` or `commit end`",
    }
}

// The number at the front of a line.
fn first_number(line: &[u8]) -> Option<u16> {
    let mut value: u16 = 0;
    for byte in line {
        if *byte < b'0' || b'9' < *byte {
            return Some(value);
        }
        let digit = byte.saturating_sub(b'0');
        value = value.checked_mul(10)?.checked_add(u16::from(digit))?;
    }
    Some(value)
}

fn advise_task(plan: &Plan, line: &[u8], advice: &mut Advice) -> Result<(), NoMemory> {
    let component = first_number(line).unwrap_or(0);
    let tasks = if component < plan.components() {
        plan.tasks(component).max(1)
    } else {
        1
    };
    advice.count(
        "how many tasks component ",
        usize::from(component),
        " has: ",
    )?;
    advice.count("", tasks as usize, "; they are counted from 0")
}

// The actions whose names are nearest to the last word of a line.
fn advise_action(plan: &Plan, line: &[u8], advice: &mut Advice) -> Result<(), NoMemory> {
    let names = action_names(advice.alloc, plan)?;
    advice.say("the actions are ")?;
    advice.list_nearest(action_in(line), names.as_slice(), false)?;
    advice.say(", with their arguments as the source declares them")
}

fn action_names(alloc: Global, plan: &Plan) -> Result<Vec<&str>, NoMemory> {
    let mut names = Vec::new(alloc);
    for number in 0..u16::MAX {
        match plan.action_name(number) {
            Some(name) => names.push(name.text.as_str())?,
            None => break,
        }
    }
    Ok(names)
}

// The name of the action at the end of a line.
fn action_in(line: &[u8]) -> &str {
    let text = match std::str::from_utf8(line) {
        Ok(text) => text,
        Err(_) => return "",
    };
    let word = match text.rsplit_once(' ') {
        Some((_, last)) => last,
        None => text,
    };
    match word.split_once('(') {
        Some((name, _)) => name,
        None => word,
    }
}
