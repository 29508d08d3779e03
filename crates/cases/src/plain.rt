//! A simulator with a way of its own to the enabled actions of a task: it makes each tuple of an action's types, in their order, and asks of each
//! action by itself whether it is enabled.

use anyhow::Result;
use compose::compose_source;
use event_keys::{Key, Outcome, Turned};
use io_automata::Kind;
use plans::Plan;
use std::alloc::Global;
use task_seed::{SeedTurns, Turn, Turns};
use terms::{Action, Listed, Scalar, Shape, State};
use trace::{Counted, Lines, append_turn};

// Gaps are 1 to this.
const GAP: u32 = 8;

/// A component: its state, the tick of its last turn, and how many it had.
#[derive(Drop)]
struct Part {
    state: State,
    tick: u64,
    number: u64,
}

/// A composition under way.
#[derive(Drop)]
struct Plain<'a> {
    plan: &'a Plan,
    source: &'a str,
    turns: SeedTurns,
    parts: Vec<Part>,
}

/// The actions of one name, of which those are looked for that a component may take in a state.
#[derive(Clone, Copy)]
struct Named<'a> {
    plan: &'a Plan,
    component: u16,
    name: u16,
    state: &'a State,
}

/// The lines of all turns of a seed up to a tick. The source has two automata, the first of which its first component has, and the second all
/// others; its actions are named `a0` up to `a9` at most, without a gap, and no braces stand in it but those of tasks.
pub fn plain_text(alloc: Global, source: &str, seed: u64, ticks: u64) -> Result<Vec<u8>> {
    let turns = SeedTurns::new(seed, 0, GAP)?;
    let plan = compose_source(alloc, source.as_bytes())?;
    let text = text_of(alloc, &plan, source, turns, ticks);
    drop(plan);
    text
}

fn text_of(
    alloc: Global,
    plan: &Plan,
    source: &str,
    turns: SeedTurns,
    ticks: u64,
) -> Result<Vec<u8>> {
    let mut plain = Plain {
        plan,
        source,
        turns,
        parts: parts_of(alloc, plan)?,
    };
    let mut out = Counted::new(Vec::new(alloc));
    for tick in 0..ticks.saturating_add(1) {
        for i in 0..plan.components() {
            if let Some(turned) = plain.turn_at(alloc, tick, i)? {
                append_turn(plan, &turned, Lines::All, 0, &mut out)?;
            }
        }
    }
    Ok(out.into_inner())
}

fn parts_of(alloc: Global, plan: &Plan) -> Result<Vec<Part>> {
    let mut parts = Vec::new(alloc);
    for i in 0..plan.components() {
        parts.push(Part {
            state: plan.start(alloc, i)?,
            tick: 0,
            number: 0,
        })?;
    }
    Ok(parts)
}

impl<'a> Plain<'a> {
    // Takes the turn that a component has at a tick, if it has one.
    fn turn_at(&mut self, alloc: Global, tick: u64, i: u16) -> Result<Option<Turned>> {
        let Some(part) = self.parts.get_mut(usize::from(i)) else {
            return Ok(None);
        };
        let number = part.number;
        let Some(turn) = self.turns.turn(i, number) else {
            return Ok(None);
        };
        if part.tick.saturating_add(u64::from(turn.gap)) != tick {
            return Ok(None);
        }
        part.tick = tick;
        part.number = number.saturating_add(1);
        let key = Key {
            tick,
            component: i,
            number,
        };
        let outcome = self.take(alloc, i, turn)?;
        Ok(Some(Turned { key, outcome }))
    }

    // What a turn comes to: its component takes an enabled action of its task, and so do those that have it as an input.
    fn take(&mut self, alloc: Global, i: u16, turn: Turn) -> Result<Outcome> {
        let mut enabled = self.enabled(alloc, i, turn.task)?;
        if enabled.is_empty() {
            return Ok(Outcome::Idle);
        }
        let action = enabled.swap_remove(turn.choice as usize % enabled.len());
        for j in 0..self.plan.components() {
            let takes = j == i || self.plan.kind(j, &action) == Some(Kind::Input);
            if let Some(part) = self.parts.get_mut(usize::from(j)).filter(|_| takes) {
                self.plan.apply(alloc, j, &action, &mut part.state)?;
            }
        }
        Ok(Outcome::Did(action))
    }

    // The enabled actions of a task, by the names of the task as they stand in the source.
    fn enabled(&self, alloc: Global, i: u16, task: u32) -> Result<Vec<Action>> {
        let mut enabled = Vec::new(alloc);
        let Some(part) = self.parts.get(usize::from(i)) else {
            return Ok(enabled);
        };
        let task = task % self.plan.tasks(i).max(1);
        for name in names_of(alloc, self.source, i, task)? {
            let named = Named {
                plan: self.plan,
                component: i,
                name,
                state: &part.state,
            };
            named.add(alloc, &mut enabled)?;
        }
        Ok(enabled)
    }
}

// The names of a task, in order.
fn names_of(alloc: Global, source: &str, i: u16, task: u32) -> Result<Vec<u16>> {
    let automaton = usize::from(i.min(1));
    let tasks = source.split("tasks").nth(automaton + 1).unwrap_or("");
    let tasks = tasks.split('{').nth((task as usize).saturating_add(1));
    let names = tasks.unwrap_or("").split('}').next().unwrap_or("");
    let mut found = Vec::new(alloc);
    for sign in names.chars() {
        if let Some(digit) = sign.to_digit(10) {
            found.push(digit as u16)?;
        }
    }
    Ok(found)
}

impl<'a> Named<'a> {
    // Adds those that are enabled.
    fn add(self, alloc: Global, enabled: &mut Vec<Action>) -> Result<()> {
        let Some(name) = self.plan.action_name(self.name) else {
            return Ok(());
        };
        let mut arguments = Vec::new(alloc);
        add_tuples(
            alloc,
            self,
            name.parameters.as_slice(),
            &mut arguments,
            enabled,
        )
    }

    // Adds the one with these arguments, if it is enabled.
    fn add_one(self, alloc: Global, arguments: &[Scalar], enabled: &mut Vec<Action>) -> Result<()> {
        let action = Action::of_slice(alloc, self.name, arguments)?;
        let kind = self.plan.kind(self.component, &action);
        if kind != Some(Kind::Output) && kind != Some(Kind::Internal) {
            return Ok(());
        }
        if self
            .plan
            .is_enabled(alloc, self.component, &action, self.state)?
        {
            enabled.push(action)?;
        }
        Ok(())
    }
}

// Adds the enabled ones with these first arguments, where further ones have these types.
fn add_tuples(
    alloc: Global,
    named: Named,
    types: &[Shape],
    arguments: &mut Vec<Scalar>,
    enabled: &mut Vec<Action>,
) -> Result<()> {
    let Some((first, rest)) = types.split_first() else {
        return named.add_one(alloc, arguments.as_slice(), enabled);
    };
    let Shape::Listed(listed) = first else {
        return Ok(());
    };
    for place in 0..count_of(*listed) {
        arguments.push(member(*listed, place))?;
        add_tuples(alloc, named, rest, arguments, enabled)?;
        arguments.pop();
    }
    Ok(())
}

fn count_of(listed: Listed) -> u16 {
    match listed {
        Listed::Bool => 2,
        Listed::Range { low: _, count } => count,
        Listed::Enumeration { first: _, count } => count,
    }
}

fn member(listed: Listed, place: u16) -> Scalar {
    match listed {
        Listed::Bool => Scalar::Bool(place == 1),
        Listed::Range { low, count: _ } => Scalar::Int(low.saturating_add(i64::from(place))),
        Listed::Enumeration { first, count: _ } => Scalar::Member(first.saturating_add(place)),
    }
}
