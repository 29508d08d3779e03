//! The group of all components.
ghost use Rattle.std.specs.Prelude.{◌≡◌, ◌≢◌, ◌≤◌, ◌<◌, ◌↔◌, [], IfErr, IfOk, IsSome, IsTrue, OnErr, OnOk, drop, length};
ghost use Rattle.std.specs.Arc.{arc_value};
ghost use Rattle.task_seed.specs.Machines.{end_rank, machine};
ghost use Rattle.task_seed.specs.Setups.{system};
ghost use Rattle.virtual_time.specs.Reference.{reference_below};
ghost use Rattle.reference.specs.Queues.{rank_or_end};
ghost use Rattle.lone_group.specs.Drawn.{IsDrawn, first_of};
ghost use Rattle.lone_group.specs.Held.{IsRest};
ghost use Rattle.lone_group.specs.Lone.{HasStopped, IsAhead, IsBatch, start_of, turns_in};

use crate::batch::{Batch, Slot};
use crate::drawn::Drawn;
use crate::taking::take_into;
use event_keys::Key;
use reference::{Due, Standing};
use std::alloc::Global;
use std::marker::Model;
use std::mem::replace;
use std::sync::Arc;
use task_seed::laws::machine_is_lawful;
use task_seed::{Setup, Turns};
use terms::{Action, NoMemory, State};
use virtual_time::reference::reference_is_counted;

/// How many turns were taken, and why there were no more.
#[derive(Clone, Copy, PartialEq, Eq)]
pub struct Took {
    pub count: u32,
    pub rest: Rest,
}

/// Why a lone group takes no more turns.
#[derive(Clone, Copy, PartialEq, Eq)]
pub enum Rest {
    /// The budget is used up.
    Budget,
    /// No turn is left.
    End,
    /// All that was drawn for it is taken.
    Undrawn,
    /// Memory was refused for the next turn.
    NoMemory,
}

/// All components of a setup in one group.
#[derive(Drop)]
pub struct LoneGroup<T: Turns> {
    standing: Standing<T>,
    // What was drawn for it, how many of these turns it took, and the key of the turn that comes behind them.
    due: Vec<Due>,
    at: usize,
    until: Option<Key>,
    // The turns that it took and didn't hand over, in the first slots, so many.
    slots: Vec<Slot>,
    used: usize,
    first: u64,
}

impl<T: Turns> Model for LoneGroup<T> {
    ghost use Rattle.std.specs.Prelude.{drop};
    ghost use Rattle.std.specs.Coded.{codes};
    ghost use Rattle.plans.specs.KnownLaws.{are_known_prop};
    ghost use Rattle.terms.specs.Datum.{datum_code};
    ghost use Rattle.terms.specs.contracts.scalar.Shape as shape;
    ghost use Rattle.terms.specs.contracts.term.Term as term;
    ghost use Rattle.terms.specs.contracts.effect.Effect as effect;
    ghost use Rattle.task_seed.specs.declared.setup.Setup.{Setup};
    ghost use Rattle.task_seed.specs.Setups.{system};
    ghost use Rattle.lone_group.specs.Lone.{Alone, turns_in};
    ghost use Rattle.lone_group.specs.Held.{IsHeld};

    ghost Value = { Alone (Setup T) };

    ghost coded = { Prim.hlevel (
      codes,
      are_known_prop,
      shape.the_row.coded,
      term.the_row.coded,
      effect.the_row.coded,
      datum_code,
    ) };

    ghost view = { λ l. record {
      setup = l.standing.setup;
      next = l.standing.next;
      due = drop l.at l.due.items;
      first = l.first;
      turns = turns_in l.used l.slots.items;
    } };

    ghost invariant = { λ l. IsHeld (system T.turn_of l.standing.setup) l.standing.next
        (drop l.at l.due.items) l.until l.first l.used l.slots.items };
}

impl<T: Turns> LoneGroup<T> {
    /// The group of all components of a setup, before its first turn, which has this key, if there is one.
    pub fn new(
        alloc: Global,
        setup: Arc<Setup<T>>,
        next: Option<Key>,
    ) -> Result<LoneGroup<T>, NoMemory>
        requires first { reference_below (machine (system T.turn_of (arc_value setup)))
            (rank_or_end next) ≡ [] }
        requires low { rank_or_end next ≤ end_rank }
        ensures { IfOk result (λ l. l ≡ start_of (arc_value setup) next) }
    {
        let standing = Standing::new(alloc, setup, next)?;
        Ok(LoneGroup {
            standing,
            due: Vec::new(alloc),
            at: 0,
            until: next,
            slots: Vec::new(alloc),
            used: 0,
            first: 0,
        })
    }

    /// The key of the turn that comes next, if one is left.
    pub fn next(&self) -> Option<Key>
        ensures { result ≡ self.now.next }
    {
        self.standing.next()
    }

    /// How many turns were taken and not handed over.
    pub fn waiting(&self) -> usize
        ensures { result ≡ length self.now.turns }
    {
        self.used
    }

    /// Whether a turn is left, and all that was drawn is taken.
    pub fn is_undrawn(&self) -> bool
        ensures { IsTrue result ↔ ((self.now.due ≡ []) × IsSome self.now.next) }
    {
        if self.at < self.due.len() {
            return false;
        }
        self.standing.next().is_some()
    }

    /// Turns are drawn for it, where it has taken all that were drawn before, and they begin with the one that comes next. The list of those before
    /// comes back, empty.
    pub fn add_drawn(&mut self, drawn: Drawn) -> Result<Vec<Due>, Drawn>
        requires drawn { IsDrawn (system T.turn_of self.old.setup) drawn }
        ensures ok { OnOk result (self.new ≡ record self.old { due = drawn.due.items }) }
        ensures why { OnOk result ((self.old.due ≡ []) × (drawn.from ≡ self.old.next)) }
        ensures empty { IfOk result (λ due. due.items ≡ []) }
        ensures err { OnErr result (self.new ≡ self.old) }
        ensures reason { OnErr result ((self.old.due ≡ []) → (drawn.from ≡ self.old.next) → ⊥) }
        ensures back { IfErr result (λ it. it ≡ drawn) }
    {
        if self.at < self.due.len() {
            return Err(drawn);
        }
        if drawn.from != self.standing.next() {
            return Err(drawn);
        }
        let Drawn { due, from: _, next } = drawn;
        let mut before = replace(&mut self.due, due);
        before.clear();
        self.at = 0;
        self.until = next;
        Ok(before)
    }

    /// Takes turns, at most `budget` of them.
    pub fn run_ahead(&mut self, alloc: Global, budget: u32) -> Took
        ensures ahead { IsAhead self.old self.new result.count }
        ensures most { result.count ≤ budget }
        ensures stop { HasStopped budget result.count result.rest self.new }
    {
        let mut count: u32 = 0;
        while count < budget {
            if self.at >= self.due.len() {
                return Took {
                    count,
                    rest: self.rest(),
                };
            }
            match self.step(alloc) {
                Ok(()) => count += 1,
                Err(NoMemory) => {
                    return Took {
                        count,
                        rest: Rest::NoMemory,
                    };
                }
            }
        }
        Took {
            count,
            rest: Rest::Budget,
        }
    }

    fn rest(&self) -> Rest
        requires { self.now.due ≡ [] }
        ensures { IsRest result self.now.next }
    {
        match self.standing.next() {
            None => Rest::End,
            Some(_) => Rest::Undrawn,
        }
    }

    // Takes one more turn.
    #[inline(always)]
    fn step(&mut self, alloc: Global) -> Result<(), NoMemory>
        requires { self.old.due ≢ [] }
        ensures ok { OnOk result (IsAhead self.old self.new 1) }
        ensures err { OnErr result (self.new ≡ self.old) }
    {
        let due = self.due[self.at];
        let next = next_of(&self.due, self.at + 1, self.until);
        take_into(
            alloc,
            &mut self.standing,
            due,
            next,
            &mut self.slots,
            self.used,
        )?;
        self.at += 1;
        self.used += 1;
        Ok(())
    }

    /// Hands over the turns that were taken since this was called last, and takes these slots in their place.
    pub fn hand_over(&mut self, spare: Vec<Slot>) -> Batch
        ensures batch { IsBatch (system T.turn_of self.old.setup) result }
        ensures turns { turns_in result.used result.slots.items ≡ self.old.turns }
        ensures first { result.first ≡ self.old.first }
        ensures rest { self.new ≡ record self.old { first = result.given; turns = [] } }
    {
        machine_is_lawful(self.standing.setup());
        reference_is_counted::<State, Action>();
        is_few(self.standing.setup().plan().components());
        let slots = replace(&mut self.slots, spare);
        let used = replace(&mut self.used, 0);
        let first = self.first;
        let given = first + used as u64;
        self.first = given;
        Batch {
            slots,
            used,
            first,
            given,
            is_last: self.standing.next().is_none(),
        }
    }
}

// A number of components fits its type.
fn is_few(count: u16)
    ensures { count < 65536 }
{
    let _ = count;
}

// The key of the turn that stands at a place, or the one behind all of them where there is none.
#[inline(always)]
fn next_of(due: &[Due], at: usize, until: Option<Key>) -> Option<Key>
    ensures { result ≡ first_of (drop at due.now) until }
{
    match due.get(at) {
        Some(later) => Some(later.key),
        None => until,
    }
}
