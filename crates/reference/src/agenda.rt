//! The turns that come, before it is known what comes of them.
ghost use Rattle.std.specs.Prelude.{◌≡◌, ◌≤◌, [], IfOk, OnErr};
ghost use Rattle.std.specs.Arc.{arc_value};
ghost use Rattle.task_seed.specs.Setups.{system};
ghost use Rattle.task_seed.specs.Machines.{end_rank, machine};
ghost use Rattle.virtual_time.specs.Reference.{reference_below};
ghost use Rattle.reference.specs.Agendas.{IsDrawn};
ghost use Rattle.reference.specs.Queues.{rank_or_end};

use crate::line::Line;
use event_keys::Key;
use std::alloc::Global;
use std::marker::Model;
use std::sync::Arc;
use task_seed::{Setup, Turn, Turns};
use terms::NoMemory;

/// A turn that comes: its key, and what was drawn for it.
#[derive(Clone, Copy)]
pub struct Due {
    pub key: Key,
    pub turn: Turn,
}

/// The turns of a setup in the order of their keys. Which component has a turn, and when, hangs on no state, so an agenda needs none. It is seen as
/// its setup and the key of the next turn, if one is left.
#[derive(Drop)]
pub struct Agenda<T: Turns> {
    setup: Arc<Setup<T>>,
    line: Line,
}

impl<T: Turns> Model for Agenda<T> {
    ghost use Rattle.std.specs.Arc.{arc_value};
    ghost use Rattle.std.specs.Coded.{codes};
    ghost use Rattle.plans.specs.KnownLaws.{are_known_prop};
    ghost use Rattle.terms.specs.Datum.{datum_code};
    ghost use Rattle.terms.specs.contracts.scalar.Shape as shape;
    ghost use Rattle.terms.specs.contracts.term.Term as term;
    ghost use Rattle.terms.specs.contracts.effect.Effect as effect;
    ghost use Rattle.task_seed.specs.declared.setup.Setup.{Setup};
    ghost use Rattle.reference.specs.Agendas.{Coming, IsLined};
    ghost use Rattle.reference.specs.Queues.{least_key};

    ghost Value = { Coming (Setup T) };

    ghost coded = { Prim.hlevel (
      codes,
      are_known_prop,
      shape.the_row.coded,
      term.the_row.coded,
      effect.the_row.coded,
      datum_code,
    ) };

    ghost view = { λ a. record {
      setup = arc_value a.setup;
      next = least_key a.line.places.items a.line.numbers.items;
    } };

    ghost invariant = { λ a. IsLined T.turn_of (arc_value a.setup) a.line.places.items
        a.line.numbers.items a.line.clocks.clocks.items };
}

impl<T: Turns> Agenda<T> {
    /// No turn was drawn.
    pub fn new(alloc: Global, setup: Arc<Setup<T>>) -> Result<Agenda<T>, NoMemory>
        ensures setup { IfOk result (λ a. a.setup ≡ arc_value setup) }
        ensures first { IfOk result (λ a. reference_below
            (machine (system T.turn_of (arc_value setup))) (rank_or_end a.next) ≡ []) }
        ensures low { IfOk result (λ a. rank_or_end a.next ≤ end_rank) }
    {
        let line = Line::start(alloc, &setup)?;
        Ok(Agenda { setup, line })
    }

    /// The setup.
    pub fn setup(&self) -> &Setup<T>
        ensures { result.now ≡ self.now.setup }
    {
        &self.setup
    }

    /// The key of the next turn, if one is left.
    #[inline(always)]
    pub fn next(&self) -> Option<Key>
        ensures { result ≡ self.now.next }
    {
        self.line.least()
    }

    /// Draws the next turn, if one is left.
    ///
    /// # Errors
    ///
    /// `NoMemory`; then nothing was drawn, and the next call draws the same turn.
    #[inline(always)]
    pub fn draw(&mut self) -> Result<Option<Due>, NoMemory>
        ensures ok { IfOk result
            (λ due. IsDrawn (system T.turn_of self.old.setup) self.old.next due self.new.next) }
        ensures err { OnErr result (self.new ≡ self.old) }
        ensures setup { self.new.setup ≡ self.old.setup }
    {
        self.line.draw(&self.setup)
    }
}
