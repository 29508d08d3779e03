//! The components' next turns, of which the least comes first.
ghost use Rattle.std.specs.Prelude.{◌≡◌, ◌≤◌, [], IfOk, OnErr};
ghost use Rattle.task_seed.specs.Setups.{system};
ghost use Rattle.task_seed.specs.Machines.{end_rank, machine};
ghost use Rattle.virtual_time.specs.Reference.{reference_below};
ghost use Rattle.reference.specs.Agendas.{IsDrawn, IsLined};
ghost use Rattle.reference.specs.Queues.{HasItsNumber, least_key, least_rank};

use crate::agenda::Due;
use crate::clocks::Clocks;
use crate::frontier::{first_numbers, first_places, least_key, move_on};
use event_keys::Key;
use std::alloc::Global;
use task_seed::laws::machine_is_lawful;
use task_seed::{Setup, Turns};
use terms::{Action, NoMemory, State};
use virtual_time::reference::{reference_is_complete, reference_is_one};

// The places of the keys of the next turns in a tournament, the numbers of these turns, and the clocks.
#[derive(Drop)]
pub(crate) struct Line {
    pub(crate) places: Vec<u64>,
    pub(crate) numbers: Vec<u64>,
    pub(crate) clocks: Clocks,
}

impl Line {
    /// No turn was drawn.
    pub(crate) fn start<T: Turns>(alloc: Global, setup: &Setup<T>) -> Result<Line, NoMemory>
        ensures lined { IfOk result (λ line. IsLined T.turn_of setup.now line.places.items
            line.numbers.items line.clocks.clocks.items) }
        ensures none { IfOk result (λ line. reference_below (machine (system T.turn_of setup.now))
            (least_rank line.places.items line.numbers.items) ≡ []) }
        ensures low { IfOk result
            (λ line. least_rank line.places.items line.numbers.items ≤ end_rank) }
    {
        machine_is_lawful(setup);
        reference_is_one::<State, Action>();
        reference_is_complete::<State, Action>();
        let places = first_places(alloc, setup)?;
        let numbers = first_numbers(alloc, setup.plan().components())?;
        let clocks = Clocks::new(alloc, setup)?;
        Ok(Line {
            places,
            numbers,
            clocks,
        })
    }

    /// The key of the next turn, if one is left.
    #[inline(always)]
    pub(crate) fn least(&self) -> Option<Key>
        requires { HasItsNumber self.now.places.items self.now.numbers.items }
        ensures { result ≡ least_key self.now.places.items self.now.numbers.items }
    {
        least_key(&self.places, &self.numbers)
    }

    /// Draws the next turn, if one is left. A refusal leaves what comes as it was.
    #[inline(always)]
    pub(crate) fn draw<T: Turns>(&mut self, setup: &Setup<T>) -> Result<Option<Due>, NoMemory>
        requires { IsLined T.turn_of setup.now self.old.places.items self.old.numbers.items
            self.old.clocks.clocks.items }
        ensures lined { IsLined T.turn_of setup.now self.new.places.items self.new.numbers.items
            self.new.clocks.clocks.items }
        ensures ok { IfOk result (λ due. IsDrawn (system T.turn_of setup.now)
            (least_key self.old.places.items self.old.numbers.items) due
            (least_key self.new.places.items self.new.numbers.items)) }
        ensures err_places { OnErr result (self.new.places.items ≡ self.old.places.items) }
        ensures err_numbers { OnErr result (self.new.numbers.items ≡ self.old.numbers.items) }
    {
        machine_is_lawful(setup);
        reference_is_one::<State, Action>();
        reference_is_complete::<State, Action>();
        let Some(key) = least_key(&self.places, &self.numbers) else {
            return Ok(None);
        };
        let turn = self.clocks.turn(setup, key, &self.numbers);
        let next = self.clocks.reach_after(setup, key, &self.numbers)?;
        move_on(&mut self.places, &mut self.numbers, key, next);
        Ok(Some(Due { key, turn }))
    }
}
