//! In which states the components are when a turn comes.
ghost use Rattle.std.specs.Prelude.{◌≡◌, [], None, IfOk, OnOk, OnErr, Some};
ghost use Rattle.std.specs.Arc.{arc_value};
ghost use Rattle.task_seed.specs.Setups.{system};
ghost use Rattle.task_seed.specs.Machines.{machine};
ghost use Rattle.virtual_time.specs.Reference.{reference_below};
ghost use Rattle.reference.specs.Agendas.{HasCome, IsDue};
ghost use Rattle.reference.specs.Queues.{rank_or_end};

use crate::agenda::Due;
use crate::frontier::start_states;
use crate::memos::no_memos;
use crate::taking::take_turn;
use event_keys::Key;
use plans::Memo;
use std::alloc::Global;
use std::marker::Model;
use std::sync::Arc;
use task_seed::laws::machine_is_lawful;
use task_seed::{Setup, Turns};
use terms::{Action, NoMemory, State};
use undo_records::Store;
use virtual_time::reference::reference_is_complete;

/// The states of all components of a setup, as they are before the turn that comes next. It is seen as its setup and that turn's key, if one is
/// left.
#[derive(Drop)]
pub struct Standing<T: Turns> {
    setup: Arc<Setup<T>>,
    states: Vec<Store>,
    // What is known of each component's tasks in its state.
    memos: Vec<Memo>,
    next: Option<Key>,
}

impl<T: Turns> Model for Standing<T> {
    ghost use Rattle.std.specs.Arc.{arc_value};
    ghost use Rattle.std.specs.Coded.{codes};
    ghost use Rattle.plans.specs.KnownLaws.{are_known_prop};
    ghost use Rattle.plans.specs.Plans.{composition};
    ghost use Rattle.terms.specs.Datum.{datum_code};
    ghost use Rattle.terms.specs.contracts.scalar.Shape as shape;
    ghost use Rattle.terms.specs.contracts.term.Term as term;
    ghost use Rattle.terms.specs.contracts.effect.Effect as effect;
    ghost use Rattle.task_seed.specs.declared.setup.Setup.{Setup};
    ghost use Rattle.task_seed.specs.Setups.{plan_of, system};
    ghost use Rattle.reference.specs.Agendas.{Coming, AreBefore};
    ghost use Rattle.reference.specs.Memos.{AreMemos};

    ghost Value = { Coming (Setup T) };

    ghost coded = { Prim.hlevel (
      codes,
      are_known_prop,
      shape.the_row.coded,
      term.the_row.coded,
      effect.the_row.coded,
      datum_code,
    ) };

    ghost view = { λ s. record { setup = arc_value s.setup; next = s.next } };

    ghost invariant = { λ s. AreBefore (system T.turn_of (arc_value s.setup)) s.next
        s.states.items × AreMemos (composition (plan_of (arc_value s.setup))) s.states.items
        s.memos.items };
}

impl<T: Turns> Standing<T> {
    /// The states at the start, where the turn that comes next is the first one.
    pub fn new(
        alloc: Global,
        setup: Arc<Setup<T>>,
        next: Option<Key>,
    ) -> Result<Standing<T>, NoMemory>
        requires first { reference_below (machine (system T.turn_of (arc_value setup)))
            (rank_or_end next) ≡ [] }
        ensures { IfOk result (λ s. s ≡ record { setup = arc_value setup; next = next }) }
    {
        let states = start_states(alloc, setup.plan())?;
        let memos = no_memos(alloc, setup.plan())?;
        Ok(Standing {
            setup,
            states,
            memos,
            next,
        })
    }

    /// The setup.
    pub fn setup(&self) -> &Setup<T>
        ensures { result.now ≡ self.now.setup }
    {
        &self.setup
    }

    /// The key of the turn that comes next, if one is left.
    #[inline(always)]
    pub fn next(&self) -> Option<Key>
        ensures { result ≡ self.now.next }
    {
        self.next
    }

    /// Takes the turn that comes next, behind which the one with the key `next` comes: its component, and each receiver of its action, take it. The
    /// action stands in `found` then, if there is one, in place of what was there.
    ///
    /// # Errors
    ///
    /// `NoMemory`; then nothing was taken, and nothing stands in `found`.
    #[inline(always)]
    pub fn take(
        &mut self,
        alloc: Global,
        due: Due,
        next: Option<Key>,
        found: &mut Option<Action>,
    ) -> Result<(), NoMemory>
        requires at { self.old.next ≡ Some due.key }
        requires due { IsDue (system T.turn_of self.old.setup) due next }
        ensures ok { OnOk result (self.new ≡ record self.old { next = next }) }
        ensures turn { OnOk result
            (HasCome (machine (system T.turn_of self.old.setup)) due.key found.new next) }
        ensures err { OnErr result (self.new ≡ self.old) }
        ensures none { OnErr result (found.new ≡ None) }
    {
        machine_is_lawful(&self.setup);
        reference_is_complete::<State, Action>();
        take_turn(
            alloc,
            &self.setup,
            due.key,
            due.turn,
            &mut self.states,
            &mut self.memos,
            found,
        )?;
        self.next = next;
        Ok(())
    }
}
