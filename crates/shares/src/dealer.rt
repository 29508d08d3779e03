//! Turns are dealt to the groups of their components.
ghost use Rattle.std.specs.Prelude.{◌≡◌, ◌<◌, ◌≤◌, [], All, IfOk, OnOk, Some, length, slice_index, slice_set};
ghost use Rattle.plans.specs.Plans.{composition};
ghost use Rattle.task_seed.specs.Machines.{end_rank, machine};
ghost use Rattle.task_seed.specs.Setups.{plan_of, system};
ghost use Rattle.virtual_time.specs.Reference.{reference_below};
ghost use Rattle.reference.specs.Queues.{rank_or_end};
ghost use Rattle.senders.specs.Senders.{lists_of, senders_at};
ghost use Rattle.shares.specs.Dealing.{IsDeal};
ghost use Rattle.shares.specs.Hands.{IsHand, IsTable};
ghost use Rattle.shares.specs.Waiting.{IsWaited};

use crate::deal::Deal;
use crate::hand::{Hand, empty_hand, gather, put_own};
use crate::share::Own;
use crate::waiting::await_turns;
use event_keys::Key;
use reference::{Agenda, Due};
use senders::Senders;
use std::alloc::Global;
use std::marker::Model;
use task_seed::{Setup, Turns};
use terms::NoMemory;

/// Draws the turns of a setup in order, and deals each to the group of its component. It is seen as the setup, who may send to whom, the groups, and
/// the key of the turn that comes next, if one is left.
#[derive(Drop)]
pub struct Dealer<T: Turns> {
    agenda: Agenda<T>,
    table: Table,
    // Of each component the key of its last turn that was drawn, if it had one.
    last: Vec<Option<Key>>,
}

// Who may send to whom, of each component its group, and how many groups there are.
#[derive(Drop)]
struct Table {
    senders: Senders,
    groups: Vec<u16>,
    count: u16,
}

impl<T: Turns> Model for Dealer<T> {
    ghost use Rattle.std.specs.Coded.{codes};
    ghost use Rattle.plans.specs.KnownLaws.{are_known_prop};
    ghost use Rattle.terms.specs.Datum.{datum_code};
    ghost use Rattle.terms.specs.contracts.scalar.Shape as shape;
    ghost use Rattle.terms.specs.contracts.term.Term as term;
    ghost use Rattle.terms.specs.contracts.effect.Effect as effect;
    ghost use Rattle.task_seed.specs.declared.setup.Setup.{Setup};
    ghost use Rattle.task_seed.specs.Setups.{system};
    ghost use Rattle.senders.specs.Senders.{lists_of};
    ghost use Rattle.shares.specs.Dealing.{Dealing};
    ghost use Rattle.shares.specs.Hands.{IsTable};

    ghost Value = { Dealing (Setup T) };

    ghost coded = { Prim.hlevel (
      codes,
      are_known_prop,
      shape.the_row.coded,
      term.the_row.coded,
      effect.the_row.coded,
      datum_code,
    ) };

    ghost view = { λ d. record {
      setup = d.agenda.setup;
      senders = lists_of d.table.senders;
      groups = d.table.groups.items;
      count = d.table.count;
      next = d.agenda.next;
    } };

    ghost invariant = { λ d. IsTable (system T.turn_of d.agenda.setup) d.table.groups.items
        d.table.count d.agenda.next d.last.items };
}

impl<T: Turns> Dealer<T> {
    /// Deals the turns of an agenda of which none was drawn, to so many groups. The list has of each component its group.
    pub fn new(
        alloc: Global,
        agenda: Agenda<T>,
        senders: Senders,
        groups: Vec<u16>,
        count: u16,
    ) -> Result<Dealer<T>, NoMemory>
        requires first { reference_below (machine (system T.turn_of agenda.setup))
            (rank_or_end agenda.next) ≡ [] }
        requires low { rank_or_end agenda.next ≤ end_rank }
        requires every { length groups.items ≡ length (composition (plan_of agenda.setup)) }
        requires below { All (λ group. group < count) groups.items }
        ensures { IfOk result (λ d. d ≡ record {
          setup = agenda.setup;
          senders = lists_of senders;
          groups = groups.items;
          count = count;
          next = agenda.next;
        }) }
    {
        let last = vec![in alloc; None; groups.len()]?;
        Ok(Dealer {
            agenda,
            table: Table {
                senders,
                groups,
                count,
            },
            last,
        })
    }

    /// The setup.
    pub fn setup(&self) -> &Setup<T>
        ensures { result.now ≡ self.now.setup }
    {
        self.agenda.setup()
    }

    /// The key of the turn that comes next, if one is left.
    pub fn next(&self) -> Option<Key>
        ensures { result ≡ self.now.next }
    {
        self.agenda.next()
    }

    /// How many groups there are.
    pub fn count(&self) -> u16
        ensures { result ≡ self.now.count }
    {
        self.table.count
    }

    /// Draws turns, `most` of them or all that are left, and deals them.
    ///
    /// # Errors
    ///
    /// `NoMemory`; then what was drawn is lost.
    pub fn deal(&mut self, alloc: Global, most: usize) -> Result<Deal, NoMemory>
        ensures keeps { self.new ≡ record self.old { next = self.new.next } }
        ensures deal { IfOk result (IsDeal (system T.turn_of self.old.setup) self.old.senders
            self.old.groups self.old.count) }
        ensures from { IfOk result (λ deal. deal.drawn.from ≡ self.old.next) }
        ensures next { IfOk result (λ deal. deal.drawn.next ≡ self.new.next) }
    {
        let mut hand = self.empty(alloc)?;
        for _ in 0..most {
            if !self.deal_next(alloc, &mut hand)? {
                break;
            }
        }
        self.hand_out(alloc, hand)
    }

    // Nothing is dealt.
    fn empty(&self, alloc: Global) -> Result<Hand, NoMemory>
        ensures hand { IfOk result (IsHand (system T.turn_of self.now.setup) self.now.senders
            self.now.groups self.now.count self.now.next) }
        ensures from { IfOk result (λ hand. hand.from ≡ self.now.next) }
    {
        let hand = empty_hand(alloc, self.agenda.next(), self.table.count)?;
        Ok(hand)
    }

    // Deals the next turn, if one is left.
    fn deal_next(&mut self, alloc: Global, hand: &mut Hand) -> Result<bool, NoMemory>
        requires { IsHand (system T.turn_of self.old.setup) self.old.senders self.old.groups
            self.old.count self.old.next hand.old }
        ensures keeps { self.new ≡ record self.old { next = self.new.next } }
        ensures hand { OnOk result (IsHand (system T.turn_of self.old.setup) self.old.senders
            self.old.groups self.old.count self.new.next hand.new) }
        ensures from { OnOk result (hand.new.from ≡ hand.old.from) }
    {
        deal_one(alloc, &mut self.agenda, &self.table, &mut self.last, hand)
    }

    // What was dealt.
    fn hand_out(&self, alloc: Global, hand: Hand) -> Result<Deal, NoMemory>
        requires { IsHand (system T.turn_of self.now.setup) self.now.senders self.now.groups
            self.now.count self.now.next hand }
        ensures deal { IfOk result (IsDeal (system T.turn_of self.now.setup) self.now.senders
            self.now.groups self.now.count) }
        ensures from { IfOk result (λ deal. deal.drawn.from ≡ hand.from) }
        ensures next { IfOk result (λ deal. deal.drawn.next ≡ self.now.next) }
    {
        let deal = gather(alloc, hand, self.agenda.next())?;
        Ok(deal)
    }
}

// Draws the next turn, if one is left, and deals it. Where memory is refused, it may be lost.
fn deal_one<T: Turns>(
    alloc: Global,
    agenda: &mut Agenda<T>,
    table: &Table,
    last: &mut Vec<Option<Key>>,
    hand: &mut Hand,
) -> Result<bool, NoMemory>
    requires table { IsTable (system T.turn_of agenda.old.setup) table.now.groups.items
        table.now.count agenda.old.next last.old.items }
    requires hand { IsHand (system T.turn_of agenda.old.setup) (lists_of table.now.senders)
        table.now.groups.items table.now.count agenda.old.next hand.old }
    ensures setup { agenda.new.setup ≡ agenda.old.setup }
    ensures table { IsTable (system T.turn_of agenda.old.setup) table.now.groups.items
        table.now.count agenda.new.next last.new.items }
    ensures hand { OnOk result (IsHand (system T.turn_of agenda.old.setup)
        (lists_of table.now.senders) table.now.groups.items table.now.count agenda.new.next
        hand.new) }
    ensures from { OnOk result (hand.new.from ≡ hand.old.from) }
{
    let Some(due) = agenda.draw()? else {
        return Ok(false);
    };
    let group = group_of(table, due.key.component);
    let own = own_of(alloc, table, last.as_slice(), group, due);
    note_last(last, due.key);
    put_own(hand, group, own?)?;
    Ok(true)
}

fn group_of(table: &Table, component: u16) -> u16
    requires { component < length table.now.groups.items }
    ensures { result ≡ slice_index table.now.groups.items component }
{
    table.groups[usize::from(component)]
}

// A turn of a group, and what it awaits.
fn own_of(
    alloc: Global,
    table: &Table,
    last: &[Option<Key>],
    group: u16,
    due: Due,
) -> Result<Own, NoMemory>
    ensures due { IfOk result (λ own. own.due ≡ due) }
    ensures waits { IfOk result (λ own. All (IsWaited table.now.groups.items last.now group
        own.waits.items) (senders_at (lists_of table.now.senders) due.key.component)) }
{
    let among = table.senders.to(due.key.component);
    let waits = await_turns(alloc, among, table.groups.as_slice(), last, group)?;
    Ok(Own { due, waits })
}

// This turn is the last one of its component.
fn note_last(last: &mut Vec<Option<Key>>, key: Key)
    requires { key.component < length last.old.items }
    ensures { last.new.items ≡ slice_set last.old.items key.component (Some key) }
{
    last[usize::from(key.component)] = Some(key);
}
