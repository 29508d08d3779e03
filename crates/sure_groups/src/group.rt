//! A group of components whose turns are all sure.
ghost use Rattle.std.specs.Prelude.{◌≡◌, ◌<◌, ◌≤◌, [], ℕ, IfErr, IfOk, IfSome, List, OnErr, OnOk, Contains, drop, length, slice_index};
ghost use Rattle.std.specs.Arc.{arc_value};
ghost use Rattle.plans.specs.Plans.{composition};
ghost use Rattle.senders.specs.Senders.{AreSenders, lists_of};
ghost use Rattle.task_seed.specs.Machines.{machine};
ghost use Rattle.task_seed.specs.Setups.{plan_of, system};
ghost use Rattle.virtual_time.specs.Reference.{reference_below};
ghost use Rattle.reference.specs.Queues.{rank_or_end};
ghost use Rattle.lone_group.specs.declared.batch.Slot.{Slot as Seen};
ghost use Rattle.shares.specs.Shares.{IsShare};
ghost use Rattle.sure_groups.specs.Packets.{IsPacket};
ghost use Rattle.sure_groups.specs.Sure.{HasStepped, IsSure, IsTaken, next_in, next_of};

use crate::bags::{Bag, no_bags};
use crate::giving::{all_at, check_next, put_inputs};
use crate::hearing::{Hearing, has_heard};
use crate::member::Member;
use crate::members::{come, start_members};
use crate::packet::{Packet, Unheard};
use crate::passing::act;
use event_keys::Key;
use lone_group::Slot;
use senders::Senders;
use shares::{Own, Share};
use std::alloc::Global;
use std::mem::replace;
use std::sync::Arc;
use task_seed::{Setup, Turns};
use terms::NoMemory;

/// What came of an attempt to take a turn.
#[derive(Clone, Copy, PartialEq, Eq)]
pub enum Step {
    /// A turn was taken.
    Taken,
    /// The next turn awaits turns of other groups.
    Waiting,
    /// All that was dealt to the group is taken.
    Undealt,
}

/// A group of components. Its turns are taken in order, each once all is known that comes to its component before, so that no turn is taken back.
///
/// Where memory is refused in a call, the group is spent: nothing is told of it any more, and it can only be dropped.
#[derive(Drop)]
pub struct SureGroup<T: Turns> {
    pub(crate) setup: Arc<Setup<T>>,
    pub(crate) hearing: Hearing,
    // Of all components; those of other groups stay as they were at the start.
    pub(crate) members: Vec<Member>,
    // What was dealt to it, how many of these turns it took, and the key up to which they are all.
    pub(crate) own: Vec<Own>,
    pub(crate) at: usize,
    pub(crate) until: Option<Key>,
    // For each group what wasn't posted to it.
    pub(crate) bags: Vec<Bag>,
    // What was taken and not handed over.
    pub(crate) slots: Vec<Slot>,
}

/// Which group it is: its number, and of each component its group, where there are so many.
#[derive(Drop)]
pub struct Place {
    pub me: u16,
    pub groups: Vec<u16>,
    pub count: u16,
}

impl<T: Turns> SureGroup<T> {
    /// A group before the first turn, which has this key, if there is one.
    pub fn new(
        alloc: Global,
        setup: Arc<Setup<T>>,
        senders: &Senders,
        place: Place,
        first: Option<Key>,
    ) -> Result<SureGroup<T>, NoMemory>
        requires first { reference_below (machine (system T.turn_of (arc_value setup)))
            (rank_or_end first) ≡ [] }
        requires senders { AreSenders (composition (plan_of (arc_value setup)))
            (lists_of senders.now) }
        requires every { length place.groups.items
            ≡ length (composition (plan_of (arc_value setup))) }
        requires below { (i : ℕ) → i < length place.groups.items
            → slice_index place.groups.items i < place.count }
        requires own { place.me < place.count }
        ensures sure { IfOk result (IsSure T.turn_of) }
        ensures setup { IfOk result (λ g. g.setup ≡ setup) }
        ensures next { IfOk result (λ g. next_in g ≡ first) }
    {
        let members = start_members(alloc, setup.plan())?;
        let bags = no_bags(alloc, place.count, first)?;
        let heard = all_at(alloc, place.count, first)?;
        let Place {
            me,
            groups,
            count: _,
        } = place;
        Ok(SureGroup {
            setup,
            hearing: Hearing { me, groups, heard },
            members,
            own: Vec::new(alloc),
            at: 0,
            until: first,
            bags,
            slots: Vec::new(alloc),
        })
    }

    /// The key of the next turn that was dealt to it, or the one up to which all was dealt to it; none, where that is the end.
    pub fn next(&self) -> Option<Key>
        ensures { result ≡ next_in self.now }
    {
        next_at(&self.own, self.at, self.until)
    }

    /// How many turns were taken and not handed over.
    pub fn waiting(&self) -> usize
        ensures { result ≡ length self.now.slots.items }
    {
        self.slots.len()
    }

    /// Takes the next turn, if one was dealt, and all is known that comes before.
    pub fn step(&mut self, alloc: Global) -> Result<Step, NoMemory>
        requires { IsSure T.turn_of self.old }
        ensures sure { OnOk result (IsSure T.turn_of self.new) }
        ensures step { IfOk result (λ step. HasStepped self.old step self.new) }
        ensures setup { self.new.setup ≡ self.old.setup }
    {
        let Some(own) = self.own.get(self.at) else {
            return Ok(Step::Undealt);
        };
        if !has_heard(&self.hearing.heard, &own.waits) {
            return Ok(Step::Waiting);
        }
        let due = own.due;
        let next = next_at(&self.own, self.at + 1, self.until);
        let setup = &self.setup;
        let found = come(alloc, setup, &self.hearing, due, &mut self.members)?;
        let slot = Slot {
            key: due.key,
            found,
        };
        act(
            alloc,
            setup,
            &self.hearing,
            &slot,
            &mut self.members,
            &mut self.bags,
        )?;
        self.slots.push(slot)?;
        self.at += 1;
        self.hearing.heard[usize::from(self.hearing.me)] = next;
        Ok(Step::Taken)
    }

    /// Turns are dealt to it, where it has taken all that were dealt before, and they begin where those end. Else they come back.
    pub fn add_share(&mut self, share: Share) -> Result<(), Share>
        requires sure { IsSure T.turn_of self.old }
        requires known { (senders : List (List ℕ))
            × AreSenders (composition (plan_of (arc_value self.old.setup))) senders
            × IsShare (system T.turn_of (arc_value self.old.setup)) senders
            self.old.hearing.groups.items self.old.hearing.me share }
        ensures sure { IsSure T.turn_of self.new }
        ensures setup { self.new.setup ≡ self.old.setup }
        ensures next { IfOk result (λ _. share.from ≡ next_in self.old) }
        ensures own { IfOk result (λ _. drop self.new.at self.new.own.items ≡ share.own.items) }
        ensures err { OnErr result (self.new ≡ self.old) }
        ensures back { IfErr result (λ it. it ≡ share) }
    {
        if self.at < self.own.len() || share.from != self.until {
            return Err(share);
        }
        let Share {
            own,
            from: _,
            until,
        } = share;
        self.own = own;
        self.at = 0;
        self.until = until;
        let next = next_at(&self.own, 0, self.until);
        self.hearing.heard[usize::from(self.hearing.me)] = next;
        Ok(())
    }

    /// Hands over the turns that were taken since this was called last, and takes this list in their place, which is emptied.
    pub fn hand_over(&mut self, spare: Vec<Slot>) -> Vec<Slot>
        requires { IsSure T.turn_of self.old }
        ensures sure { IsSure T.turn_of self.new }
        ensures setup { self.new.setup ≡ self.old.setup }
        ensures slots { result.items ≡ self.old.slots.items }
        ensures taken { (slot : Seen) → Contains result.items slot
            → IsTaken (system T.turn_of (arc_value self.old.setup)) slot }
    {
        let mut empty = spare;
        empty.clear();
        replace(&mut self.slots, empty)
    }

    /// What was gathered for a group, of turns since this was called for it last; none where there is no such group, and for itself.
    pub fn post(&mut self, alloc: Global, to: u16) -> Option<Packet>
        requires { IsSure T.turn_of self.old }
        ensures sure { IsSure T.turn_of self.new }
        ensures setup { self.new.setup ≡ self.old.setup }
        ensures packet { IfSome result (IsPacket (system T.turn_of (arc_value self.old.setup))
            self.old.hearing.groups.items) }
        ensures from { IfSome result (λ packet. packet.from ≡ self.old.hearing.me) }
        ensures to { IfSome result (λ packet. packet.to ≡ to) }
        ensures until { IfSome result (λ packet. packet.until ≡ next_in self.old) }
    {
        let until = self.next();
        let from = self.hearing.me;
        if to == from {
            return None;
        }
        let bag = self.bags.get_mut(usize::from(to))?;
        let inputs = Vec::new(alloc);
        let full = replace(
            bag,
            Bag {
                since: until,
                inputs,
            },
        );
        Some(Packet {
            from,
            to,
            since: full.since,
            until,
            inputs: full.inputs,
        })
    }

    /// Hears of the turns of another group, where the packet is for this one, and begins where what was heard of that one ends.
    pub fn hear(&mut self, packet: Packet) -> Result<(), Unheard>
        requires sure { IsSure T.turn_of self.old }
        requires packet { IsPacket (system T.turn_of (arc_value self.old.setup))
            self.old.hearing.groups.items packet }
        ensures sure { OnOk result (IsSure T.turn_of self.new) }
        ensures setup { self.new.setup ≡ self.old.setup }
        ensures next { OnOk result (next_in self.new ≡ next_in self.old) }
    {
        check_next(&self.hearing, &packet)?;
        let Packet {
            from,
            until,
            inputs,
            ..
        } = packet;
        put_inputs(&mut self.members, inputs)?;
        self.hearing.heard[usize::from(from)] = until;
        Ok(())
    }
}

// The key of the turn at a place among those that were dealt, or the one up to which they are all where there is none.
#[inline(always)]
fn next_at(own: &[Own], at: usize, until: Option<Key>) -> Option<Key>
    ensures { result ≡ next_of (drop at own.now) until }
{
    match own.get(at) {
        Some(it) => Some(it.due.key),
        None => until,
    }
}
