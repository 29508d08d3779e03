//! Steps that copy what they send.
ghost use Rattle.std.specs.Prelude.{◌≡◌, ◌↔◌, [], None, IfOk, OnOk, OnErr, IsErrOf, IsTrue};
ghost use Rattle.event_keys.specs.declared.message.Sign.TheVariants.{Plus};
ghost use Rattle.rollback.specs.ComponentView.{is_turning};
ghost use Rattle.rollback.specs.Stepped.{HasNextKey, IsNextSent, IsNextTurn, next_entry, stepped};

use crate::component::Component;
use crate::growth::{did, messages_to, post_all, receivers_of_turn};
use crate::keys::fits;
use crate::refused::ProcessRefused;
use antimessage::Bag;
use event_keys::{Key, Sign, Turned};
use plans::laws::receivers_law;
use std::alloc::Global;
use task_seed::Turns;
use terms::NoMemory;

/// Copies of messages that are on their way: of each one for what is kept of its sender, and one for what is kept of its
/// receiver.
#[derive(Drop)]
pub struct Copies {
    /// One of each, for what is kept of its sender.
    pub of_sender: Bag,
    /// One of each, for what is kept of its receiver.
    pub of_receiver: Bag,
}

impl Copies {
    /// No copies.
    pub fn new() -> Copies
        ensures { result ≡ record { of_sender = []; of_receiver = [] } }
    {
        Copies {
            of_sender: Bag::new(),
            of_receiver: Bag::new(),
        }
    }
}

impl<T: Turns> Component<T> {
    /// Does the next entry as `process`, and posts two copies of each message. A refusal leaves the component, the bag and the
    /// copies.
    pub fn process_copied(
        &mut self,
        alloc: Global,
        out: &mut Bag,
        copies: &mut Copies,
    ) -> Result<Key, ProcessRefused>
        ensures key { IfOk result (λ key. HasNextKey T.turn_of self.old key) }
        ensures record { OnOk result (self.new ≡ stepped T.turn_of self.old) }
        ensures sent { OnOk result (IsNextSent T.turn_of self.old out.old out.new) }
        ensures of_sender { OnOk result
            (IsNextSent T.turn_of self.old copies.old.of_sender copies.new.of_sender) }
        ensures of_receiver { OnOk result
            (IsNextSent T.turn_of self.old copies.old.of_receiver copies.new.of_receiver) }
        ensures nothing { IsErrOf result ProcessRefused.NothingPending
            ↔ (next_entry T.turn_of self.old ≡ None) }
        ensures kept { OnErr result (self.new ≡ self.old) }
        ensures out_kept { OnErr result (out.new ≡ out.old) }
        ensures copies_kept { OnErr result (copies.new ≡ copies.old) }
    {
        if self.is_input_next() {
            return Ok(self.process_input(alloc)?);
        }
        if self.coming.is_none() {
            return Err(ProcessRefused::NothingPending);
        }
        Ok(self.process_turn_copied(alloc, out, copies)?)
    }

    // Takes the own turn.
    fn process_turn_copied(
        &mut self,
        alloc: Global,
        out: &mut Bag,
        copies: &mut Copies,
    ) -> Result<Key, NoMemory>
        requires { IsTrue (is_turning (next_entry T.turn_of self.old)) }
        ensures key { IfOk result (HasNextKey T.turn_of self.old) }
        ensures record { OnOk result (self.new ≡ stepped T.turn_of self.old) }
        ensures sent { OnOk result (IsNextSent T.turn_of self.old out.old out.new) }
        ensures of_sender { OnOk result
            (IsNextSent T.turn_of self.old copies.old.of_sender copies.new.of_sender) }
        ensures of_receiver { OnOk result
            (IsNextSent T.turn_of self.old copies.old.of_receiver copies.new.of_receiver) }
        ensures kept { OnErr result (self.new ≡ self.old) }
        ensures out_kept { OnErr result (out.new ≡ out.old) }
        ensures copies_kept { OnErr result (copies.new ≡ copies.old) }
    {
        let mut found = None;
        let key = self.next_into(alloc, &mut found)?;
        match found {
            None => self.do_idle(alloc, key),
            Some(action) => self.do_copied(alloc, did(key, action), out, copies),
        }
    }

    // Does the own turn that comes next, which may send. It stays a call, so that idle turns, which are most, don't pay for it.
    #[inline(never)]
    fn do_copied(
        &mut self,
        alloc: Global,
        turned: Turned,
        out: &mut Bag,
        copies: &mut Copies,
    ) -> Result<Key, NoMemory>
        requires next { IsNextTurn T.turn_of self.old turned }
        ensures key { IfOk result (HasNextKey T.turn_of self.old) }
        ensures record { OnOk result (self.new ≡ stepped T.turn_of self.old) }
        ensures sent { OnOk result (IsNextSent T.turn_of self.old out.old out.new) }
        ensures of_sender { OnOk result
            (IsNextSent T.turn_of self.old copies.old.of_sender copies.new.of_sender) }
        ensures of_receiver { OnOk result
            (IsNextSent T.turn_of self.old copies.old.of_receiver copies.new.of_receiver) }
        ensures kept { OnErr result (self.new ≡ self.old) }
        ensures out_kept { OnErr result (out.new ≡ out.old) }
        ensures copies_kept { OnErr result (copies.new ≡ copies.old) }
    {
        receivers_law();
        fits(turned.key);
        let receivers = receivers_of_turn(alloc, &self.setup, self.number, &turned.outcome)?;
        let of_sender = messages_to(
            alloc,
            &mut self.spares.signed,
            &turned,
            Sign::Plus,
            receivers.as_slice(),
        )?;
        let of_receiver = messages_to(
            alloc,
            &mut self.spares.signed,
            &turned,
            Sign::Plus,
            receivers.as_slice(),
        )?;
        let key = self.do_turned(alloc, turned, receivers.as_slice(), out)?;
        post_all(&mut copies.of_sender, of_sender);
        post_all(&mut copies.of_receiver, of_receiver);
        Ok(key)
    }
}
