//! Copies of what a component has sent.
ghost use Rattle.std.specs.Prelude.{◌≡◌, OnOk};
ghost use Rattle.event_keys.specs.declared.message.Sign.TheVariants.{Plus};
ghost use Rattle.message_balance.specs.Balance.{all_of};
ghost use Rattle.virtual_time.specs.Records.{sent_all, sent_by, unsent};
ghost use Rattle.rollback.specs.ComponentInvariant.{entries_of, entry_of};
ghost use Rattle.rollback.specs.ComponentView.{machine_of};
ghost use Rattle.rollback.specs.Grown.{IsTurnSent};
ghost use Rattle.rollback.specs.Post.{IsPosted};
ghost use Rattle.rollback.specs.Stepped.{machine_at};

use crate::component::Component;
use crate::growth::{messages_to, post_all, receivers_of_turn};
use crate::keys::fits;
use crate::spares::Spares;
use antimessage::Bag;
use event_keys::{Sign, Turned};
use message_balance::Done;
use plans::laws::receivers_law;
use raw_events::EventList;
use std::alloc::Global;
use task_seed::{Setup, Turns};
use terms::NoMemory;

// Posts a message for each receiver of what a turn of component `i` did.
fn copy_turn<T: Turns>(
    alloc: Global,
    setup: &Setup<T>,
    i: u16,
    turned: &Turned,
    sent: &mut Bag,
) -> Result<(), NoMemory>
    ensures { OnOk result
        (IsTurnSent (machine_of T.turn_of setup.now) i turned.now sent.old sent.new) }
{
    receivers_law();
    fits(turned.key);
    let mut spares = Spares::new();
    let receivers = receivers_of_turn(alloc, setup, i, &turned.outcome)?;
    let messages = messages_to(
        alloc,
        &mut spares.signed,
        turned,
        Sign::Plus,
        receivers.as_slice(),
    )?;
    post_all(sent, messages);
    Ok(())
}

// The same of an entry; an input sent nothing.
fn copy_entry<T: Turns>(
    alloc: Global,
    setup: &Setup<T>,
    i: u16,
    done: &Done,
    sent: &mut Bag,
) -> Result<(), NoMemory>
    ensures { OnOk result (IsPosted Plus
        (sent_by (machine_of T.turn_of setup.now) i (entry_of done.now)) sent.old sent.new) }
{
    match done {
        Done::Turn(turned, _) => copy_turn(alloc, setup, i, turned.value(), sent),
        Done::Input(_) => Ok(()),
    }
}

// The same of all these entries.
fn copy_entries<T: Turns>(
    alloc: Global,
    setup: &Setup<T>,
    i: u16,
    entries: &EventList<Done>,
    sent: &mut Bag,
) -> Result<(), NoMemory>
    ensures { OnOk result (IsPosted Plus
        (unsent (machine_of T.turn_of setup.now) i (entries_of (all_of entries.now)))
        sent.old sent.new) }
{
    let mut items = entries.iter();
    while let Some(done) = items.next() {
        copy_entry(alloc, setup, i, done, sent)?;
    }
    Ok(())
}

impl<T: Turns> Component<T> {
    /// Posts a copy of each message that the done turns sent, one for each receiver. Where memory is refused, some may be posted already.
    pub fn copy_sent(&self, alloc: Global, sent: &mut Bag) -> Result<(), NoMemory>
        ensures { OnOk result (IsPosted Plus
            (sent_all (machine_at T.turn_of self.now) self.now.number self.now.history.done)
            sent.old sent.new) }
    {
        copy_entries(alloc, &self.setup, self.number, &self.done, sent)
    }
}
