//! Copies of messages that are on their way.
ghost use Rattle.std.specs.Prelude.{◌≡◌, ◌∷◌, [], filter, IfOk, OnOk};
ghost use Rattle.antimessage.specs.Bags.{insert_all};
ghost use Rattle.group_exchange.specs.Moving.{AreCopies, is_message};

use antimessage::Bag;
use event_keys::{Message, Sign, Signed};
use raw_events::EventCell;
use rollback::Copies;
use rollback::laws::flight_law;
use std::alloc::{AllocError, Global};
use terms::NoMemory;

// One more of a message; an antimessage has no copy.
fn add_copy(alloc: Global, signed: &Signed, copies: &mut Bag) -> Result<(), NoMemory>
    ensures { OnOk result (copies.new
        ≡ insert_all (filter is_message (signed.now ∷ [])) copies.old) }
{
    let Sign::Plus = signed.sign else {
        return Ok(());
    };
    let message = Message {
        key: signed.message.key,
        action: signed.message.action.clone()?,
        to: signed.message.to,
    };
    let copy = Signed {
        message,
        sign: Sign::Plus,
    };
    match EventCell::new(alloc, copy) {
        Ok(cell) => {
            copies.post(cell);
            Ok(())
        }
        Err(refused) => Err(AllocError::from(refused).into()),
    }
}

/// A copy of each message of these.
pub(crate) fn copy_of(alloc: Global, sent: &Bag) -> Result<Bag, NoMemory>
    ensures { IfOk result (λ copies. copies ≡ insert_all (filter is_message sent.now) []) }
{
    let mut copies = Bag::new();
    let mut items = sent.iter();
    while let Some(signed) = items.next() {
        add_copy(alloc, signed, &mut copies)?;
    }
    Ok(copies)
}

/// Two copies of each message of these.
pub(crate) fn copies_of(alloc: Global, sent: &Bag) -> Result<Copies, NoMemory>
    ensures { IfOk result (AreCopies sent.now) }
{
    flight_law();
    let of_sender = copy_of(alloc, sent)?;
    let of_receiver = copy_of(alloc, sent)?;
    Ok(Copies {
        of_sender,
        of_receiver,
    })
}
