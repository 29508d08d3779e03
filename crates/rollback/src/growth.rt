//! The growths of a step, over the parts of a component.
ghost use Rattle.std.specs.Prelude.{◌≡◌, ◌∷◌, ◌<◌, [], None, Some, map, length, OnOk, OnErr, IfOk, IfSome, IsTrue};
ghost use Rattle.raw_events.specs.Around.{head, tail, is_nonempty};
ghost use Rattle.event_keys.specs.declared.message.Sign.TheVariants.{Plus, Minus};
ghost use Rattle.event_keys.specs.declared.outcome.Outcome.TheVariants.{Idle};
ghost use Rattle.event_keys.specs.Entries.{action_of};
ghost use Rattle.event_keys.specs.Ranks.{rank};
ghost use Rattle.antimessage.specs.Order.{IsInOrder};
ghost use Rattle.virtual_time.specs.Entries.{by_own};
ghost use Rattle.virtual_time.specs.Records.{sent};
ghost use Rattle.io_automata.specs.Outcomes.{outcome_of};
ghost use Rattle.plans.specs.Plans.{composition};
ghost use Rattle.plans.specs.Resting.{IsResting};
ghost use Rattle.io_automata.specs.Steps.{applied};
ghost use Rattle.task_seed.specs.Setups.{system, plan_of};
ghost use Rattle.task_seed.specs.Taken.{turned_of};
ghost use Rattle.rollback.specs.Grown.{IsTurnSent, after_action, after_input, after_turn, done_turn, marked_as, with_done};
ghost use Rattle.rollback.specs.ComponentView.{machine_of};
ghost use Rattle.rollback.specs.ComponentInvariant.{signed_by, signed_of, turn_receivers, IsGivenBack};
ghost use Rattle.rollback.specs.Post.{signed_to, post_all, IsPosted};

use crate::keys::fits;
use crate::spares::{SpareSigned, Spares, input_entry, turn_entry};
use antimessage::Bag;
use antimessage::laws::order_law;
use event_keys::{Key, Message, Outcome, Sign, Signed, Turned};
use message_balance::Done;
use plans::laws::receivers_law;
use plans::{Plan, Resting};
use raw_events::EventList;
use smallvec::SmallVec;
use std::alloc::Global;
use task_seed::{Setup, Turn, Turns};
use terms::{Action, NoMemory};
use undo_records::Store;

/// Marks the state, and changes it by an action.
pub(crate) fn advance(
    alloc: Global,
    plan: &Plan,
    i: u16,
    action: &Action,
    store: &mut Store,
) -> Result<(), NoMemory>
    ensures ok { OnOk result (store.new ≡ after_action plan.now i action.now store.old) }
    ensures err { OnErr result (store.new ≡ store.old) }
{
    store.mark(alloc)?;
    if let Err(refused) = plan.apply(alloc, i, action, store) {
        store.undo();
        return Err(refused);
    }
    Ok(())
}

/// Marks the state, and changes it by what came of a turn.
pub(crate) fn advance_turn<T: Turns>(
    alloc: Global,
    setup: &Setup<T>,
    i: u16,
    outcome: &Outcome,
    store: &mut Store,
) -> Result<(), NoMemory>
    ensures ok { OnOk result (store.new
        ≡ marked_as (by_own (machine_of T.turn_of setup.now) i
        (action_of outcome.now) store.old.current) store.old) }
    ensures err { OnErr result (store.new ≡ store.old) }
{
    match outcome {
        Outcome::Idle => store.mark(alloc),
        Outcome::Did(action) => advance(alloc, setup.plan(), i, action, store),
    }
}

/// What comes of a turn in the current state: its action, if it takes one, in `found`, where nothing stands. A task that rests
/// isn't asked, and one that has nothing enabled rests from now on.
#[inline(always)]
pub(crate) fn outcome_into(
    alloc: Global,
    plan: &Plan,
    i: u16,
    turn: Turn,
    store: &Store,
    resting: &mut Resting,
    found: &mut Option<Action>,
) -> Result<(), NoMemory>
    requires empty { found.old ≡ None }
    requires resting { IsResting (composition plan.now) i store.now.current resting.old }
    ensures found { OnOk result (found.new
        ≡ outcome_of (composition plan.now) i turn.task turn.choice store.now.current) }
    ensures resting { IsResting (composition plan.now) i store.now.current resting.new }
{
    if resting.is_resting(turn.task) {
        return Ok(());
    }
    plan.outcome_into(alloc, i, turn.task, turn.choice, store, found)?;
    if found.is_some() {
        return Ok(());
    }
    resting.note(turn.task);
    Ok(())
}

// A turn that took an action.
#[inline(always)]
pub(crate) fn did(key: Key, action: Action) -> Turned
    ensures { result ≡ turned_of (Some action) key }
{
    Turned {
        key,
        outcome: Outcome::Did(action),
    }
}

// One message of the action for each receiver, the first nearest to the cursor, in spare cells where there are any. It stays a call, so that idle
// turns, which are most, don't pay for it.
#[inline(never)]
fn signed_cells(
    alloc: Global,
    spare: &mut SpareSigned,
    key: Key,
    action: &Action,
    sign: Sign,
    receivers: &[u16],
) -> Result<EventList<Signed>, NoMemory>
    ensures { IfOk result (λ cells. cells
        ≡ record { before = map (signed_to sign key action.now) receivers.now; after = [] }) }
{
    let mut cells = EventList::new();
    for receiver in receivers.iter().rev().copied() {
        let message = Message {
            key,
            action: action.clone()?,
            to: receiver,
        };
        cells.push_last(spare.cell_of(alloc, Signed { message, sign })?);
    }
    Ok(cells)
}

/// The components that receive what came of a turn of component `i`.
pub(crate) fn receivers_of_turn<T: Turns>(
    alloc: Global,
    setup: &Setup<T>,
    i: u16,
    outcome: &Outcome,
) -> Result<SmallVec<u16, 8>, NoMemory>
    ensures { IfOk result (λ receivers. receivers.items
        ≡ turn_receivers (system T.turn_of setup.now) i outcome.now) }
{
    match outcome {
        Outcome::Idle => Ok(SmallVec::new(alloc)),
        Outcome::Did(action) => Ok(setup.plan().receivers(alloc, action, i)?),
    }
}

/// What came of a turn as one message for each receiver, the first nearest to the cursor.
#[inline(always)]
pub(crate) fn messages_to(
    alloc: Global,
    spare: &mut SpareSigned,
    turned: &Turned,
    sign: Sign,
    receivers: &[u16],
) -> Result<EventList<Signed>, NoMemory>
    ensures { IfOk result (λ cells. cells
        ≡
        record {
          before = signed_by sign turned.now.key turned.now.outcome receivers.now;
          after = [];
        }) }
{
    match &turned.outcome {
        Outcome::Idle => Ok(EventList::new()),
        Outcome::Did(action) => Ok(signed_cells(
            alloc, spare, turned.key, action, sign, receivers,
        )?),
    }
}

/// Posts all that stands before the cursor, the nearest first.
pub(crate) fn post_all(out: &mut Bag, mut cells: EventList<Signed>)
    ensures posted { out.new ≡ post_all cells.before out.old }
    ensures order { IsInOrder out.old }
{
    order_law(out);
    while let Some(cell) = cells.take_last() {
        out.post(cell);
    }
}

// Puts an input that was not taken back before all that is pending.
fn give_back(pending: &mut EventList<Signed>, refused: Done)
    ensures { IsGivenBack refused pending.old pending.new }
{
    if let Done::Input(cell) = refused {
        pending.push_last(cell);
        pending.pass_back();
    }
}

/// Takes the first pending input. A spare cell serves again.
pub(crate) fn take_input(
    alloc: Global,
    plan: &Plan,
    i: u16,
    store: &mut Store,
    done: &mut EventList<Done>,
    pending: &mut EventList<Signed>,
    spares: &mut Spares,
) -> Result<(), NoMemory>
    requires { IsTrue (is_nonempty pending.old.after) }
    ensures state { OnOk result (IfSome (head pending.old.after)
        (λ first. store.new ≡ after_input plan.now i first store.old)) }
    ensures done { OnOk result (IfSome (head pending.old.after)
        (λ first. done.new ≡ with_done (Done.Input first) done.old)) }
    ensures pending { OnOk result (pending.new
        ≡ record pending.old { after = tail pending.old.after }) }
    ensures store_kept { OnErr result (store.new ≡ store.old) }
    ensures done_kept { OnErr result (done.new ≡ done.old) }
    ensures pending_kept { OnErr result (pending.new ≡ pending.old) }
{
    let Some(first) = pending.peek_next() else {
        unreachable!();
    };
    advance(alloc, plan, i, &first.message.action, store)?;
    pending.pass_next();
    let Some(cell) = pending.take_last() else {
        unreachable!();
    };
    match input_entry(alloc, spares, cell) {
        Ok(cell) => {
            done.push_last(cell);
            Ok(())
        }
        Err(refused) => {
            give_back(pending, refused.value);
            store.undo();
            Err(NoMemory)
        }
    }
}

/// Does a turn by which nothing is done. Spare cells serve again.
#[inline(always)]
pub(crate) fn take_idle<T: Turns>(
    alloc: Global,
    setup: &Setup<T>,
    i: u16,
    key: Key,
    store: &mut Store,
    done: &mut EventList<Done>,
    spares: &mut Spares,
) -> Result<(), NoMemory>
    ensures state { OnOk result (store.new ≡ after_turn (machine_of T.turn_of setup.now) i
        (record { key = key; outcome = Idle }) store.old) }
    ensures done { OnOk result (done.new
        ≡ with_done (done_turn (system T.turn_of setup.now) i
        (record { key = key; outcome = Idle })) done.old) }
    ensures store_kept { OnErr result (store.new ≡ store.old) }
    ensures done_kept { OnErr result (done.new ≡ done.old) }
{
    let _ = setup;
    let _ = i;
    let turned = Turned {
        key,
        outcome: Outcome::Idle,
    };
    let cell = turn_entry(alloc, spares, turned, EventList::new())?;
    store.mark(alloc)?;
    done.push_last(cell);
    Ok(())
}

/// Does a turn with what came of it, and posts a message for each receiver of that. Spare cells serve again.
pub(crate) fn take_turn<T: Turns>(
    alloc: Global,
    setup: &Setup<T>,
    i: u16,
    turned: Turned,
    receivers: &[u16],
    store: &mut Store,
    done: &mut EventList<Done>,
    spares: &mut Spares,
    out: &mut Bag,
) -> Result<(), NoMemory>
    requires there { i < length (composition (plan_of setup.now)) }
    requires receivers { receivers.now
        ≡ turn_receivers (system T.turn_of setup.now) i turned.outcome }
    ensures state { OnOk result (store.new
        ≡ after_turn (machine_of T.turn_of setup.now) i turned store.old) }
    ensures done { OnOk result (done.new
        ≡ with_done (done_turn (system T.turn_of setup.now) i turned) done.old) }
    ensures sent { OnOk result (IsTurnSent
        (machine_of T.turn_of setup.now) i turned out.old out.new) }
    ensures store_kept { OnErr result (store.new ≡ store.old) }
    ensures done_kept { OnErr result (done.new ≡ done.old) }
    ensures out_kept { OnErr result (out.new ≡ out.old) }
{
    receivers_law();
    fits(turned.key);
    let messages = messages_to(alloc, &mut spares.signed, &turned, Sign::Plus, receivers)?;
    let antimessages = messages_to(alloc, &mut spares.signed, &turned, Sign::Minus, receivers)?;
    advance_turn(alloc, setup, i, &turned.outcome, store)?;
    match turn_entry(alloc, spares, turned, antimessages) {
        Ok(cell) => done.push_last(cell),
        Err(_) => {
            store.undo();
            return Err(NoMemory);
        }
    }
    post_all(out, messages);
    Ok(())
}
