//! Cells that serve again.
ghost use Rattle.std.specs.Prelude.{◌≡◌, [], MatchResult, IfOk, IfSome, true};
ghost use Rattle.message_balance.specs.declared.done.Done.TheVariants.{Turn, Input};
ghost use Rattle.rollback.specs.Reuse.{is_turn, turned_of, with_sent, with_turned};

use event_keys::{Signed, Turned};
use message_balance::Done;
use raw_events::{EventCell, EventList, Refused};
use std::alloc::Global;
use std::mem::{replace, swap};
use terms::NoMemory;

// Cells of a component that serve again. What they hold is of no use any more.
#[derive(Drop)]
pub(crate) struct Spares {
    pub(crate) turns: EventList<Turned>,
    pub(crate) signed: SpareSigned,
    // Whole entries, each with its cell of a turn, and each with its cell of an input.
    pub(crate) turn_entries: EventList<Done>,
    pub(crate) input_entries: EventList<Done>,
}

impl Spares {
    pub(crate) fn new() -> Spares {
        Spares {
            turns: EventList::new(),
            signed: SpareSigned::new(),
            turn_entries: EventList::new(),
            input_entries: EventList::new(),
        }
    }
}

// How many spare cells of messages a component keeps at most. A message takes four; a component that receives more than it sends has cells left.
const MOST_SIGNED: u32 = 64;

// Spare cells of messages, the last one nearest before the cursor.
#[derive(Drop)]
pub(crate) struct SpareSigned {
    cells: EventList<Signed>,
    count: u32,
}

impl SpareSigned {
    fn new() -> SpareSigned {
        SpareSigned {
            cells: EventList::new(),
            count: 0,
        }
    }

    // A message in the last spare cell, whose old value is dropped, or in a new one where none is spare.
    #[inline(always)]
    pub(crate) fn cell_of(
        &mut self,
        alloc: Global,
        value: Signed,
    ) -> Result<EventCell<Signed>, NoMemory>
        ensures { IfOk result (λ cell. cell ≡ value) }
    {
        match self.cells.take_last() {
            Some(mut cell) => {
                self.count = self.count.saturating_sub(1);
                *cell.value_mut() = value;
                Ok(cell)
            }
            None => cell_of(alloc, value),
        }
    }

    // Keeps a cell, unless there are enough.
    fn keep(&mut self, cell: EventCell<Signed>) {
        if self.count < MOST_SIGNED {
            self.cells.push_last(cell);
            self.count += 1;
        }
    }

    // Keeps cells while there aren't enough, and drops the others.
    pub(crate) fn keep_all(&mut self, cells: &mut EventList<Signed>)
        ensures { cells.new ≡ record { before = []; after = [] } }
    {
        for _ in self.count..MOST_SIGNED {
            let Some(cell) = cells.take_first() else {
                break;
            };
            self.keep(cell);
        }
        *cells = EventList::new();
    }
}

pub(crate) fn cell_of<T: Drop>(alloc: Global, value: T) -> Result<EventCell<T>, NoMemory>
    ensures { IfOk result (λ cell. cell ≡ value) }
{
    match EventCell::new(alloc, value) {
        Ok(cell) => Ok(cell),
        Err(_) => Err(NoMemory),
    }
}

// The same, in a spare cell if there is one, whose old value is dropped.
#[inline(always)]
pub(crate) fn spare_or_new<T: Drop>(
    alloc: Global,
    spare: &mut EventList<T>,
    value: T,
) -> Result<EventCell<T>, NoMemory>
    ensures { IfOk result (λ cell. cell ≡ value) }
{
    match spare.take_first() {
        Some(mut cell) => {
            *cell.value_mut() = value;
            Ok(cell)
        }
        None => cell_of(alloc, value),
    }
}

pub(crate) fn is_turn(done: &Done) -> bool
    ensures { result ≡ is_turn done.now }
{
    match done {
        Done::Turn(_, _) => true,
        Done::Input(_) => false,
    }
}

// Another turn is in the cell of an entry.
fn put_turn(done: &mut Done, turned: Turned)
    ensures { done.new ≡ with_turned turned done.old }
{
    match done {
        Done::Turn(cell, _) => *cell.value_mut() = turned,
        Done::Input(_) => {}
    }
}

// An entry's turn is in another cell, which gets its own.
pub(crate) fn swap_turn(done: &mut Done, cell: &mut EventCell<Turned>)
    ensures entry { done.new ≡ with_turned cell.old done.old }
    ensures cell { cell.new ≡ turned_of cell.old done.old }
{
    match done {
        Done::Turn(own, _) => swap(own, cell),
        Done::Input(_) => {}
    }
}

// An entry has other antimessages.
#[inline(always)]
fn put_sent(done: &mut Done, sent: EventList<Signed>)
    ensures { done.new ≡ with_sent sent done.old }
{
    match done {
        Done::Turn(_, own) => *own = sent,
        Done::Input(_) => {}
    }
}

// Takes the cells of an entry's antimessages.
pub(crate) fn take_sent(done: &mut Done, signed: &mut EventList<Signed>) {
    match done {
        Done::Turn(_, sent) => {
            if sent.peek_first().is_some() {
                signed.append_all(sent);
            }
        }
        Done::Input(_) => {}
    }
}

// The cell of an input is spare.
fn keep_input(spares: &mut Spares, done: Done) {
    match done {
        Done::Turn(_, _) => {}
        Done::Input(cell) => spares.signed.keep(cell),
    }
}

// A spare entry with its cell of a turn.
fn take_turn_entry(entries: &mut EventList<Done>) -> Option<EventCell<Done>>
    ensures { IfSome result (λ done. is_turn done ≡ true) }
{
    let cell = entries.take_last()?;
    if !is_turn(cell.value()) {
        return None;
    }
    Some(cell)
}

// A turn with its antimessages as a done entry.
#[inline(always)]
#[tactic(auto, using(crate::proofs::Spared::turn_again))]
pub(crate) fn turn_entry(
    alloc: Global,
    spares: &mut Spares,
    turned: Turned,
    sent: EventList<Signed>,
) -> Result<EventCell<Done>, NoMemory>
    ensures { IfOk result (λ cell. cell ≡ Turn turned sent) }
{
    let Some(mut cell) = take_turn_entry(&mut spares.turn_entries) else {
        let turned = spare_or_new(alloc, &mut spares.turns, turned)?;
        return cell_of(alloc, Done::Turn(turned, sent));
    };
    put_turn(cell.value_mut(), turned);
    put_sent(cell.value_mut(), sent);
    Ok(cell)
}

// An input as a done entry.
pub(crate) fn input_entry(
    alloc: Global,
    spares: &mut Spares,
    input: EventCell<Signed>,
) -> Result<EventCell<Done>, Refused<Done>>
    ensures { MatchResult result (λ cell. cell ≡ Input input)
        (λ refused. refused.value ≡ Input input) }
{
    match spares.input_entries.take_last() {
        Some(mut cell) => {
            let stale = replace(cell.value_mut(), Done::Input(input));
            keep_input(spares, stale);
            Ok(cell)
        }
        None => EventCell::new(alloc, Done::Input(input)),
    }
}
