//! What comes to a component: messages and antimessages.
ghost use Rattle.std.specs.Prelude.{◌≡◌, ◌≤◌, [], true, false, is_some, length};
ghost use Rattle.event_keys.specs.declared.message.Sign.TheVariants.{Plus, Minus};
ghost use Rattle.raw_events.specs.Around.{first_where};
ghost use Rattle.raw_events.specs.Onto.{onto};
ghost use Rattle.antimessage.specs.Bags.{is_one, insert as insert_one, remove as remove_one};
ghost use Rattle.antimessage.specs.Order.{Fits, IsInOrder};
ghost use Rattle.virtual_time.specs.Bags.{has};
ghost use Rattle.virtual_time.specs.Entries.{latest};
ghost use Rattle.rollback.specs.Falling.{Falls};
ghost use Rattle.rollback.specs.Flight.{goes, item_of};
ghost use Rattle.rollback.specs.ComponentView.{is_last_later, is_last_another};
ghost use Rattle.rollback.specs.ComponentInvariant.{IsTimed, entries_of, is_done_later, is_entry_input, is_first_another, is_first_input, is_first_passed, is_any_input, is_first_greater};
ghost use Rattle.rollback.specs.Post.{opposite, opposed};
ghost use Rattle.rollback.specs.Stepped.{IsUnsent, back_before, back_to, done_since, is_input_done, later_than, machine_at, taken_back, taken_back_by_antimessage, taken_back_by_message, with_antimessage, with_coming, with_message, with_owed, with_pending, without_owed, without_pending};

use crate::component::Component;
use crate::keys::{fits, is_below, key_of};
use antimessage::Bag;
use event_keys::{Sign, Signed};
use message_balance::Done;
use raw_events::{EventCell, EventList};
use task_seed::Turns;

// The numbers of a message's key fit their types.
fn is_timed(signed: &Signed)
    ensures fits { Fits signed.now }
    ensures timed { IsTimed signed.now }
{
    fits(signed.message.key);
}

fn other(sign: Sign) -> Sign
    ensures { result ≡ opposite sign }
{
    match sign {
        Sign::Plus => Sign::Minus,
        Sign::Minus => Sign::Plus,
    }
}

// Takes the equal of the other sign, if there is one.
fn take_other(queue: &mut EventList<Signed>, cell: &mut EventCell<Signed>) -> bool
    requires { IsInOrder queue.old.after }
    ensures fits { Fits cell.old }
    ensures rest { queue.new ≡ record queue.old {
      after = remove_one (opposed cell.old) queue.old.after;
    } }
    ensures answer { result ≡ is_some (first_where (is_one (opposed cell.old)) queue.old.after) }
    ensures kept { result ≡ false → queue.new ≡ queue.old }
    ensures cell { cell.new ≡ cell.old }
{
    is_timed(cell.value());
    let sign = cell.value().sign;
    cell.value_mut().sign = other(sign);
    let taken = take_if_there(queue, cell.value());
    cell.value_mut().sign = sign;
    taken
}

// Takes an equal one, if there is one. Where the first is greater nothing is looked at.
#[tactic(auto, using(crate::proofs::Nearest::none_there, crate::proofs::Nearest::none_removed))]
fn take_if_there(queue: &mut EventList<Signed>, signed: &Signed) -> bool
    requires { IsInOrder queue.old.after }
    ensures rest { queue.new ≡ record queue.old { after = remove_one signed.now queue.old.after } }
    ensures answer { result ≡ is_some (first_where (is_one signed.now) queue.old.after) }
    ensures kept { result ≡ false → queue.new ≡ queue.old }
{
    if is_first_greater(queue, signed) {
        return false;
    }
    queue.take_equal(signed).is_some()
}

fn is_first_greater(queue: &EventList<Signed>, signed: &Signed) -> bool
    ensures { result ≡ is_first_greater signed.now queue.now.after }
{
    match queue.peek_next() {
        None => false,
        Some(first) => first > signed,
    }
}

fn put(queue: &mut EventList<Signed>, cell: EventCell<Signed>)
    ensures fits { Fits cell }
    ensures timed { IsTimed cell }
    ensures queue { queue.new ≡ record queue.old { after = insert_one cell queue.old.after } }
{
    is_timed(cell.value());
    queue.insert_sorted(cell);
}

impl<T: Turns> Component<T> {
    /// A message or an antimessage comes, with the component as its receiver. The message is removed with the antimessage that
    /// is owed for it, if there is one; else the done entries later than it are taken back, and it is pending. The antimessage
    /// removes its message where that is pending; else where it is done, the done entries from its message on are taken back
    /// first; else it is owed. For each message that an entry taken back had sent, an antimessage is posted. The answer is the
    /// number of the entries that were taken back.
    pub fn deliver(&mut self, cell: EventCell<Signed>, out: &mut Bag) -> u64
        requires { cell.message.to ≡ self.old.number }
        ensures record { self.new ≡ with_coming T.turn_of self.old cell }
        ensures sent { IsUnsent T.turn_of self.old
            (taken_back T.turn_of self.old cell) out.old out.new }
        ensures count { result ≡ length (taken_back T.turn_of self.old cell) }
    {
        match cell.value().sign {
            Sign::Plus => self.deliver_message(cell, out),
            Sign::Minus => self.deliver_antimessage(cell, out),
        }
    }

    fn deliver_message(&mut self, mut cell: EventCell<Signed>, out: &mut Bag) -> u64
        requires { goes Plus self.old.number cell ≡ true }
        ensures record { self.new ≡ with_message T.turn_of self.old cell }
        ensures sent { IsUnsent T.turn_of self.old
            (taken_back_by_message T.turn_of self.old cell) out.old out.new }
        ensures count { result ≡ length (taken_back_by_message T.turn_of self.old cell) }
    {
        if self.take_owed(&mut cell) {
            return 0;
        }
        let before = self.depth();
        self.unwind_later(cell.value(), out);
        let count = before - self.depth();
        self.wait(cell);
        count as u64
    }

    fn deliver_antimessage(&mut self, mut cell: EventCell<Signed>, out: &mut Bag) -> u64
        requires { goes Minus self.old.number cell ≡ true }
        ensures record { self.new ≡ with_antimessage T.turn_of self.old cell }
        ensures sent { IsUnsent T.turn_of self.old
            (taken_back_by_antimessage T.turn_of self.old cell) out.old out.new }
        ensures count { result ≡ length (taken_back_by_antimessage T.turn_of self.old cell) }
    {
        if self.take_pending(&mut cell) {
            return 0;
        }
        if !self.has_done(cell.value()) {
            self.owe(cell);
            return 0;
        }
        let before = self.depth();
        self.unwind_until(cell.value(), out);
        let count = before - self.depth();
        self.take_pending(&mut cell);
        count as u64
    }

    /// How many entries are done since the base, and can be taken back.
    pub fn depth(&self) -> usize
        ensures { result ≡ length self.now.history.done }
    {
        self.store.marks()
    }

    // Takes the antimessage that is owed for a message, if there is one.
    fn take_owed(&mut self, cell: &mut EventCell<Signed>) -> bool
        requires { goes Plus self.old.number cell.old ≡ true }
        ensures record { self.new ≡ without_owed T.turn_of self.old cell.old }
        ensures answer { result ≡ has (machine_at T.turn_of self.old)
            (item_of cell.old) self.old.history.owed }
        ensures kept { result ≡ false → self.new ≡ self.old }
        ensures cell { cell.new ≡ cell.old }
    {
        take_other(&mut self.owed, cell)
    }

    // Takes the pending message of an antimessage, if there is one.
    fn take_pending(&mut self, cell: &mut EventCell<Signed>) -> bool
        requires { goes Minus self.old.number cell.old ≡ true }
        ensures record { self.new ≡ without_pending T.turn_of self.old cell.old }
        ensures answer { result ≡ has (machine_at T.turn_of self.old)
            (item_of cell.old) self.old.history.pending }
        ensures kept { result ≡ false → self.new ≡ self.old }
        ensures cell { cell.new ≡ cell.old }
    {
        take_other(&mut self.pending, cell)
    }

    // A message is pending from now on.
    fn wait(&mut self, cell: EventCell<Signed>)
        requires here { goes Plus self.old.number cell ≡ true }
        requires late { latest 0 self.old.history.done ≤ (item_of cell).key }
        ensures { self.new ≡ with_pending T.turn_of self.old cell }
    {
        put(&mut self.pending, cell);
    }

    // An antimessage is owed from now on.
    fn owe(&mut self, cell: EventCell<Signed>)
        requires { goes Minus self.old.number cell ≡ true }
        ensures { self.new ≡ with_owed T.turn_of self.old cell }
    {
        put(&mut self.owed, cell);
    }

    // Whether the last done entry is later than a message.
    fn is_last_later(&self, message: &Signed) -> bool
        requires { goes Plus self.now.number message.now ≡ true }
        ensures { result ≡ is_last_later (machine_at T.turn_of self.now)
            (item_of message.now) self.now.history.done }
    {
        is_timed(message);
        match self.done.peek_last() {
            None => false,
            Some(done) => is_later(done, message),
        }
    }

    // Takes the done entries back that are later than a message.
    fn unwind_later(&mut self, message: &Signed, out: &mut Bag)
        requires { goes Plus self.old.number message.now ≡ true }
        ensures record { self.new ≡ back_before T.turn_of self.old message.now }
        ensures sent { IsUnsent T.turn_of self.old
            (later_than T.turn_of self.old message.now) out.old out.new }
    {
        while self.is_last_later(message) {
            self.roll_back(out);
        }
    }

    // Whether there is a last done entry, and it isn't the message of an antimessage.
    fn is_last_another(&self, antimessage: &Signed) -> bool
        requires { goes Minus self.now.number antimessage.now ≡ true }
        ensures { result ≡ is_last_another (machine_at T.turn_of self.now)
            (item_of antimessage.now) self.now.history.done }
    {
        is_timed(antimessage);
        is_next_back_another(&self.done, antimessage)
    }

    // Whether the message of an antimessage is done.
    fn has_done(&mut self, antimessage: &Signed) -> bool
        requires { goes Minus self.old.number antimessage.now ≡ true }
        ensures answer { result ≡ is_input_done T.turn_of self.old antimessage.now }
        ensures kept { self.new ≡ self.old }
    {
        is_timed(antimessage);
        has_input(&mut self.done, antimessage)
    }

    // Takes the done entries back from the last message of an antimessage on, that one too.
    fn unwind_until(&mut self, antimessage: &Signed, out: &mut Bag)
        requires { goes Minus self.old.number antimessage.now ≡ true }
        ensures record { self.new ≡ back_to T.turn_of self.old antimessage.now }
        ensures sent { IsUnsent T.turn_of self.old
            (done_since T.turn_of self.old antimessage.now) out.old out.new }
    {
        while self.is_last_another(antimessage) {
            self.roll_back(out);
        }
        self.roll_back(out);
    }
}

// Whether a done entry is later than a message: an own turn of a greater key, or a greater input.
fn is_later(done: &Done, message: &Signed) -> bool
    ensures { result ≡ is_done_later message.now done.now }
{
    match done {
        Done::Turn(turned, _) => is_below(message.message.key, turned.value().key),
        Done::Input(input) => input.value() > message,
    }
}

// Whether a done entry is the message of an antimessage.
fn is_input_of(done: &Done, antimessage: &Signed) -> bool
    ensures { result ≡ is_entry_input antimessage.now done.now }
{
    match done {
        Done::Turn(_, _) => false,
        Done::Input(input) => input.value().message == antimessage.message,
    }
}

// Whether there is an entry before the cursor, and the last one isn't the message of an antimessage.
fn is_next_back_another(done: &EventList<Done>, antimessage: &Signed) -> bool
    ensures { result ≡ is_first_another antimessage.now done.now.before }
{
    match done.peek_last() {
        None => false,
        Some(last) => !is_input_of(last, antimessage),
    }
}

// Whether there is an entry before the cursor, and the last one is the message of an antimessage.
fn is_next_back_input(done: &EventList<Done>, antimessage: &Signed) -> bool
    ensures { result ≡ is_first_input antimessage.now done.now.before }
{
    match done.peek_last() {
        None => false,
        Some(last) => is_input_of(last, antimessage),
    }
}

// Whether there is an entry before the cursor, and the last one is neither below the message of an antimessage nor that message.
fn is_next_back_passed(done: &EventList<Done>, antimessage: &Signed) -> bool
    ensures { result ≡ is_first_passed antimessage.now done.now.before }
{
    match done.peek_last() {
        None => false,
        Some(last) => {
            !is_below(key_of(last), antimessage.message.key) && !is_input_of(last, antimessage)
        }
    }
}

// Whether the message of an antimessage is among the entries, from the last one back. Nothing below the message is looked at
// but the first such entry.
#[tactic(auto, using(crate::proofs::Searching::found))]
fn has_input(done: &mut EventList<Done>, antimessage: &Signed) -> bool
    requires end { done.old.after ≡ [] }
    requires falling { Falls (entries_of done.old.before) }
    ensures answer { result ≡ is_any_input antimessage.now done.old.before }
    ensures kept { done.new ≡ done.old }
{
    while is_next_back_passed(done, antimessage) {
        done.pass_back();
    }
    let found = is_next_back_input(done, antimessage);
    pass_to_end(done);
    found
}

// Moves the cursor behind all entries.
fn pass_to_end(done: &mut EventList<Done>)
    ensures { done.new ≡ record { before = onto done.old.after done.old.before; after = [] } }
{
    done.pass_all();
}
