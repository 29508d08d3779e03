//! A state with marks.
ghost use Rattle.std.specs.Prelude.{◌≡◌, ◌<◌, ◌+◌, ◌∷◌, [], IfOk, IfErr, IfSome, OnOk, OnErr, List, false, true, length, map, slice_set, take};
ghost use Rattle.undo_records.specs.Changes.{covers, restored, unwound, IsNoted, changes_in};
ghost use Rattle.undo_records.specs.Marks.{marks_of, IsCovered};
ghost use Rattle.terms.specs.Datum.{Datum, Just, scalar_of};
ghost use Rattle.terms.specs.Shapes.{set_item};

use crate::change::{Change, is_cell_covered};
use crate::first::{Traced, is_same_first};
use std::alloc::Global;
use std::collections::VecDeque;
use std::marker::Model;
use std::mem;
use terms::{Cells, NoMemory, Scalar, State, Value};

/// A nonempty list of whole states, the last one current. Kept are the current state and, since each mark, what the
/// writes replaced, so that no state is copied; a loop that writes few places keeps few records, however often it writes them.
#[derive(Drop)]
pub struct Store {
    current: Vec<Value>,
    is_marked: bool,
    // The cell that was noted last, and as a whole; the greatest number where there is none.
    noted: usize,
    // What was written since the newest mark; nothing where there is no mark.
    newest: Vec<Change>,
    // The same for the older marks, the newest first.
    older: VecDeque<Vec<Change>>,
    // Room for the changes of the next marks: what earlier ones needed.
    spare: Vec<Vec<Change>>,
}

impl Model for Store {
    ghost use Rattle.std.specs.Prelude.{map};
    ghost use Rattle.undo_records.specs.States.{States, states_code};

    ghost Value = { States };

    ghost coded = { states_code };

    ghost use Rattle.undo_records.specs.Changes.{states_below, changes_in};
    ghost use Rattle.undo_records.specs.Marks.{marks_of, IsPlain, IsLast};

    ghost view = { λ s. record {
      current = s.current.items;
      below = states_below
          (marks_of s.is_marked s.newest.items (map changes_in s.older.items)) s.current.items;
    } };

    ghost invariant = { λ s. IsPlain s.is_marked s.newest.items (map changes_in s.older.items)
        × IsLast s.noted s.newest.items };
}

// No cell: as many cells there never are.
const NONE: usize = usize::MAX;

// How many lists are kept for the next marks.
const SPARE_LISTS: usize = 64;

impl Store {
    ghost use Rattle.undo_records.specs.States.{marked, undone, has_marked, without_first};
    ghost use Rattle.undo_records.specs.First.{first_state, same_state};

    /// A store of one state.
    pub fn new(alloc: Global, state: State) -> Result<Store, NoMemory>
        ensures { IfOk result (λ store. store ≡ record { current = state; below = [] }) }
    {
        Ok(Store {
            current: state.into_values(),
            is_marked: false,
            noted: NONE,
            newest: Vec::new(alloc),
            older: VecDeque::new(alloc),
            spare: Vec::new(alloc),
        })
    }

    /// Repeats the current state: what is written from now on can be undone. The room of a mark that was forgotten or undone
    /// serves again.
    #[inline]
    pub fn mark(&mut self, alloc: Global) -> Result<(), NoMemory>
        ensures ok { OnOk result (self.new ≡ marked self.old) }
        ensures err { OnErr result (self.new ≡ self.old) }
    {
        if self.is_marked {
            return self.mark_again(alloc);
        }
        self.is_marked = true;
        Ok(())
    }

    #[inline(never)]
    fn mark_again(&mut self, alloc: Global) -> Result<(), NoMemory>
        requires { has_marked self.old.below ≡ true }
        ensures ok { OnOk result (self.new ≡ marked self.old) }
        ensures err { OnErr result (self.new ≡ self.old) }
    {
        self.noted = NONE;
        put_behind(alloc, &mut self.newest, &mut self.older, &mut self.spare)
    }

    /// Drops the current state, and answers `false` where it is the only one. Takes no memory.
    pub fn undo(&mut self) -> bool
        ensures state { self.new ≡ undone self.old }
        ensures answer { result ≡ has_marked self.old.below }
    {
        if !self.is_marked {
            return false;
        }
        self.noted = NONE;
        put_back(&mut self.current, &mut self.newest);
        match self.older.pop_front() {
            None => self.is_marked = false,
            Some(changes) => {
                let room = mem::replace(&mut self.newest, changes);
                keep_room(&mut self.spare, room);
            }
        }
        true
    }

    /// Whether nothing was written since the newest mark. It may answer `false` though what was written stood there before.
    #[inline(always)]
    pub fn is_untouched(&self) -> bool
        ensures { result ≡ true → (undone self.now).current ≡ self.now.current }
    {
        self.newest.is_empty()
    }

    /// The number of the marked states below the current one.
    pub fn marks(&self) -> usize
        ensures { result ≡ length self.now.below }
    {
        if !self.is_marked {
            return 0;
        }
        self.older.len() + 1
    }

    /// Drops the first `count` states. Takes no memory.
    pub fn forget_first(&mut self, count: usize)
        requires { count < length self.old.below + 1 }
        ensures { self.new ≡ without_first count self.old }
    {
        let older = self.older.len();
        if older < count {
            return self.forget_all();
        }
        keep_newest(&mut self.older, &mut self.spare, older - count);
    }

    // Drops all states but the current one.
    #[inline(always)]
    fn forget_all(&mut self)
        ensures { self.new ≡ record { current = self.old.current; below = [] } }
    {
        self.is_marked = false;
        self.noted = NONE;
        empty(&mut self.newest);
        keep_newest(&mut self.older, &mut self.spare, 0);
    }

    // Puts a scalar into a cell that isn't the one noted last.
    #[inline(never)]
    fn set_other(&mut self, cell: usize, scalar: &Scalar) -> Result<(), NoMemory>
        ensures ok { OnOk result (self.new ≡ record self.old {
          current = slice_set self.old.current cell (Just scalar.now);
        }) }
        ensures err { OnErr result (self.new ≡ self.old) }
    {
        if cell >= self.current.len() {
            return Ok(());
        }
        if !self.is_marked || self.current[cell].is_list() {
            return self.set_apart(cell, scalar);
        }
        let value = &self.current[cell];
        if !note_scalar(&mut self.newest, &mut self.noted, cell, value) {
            return self.set_apart(cell, scalar);
        }
        self.current[cell].put_scalar(*scalar);
        Ok(())
    }

    // Puts a scalar into a cell as a value: there is no mark, or no room, or a list in the cell.
    #[inline(never)]
    fn set_apart(&mut self, cell: usize, scalar: &Scalar) -> Result<(), NoMemory>
        ensures ok { OnOk result (self.new ≡ record self.old {
          current = slice_set self.old.current cell (Just scalar.now);
        }) }
        ensures err { OnErr result (self.new ≡ self.old) }
    {
        self.set(cell, Value::of_scalar(*scalar))
    }

    /// Whether the first states of two stores are equal. Takes no memory.
    pub fn has_same_first(&self, other: &Store) -> bool
        ensures { result ≡ same_state (first_state self.now) (first_state other.now) }
    {
        if self.current.len() != other.current.len() {
            return false;
        }
        for (cell, value) in self.current.iter().enumerate() {
            let mine = Traced {
                cell,
                current: value,
                newest: &self.newest,
                older: &self.older,
            };
            let theirs = Traced {
                cell,
                current: &other.current[cell],
                newest: &other.newest,
                older: &other.older,
            };
            if !is_same_first(mine, theirs) {
                return false;
            }
        }
        true
    }
}

impl Cells for Store {
    ghost values = { λ s. s.current };

    ghost marked = { λ s. s.below };

    fn get(&self, cell: usize) -> Option<&Value> {
        self.current.get(cell)
    }

    fn set(&mut self, cell: usize, value: Value) -> Result<(), NoMemory>
        ensures ok { OnOk result (self.new
            ≡ record self.old { current = slice_set self.old.current cell value }) }
        ensures err { OnErr result (self.new ≡ self.old) }
    {
        if cell >= self.current.len() {
            return Ok(());
        }
        let old = mem::replace(&mut self.current[cell], value);
        let change = Change::Cell(cell, old);
        self.noted = NONE;
        keep(&mut self.current, self.is_marked, &mut self.newest, change)
    }

    #[inline(always)]
    fn set_scalar(&mut self, cell: usize, scalar: Scalar) -> Result<(), NoMemory>
        ensures ok { OnOk result (self.new
            ≡ record self.old { current = slice_set self.old.current cell (Just scalar) }) }
        ensures err { OnErr result (self.new ≡ self.old) }
    {
        if cell == self.noted && cell < self.current.len() {
            self.current[cell].put_scalar(scalar);
            return Ok(());
        }
        self.set_other(cell, &scalar)
    }

    fn set_at(&mut self, cell: usize, index: usize, value: Value) -> Result<(), NoMemory>
        ensures ok { OnOk result (self.new
            ≡ record self.old { current = set_item cell index value self.old.current }) }
        ensures err { OnErr result (self.new ≡ self.old) }
    {
        if cell >= self.current.len() {
            return Ok(());
        }
        match self.current[cell].replace_item(index, value) {
            None => Ok(()),
            Some(old) => {
                let change = Change::Item(cell, index, old);
                self.noted = NONE;
                keep(&mut self.current, self.is_marked, &mut self.newest, change)
            }
        }
    }
}

// Keeps what a write replaced, if there is a mark, or puts it back where memory is refused.
fn keep(
    current: &mut Vec<Value>,
    is_marked: bool,
    newest: &mut Vec<Change>,
    change: Change,
) -> Result<(), NoMemory>
    ensures ok { OnOk result ((current.new.items ≡ current.old.items)
        × ((older : List (List Change)) → IsNoted change
        (marks_of is_marked newest.old.items older) (marks_of is_marked newest.new.items older))) }
    ensures err { OnErr result ((current.new.items ≡ restored change current.old.items)
        × (newest.new.items ≡ newest.old.items)) }
    ensures plain { is_marked ≡ false → newest.new.items ≡ newest.old.items }
{
    if !is_marked {
        drop(change);
        return Ok(());
    }
    match note(newest, change) {
        Ok(()) => Ok(()),
        Err(change) => {
            put_one_back(current, change);
            Err(NoMemory)
        }
    }
}

// Notes a change, if it isn't covered by what was noted just before.
fn note(newest: &mut Vec<Change>, change: Change) -> Result<(), Change>
    ensures ok { OnOk result ((state : List Datum) →
        unwound newest.new.items state ≡ unwound newest.old.items (restored change state)) }
    ensures err { IfErr result (λ back. (back ≡ change) × (newest.new.items ≡ newest.old.items)) }
{
    if change.is_covered(newest.as_slice()) {
        return Ok(());
    }
    match newest.push(change) {
        Ok(()) => Ok(()),
        Err(refused) => Err(refused.value),
    }
}

// Notes what a write of a scalar replaces, if it isn't covered by what was noted just before. The answer is whether that took
// no memory, and else nothing is noted.
#[inline(always)]
fn note_scalar(newest: &mut Vec<Change>, noted: &mut usize, cell: usize, old: &Value) -> bool
    requires { old.now ≡ Just (scalar_of old.now) }
    ensures noted { result ≡ true → (state : List Datum) →
        unwound newest.new.items state ≡ unwound newest.old.items (slice_set state cell old.now) }
    ensures covered { result ≡ true → IsCovered cell newest.new.items }
    ensures last { result ≡ true → noted.new ≡ cell }
    ensures none { result ≡ false → (newest.new.items ≡ newest.old.items)
        × (noted.new ≡ noted.old) }
{
    if is_cell_covered(cell, newest.as_slice()) {
        *noted = cell;
        return true;
    }
    if newest.len() == newest.capacity() {
        return false;
    }
    match newest.push(Change::Cell(cell, Value::of_scalar(old.scalar()))) {
        Ok(()) => {
            *noted = cell;
            true
        }
        Err(refused) => {
            let_go_one(refused.value);
            false
        }
    }
}

#[cold]
#[inline(never)]
fn let_go_one(change: Change) {
    drop(change);
}

#[tactic(auto, using(terms::specs::Turns::items))]
fn put_one_back(current: &mut Vec<Value>, change: Change)
    ensures { current.new.items ≡ restored change current.old.items }
{
    match change {
        Change::Cell(cell, old) => {
            if cell < current.len() {
                current[cell] = old;
            }
        }
        Change::Item(cell, index, old) => {
            if cell < current.len() {
                current[cell].put_item(index, old);
            }
        }
    }
}

// Puts back what several writes replaced, the last one first.
#[tactic(auto, using(crate::specs::Changes::unwound_more))]
fn put_back(current: &mut Vec<Value>, changes: &mut Vec<Change>)
    ensures back { current.new.items ≡ unwound changes.old.items current.old.items }
    ensures emptied { changes.new.items ≡ [] }
{
    while let Some(change) = changes.pop() {
        put_one_back(current, change);
    }
}

// Puts what was written since the newest mark behind a new one. A list with nothing in it keeps its room.
#[inline(always)]
fn put_behind(
    alloc: Global,
    newest: &mut Vec<Change>,
    older: &mut VecDeque<Vec<Change>>,
    spare: &mut Vec<Vec<Change>>,
) -> Result<(), NoMemory>
    ensures ok { OnOk result ((newest.new.items ≡ [])
        × (map changes_in older.new.items ≡ newest.old.items ∷ map changes_in older.old.items)) }
    ensures err { OnErr result ((newest.new.items ≡ newest.old.items)
        × (map changes_in older.new.items ≡ map changes_in older.old.items)) }
{
    if newest.is_empty() {
        return push_list(older, Vec::new(alloc));
    }
    if older.len() < older.capacity() {
        if let Some(room) = last_room(spare) {
            return exchange(newest, older, room);
        }
    }
    put_behind_new(alloc, newest, older, spare)
}

// The same with memory.
#[inline(never)]
fn put_behind_new(
    alloc: Global,
    newest: &mut Vec<Change>,
    older: &mut VecDeque<Vec<Change>>,
    spare: &mut Vec<Vec<Change>>,
) -> Result<(), NoMemory>
    ensures ok { OnOk result ((newest.new.items ≡ [])
        × (map changes_in older.new.items ≡ newest.old.items ∷ map changes_in older.old.items)) }
    ensures err { OnErr result ((newest.new.items ≡ newest.old.items)
        × (map changes_in older.new.items ≡ map changes_in older.old.items)) }
{
    let room = take_room(alloc, spare)?;
    exchange(newest, older, room)
}

// Puts the newest list behind one with nothing in it.
#[inline(always)]
fn exchange(
    newest: &mut Vec<Change>,
    older: &mut VecDeque<Vec<Change>>,
    room: Vec<Change>,
) -> Result<(), NoMemory>
    requires { room.items ≡ [] }
    ensures ok { OnOk result ((newest.new.items ≡ [])
        × (map changes_in older.new.items ≡ newest.old.items ∷ map changes_in older.old.items)) }
    ensures err { OnErr result ((newest.new.items ≡ newest.old.items)
        × (map changes_in older.new.items ≡ map changes_in older.old.items)) }
{
    let changes = mem::replace(newest, room);
    match older.push_front(changes) {
        Ok(()) => Ok(()),
        Err(refused) => {
            let room = mem::replace(newest, refused.value);
            let_go(room);
            Err(NoMemory)
        }
    }
}

// The last spare list, where it has nothing in it.
#[inline(always)]
fn last_room(spare: &mut Vec<Vec<Change>>) -> Option<Vec<Change>>
    ensures { IfSome result (λ room. room.items ≡ []) }
{
    let count = spare.len();
    if count == 0 || !spare[count - 1].is_empty() {
        return None;
    }
    spare.pop()
}

fn push_list(older: &mut VecDeque<Vec<Change>>, list: Vec<Change>) -> Result<(), NoMemory>
    ensures ok { OnOk result
        (map changes_in older.new.items ≡ list.items ∷ map changes_in older.old.items) }
    ensures err { OnErr result (map changes_in older.new.items ≡ map changes_in older.old.items) }
{
    match older.push_front(list) {
        Ok(()) => Ok(()),
        Err(refused) => {
            let_go(refused.value);
            Err(NoMemory)
        }
    }
}

// A list with nothing in it.
#[inline(always)]
fn take_room(alloc: Global, spare: &mut Vec<Vec<Change>>) -> Result<Vec<Change>, NoMemory>
    ensures { IfOk result (λ room. room.items ≡ []) }
{
    match spare.pop() {
        Some(room) => Ok(cleared(room)),
        None => {
            if spare.capacity() == 0 {
                spare.reserve(SPARE_LISTS)?;
            }
            Ok(Vec::new(alloc))
        }
    }
}

#[inline(never)]
fn cleared(mut room: Vec<Change>) -> Vec<Change>
    ensures { result.items ≡ [] }
{
    room.clear();
    room
}

// Drops what was written since all marks but the newest ones, as many as `left`.
#[inline(always)]
fn keep_newest(marks: &mut VecDeque<Vec<Change>>, spare: &mut Vec<Vec<Change>>, left: usize)
    ensures { marks.new.items ≡ take left marks.old.items }
{
    if marks.len() > left {
        cut(marks, spare, left);
    }
}

#[inline(never)]
fn cut(marks: &mut VecDeque<Vec<Change>>, spare: &mut Vec<Vec<Change>>, left: usize)
    ensures { marks.new.items ≡ take left marks.old.items }
{
    while marks.len() > left {
        match marks.pop_back() {
            None => return,
            Some(oldest) => keep_room(spare, oldest),
        }
    }
}

// Drops changes, and keeps their room for a next mark where there is place for it.
#[inline(always)]
fn keep_room(spare: &mut Vec<Vec<Change>>, changes: Vec<Change>) {
    if changes.capacity() == 0 {
        mem::forget(changes);
        return;
    }
    if spare.len() == spare.capacity() {
        let_go(changes);
        return;
    }
    if let Err(refused) = spare.push(emptied(changes)) {
        let_go(refused.value);
    }
}

// The same list with nothing in it.
#[inline(always)]
fn emptied(mut changes: Vec<Change>) -> Vec<Change>
    ensures { result.items ≡ [] }
{
    if changes.iter().any(|change| change.has_list()) {
        return cleared(changes);
    }
    while let Some(scalar) = changes.pop() {
        mem::forget(scalar);
    }
    changes
}

// Drops changes. Scalars own no memory, and so aren't dropped one by one.
#[inline(always)]
fn empty(changes: &mut Vec<Change>)
    ensures { changes.new.items ≡ [] }
{
    if changes.iter().any(|change| change.has_list()) {
        clear(changes);
        return;
    }
    while let Some(scalar) = changes.pop() {
        mem::forget(scalar);
    }
}

#[inline(never)]
fn clear(changes: &mut Vec<Change>)
    ensures { changes.new.items ≡ [] }
{
    changes.clear();
}

#[inline(never)]
fn let_go(changes: Vec<Change>) {
    drop(changes);
}
