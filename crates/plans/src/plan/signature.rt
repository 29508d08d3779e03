//! The signatures of the components and of their composition.
ghost use Rattle.std.specs.Prelude.{◌≡◌, ◌++◌, ◌∷◌, [], IfOk, IfSome, OnOk, cond, length, int_le, int_lt, pos, ◌+ℤ◌, ◌&&◌, not, option_copied, find, filter, is_some, ℕ};
ghost use Rattle.io_automata.specs.Automata.{transition_of};
ghost use Rattle.terms.specs.Meaning.{slot};
ghost use Rattle.std.specs.List.Sorted.{IsStrictlyIncreasing};
ghost use Rattle.io_automata.specs.Receivers.{AreCandidates};
ghost use Rattle.io_automata.specs.Signatures.{is_member, fits_one, fits, has, kind_of, receives, receivers_of, given_out, is_external, is_open, is_output, takes_input, some_component, takers_of};

use crate::plan::Plan;
use io_automata::{Entry, Kind, Param};
use patterns::index::notes::is_above;
use smallvec::SmallVec;
use std::alloc::Global;
use terms::{Action, Listed, NoMemory, Scalar};

impl Plan {
    ghost use Rattle.std.specs.Option.{option_map};
    ghost use Rattle.io_automata.specs.Automata.{component_at};
    ghost use Rattle.io_automata.specs.Steps.{entry_in};
    ghost use Rattle.plans.specs.Plans.{composition, hides};

    #[inline(always)]
    pub(super) fn entry(&self, i: u16, action: &Action) -> Option<&Entry>
        ensures { option_map transition_of (option_copied result)
            ≡ entry_in (component_at (composition self.now) i) action.now }
    {
        let name = name_of(action);
        let args = args_of(action);
        first_with(self.entries(i), self.formals(i), name, args)
    }

    /// The kind under which component `i` has an action in its own signature, or none where it doesn't have it.
    pub fn kind(&self, i: u16, action: &Action) -> Option<Kind>
        ensures { result ≡ kind_of (composition self.now) i action.now }
    {
        match self.entry(i, action) {
            Some(entry) => Some(entry.kind),
            None => None,
        }
    }

    /// The components that take an action of `sender` as an input, each once and in order. There is
    /// room for one more, and up to seven take no memory.
    pub fn receivers(
        &self,
        alloc: Global,
        action: &Action,
        sender: u16,
    ) -> Result<SmallVec<u16, 8>, NoMemory>
        ensures { IfOk result (λ receivers. receivers.items
            ≡ receivers_of (composition self.now) action.now sender) }
    {
        match self.lent(action) {
            Some(numbers) => self.receivers_among(alloc, numbers, action, sender),
            None => self.receivers_merged(alloc, action, sender),
        }
    }

    /// Components among which the receivers of an action are; where one list has them all it is lent, and takes no memory.
    /// Else `room` holds them. An action that stands under several patterns takes memory.
    #[inline(always)]
    pub fn candidates<'a>(
        &'a self,
        alloc: Global,
        action: &Action,
        sender: u16,
        room: &'a mut SmallVec<u16, 8>,
    ) -> Result<&'a [u16], NoMemory>
        ensures { IfOk result (λ found. AreCandidates
            (composition self.now) action.now sender found.now) }
    {
        if let Some(numbers) = self.lent(action) {
            if is_above(numbers, self.components()) {
                return Ok(numbers);
            }
        }
        self.put_receivers(alloc, action, sender, room)
    }

    #[cold]
    #[inline(never)]
    fn put_receivers<'a>(
        &self,
        alloc: Global,
        action: &Action,
        sender: u16,
        room: &'a mut SmallVec<u16, 8>,
    ) -> Result<&'a [u16], NoMemory>
        ensures { IfOk result (λ found. found.now ≡ receivers_of
            (composition self.now) action.now sender) }
    {
        *room = self.receivers_merged(alloc, action, sender)?;
        Ok(room.as_slice())
    }

    #[cold]
    #[inline(never)]
    fn receivers_merged(
        &self,
        alloc: Global,
        action: &Action,
        sender: u16,
    ) -> Result<SmallVec<u16, 8>, NoMemory>
        ensures { IfOk result (λ receivers. receivers.items
            ≡ receivers_of (composition self.now) action.now sender) }
    {
        let candidates = self.merged(alloc, action)?;
        let receivers = self.receivers_among(alloc, candidates.as_slice(), action, sender);
        drop(candidates);
        receivers
    }

    #[inline(always)]
    #[tactic(auto, using(crate::specs::Rows::filter_next))]
    fn receivers_among(
        &self,
        alloc: Global,
        numbers: &[u16],
        action: &Action,
        sender: u16,
    ) -> Result<SmallVec<u16, 8>, NoMemory>
        ensures { IfOk result (λ receivers. receivers.items ≡ filter
            (receives (composition self.now) sender action.now) numbers.now) }
    {
        let mut receivers = SmallVec::with_capacity(alloc, numbers.len() + 1)?;
        for j in numbers {
            let takes = *j != sender && takes_input(self.kind(*j, action));
            push_if(&mut receivers, takes, *j)?;
        }
        Ok(receivers)
    }

    // Those that take the action are its receivers, whoever sends it.
    fn merged(&self, alloc: Global, action: &Action) -> Result<Vec<u16>, NoMemory>
        ensures { IfOk result (λ found. (sender : ℕ)
            → filter (receives (composition self.now) sender action.now) found.items
            ≡ receivers_of (composition self.now) action.now sender) }
    {
        let found = self.index.candidates(alloc, action)?;
        Ok(found)
    }

    fn lent(&self, action: &Action) -> Option<&[u16]>
        ensures rise { IfSome result (λ found. IsStrictlyIncreasing found.now) }
        ensures all { IfSome result (λ found. (sender : ℕ) → filter
            (receives (composition self.now) sender action.now) found.now ≡ receivers_of
            (composition self.now) action.now sender) }
    {
        let found = self.index.lent(action);
        found
    }

    /// The components that have an action, each once and in order.
    pub fn takers(&self, alloc: Global, action: &Action) -> Result<SmallVec<u16, 8>, NoMemory>
        ensures { IfOk result (λ takers. takers.items ≡ takers_of
            (composition self.now) action.now) }
    {
        let candidates = self.takers_among(alloc, action)?;
        let takers = self.with_action(alloc, candidates.as_slice(), action);
        drop(candidates);
        takers
    }

    fn takers_among(&self, alloc: Global, action: &Action) -> Result<Vec<u16>, NoMemory>
        ensures { IfOk result (λ found. filter
            (λ j. is_some (kind_of (composition self.now) j action.now)) found.items ≡ takers_of
            (composition self.now) action.now) }
    {
        let found = self.entries.candidates(alloc, action)?;
        Ok(found)
    }

    #[tactic(auto, using(crate::specs::Rows::filter_next))]
    fn with_action(
        &self,
        alloc: Global,
        numbers: &[u16],
        action: &Action,
    ) -> Result<SmallVec<u16, 8>, NoMemory>
        ensures { IfOk result (λ takers. takers.items ≡ filter
            (λ j. is_some (kind_of (composition self.now) j action.now)) numbers.now) }
    {
        let mut takers = SmallVec::with_capacity(alloc, numbers.len())?;
        for j in numbers {
            let has = self.kind(*j, action).is_some();
            push_if(&mut takers, has, *j)?;
        }
        Ok(takers)
    }

    /// Whether an action is an input or an output of the composition. An output of a component whose name is hidden is neither.
    pub fn is_external(&self, action: &Action) -> bool
        ensures { result ≡ is_external (hides self.now) (composition self.now) action.now }
    {
        self.is_seen_somewhere(action)
    }

    fn is_seen_somewhere(&self, action: &Action) -> bool
        ensures { result ≡ (not (hides self.now action.now.name && given_out
            (composition self.now) action.now) && some_component
            (composition self.now) (λ j. is_open (kind_of (composition self.now) j action.now))) }
    {
        !self.is_hidden_output(action) && self.is_open_somewhere(action)
    }

    fn is_hidden_output(&self, action: &Action) -> bool
        ensures { result ≡ (hides self.now action.now.name && given_out
            (composition self.now) action.now) }
    {
        self.hides(name_of(action)) && self.is_given_out(action)
    }

    fn is_given_out(&self, action: &Action) -> bool
        ensures { result ≡ given_out (composition self.now) action.now }
    {
        self.is_output_somewhere(action)
    }

    fn is_output_somewhere(&self, action: &Action) -> bool
        ensures { result ≡ some_component
            (composition self.now) (λ j. is_output (kind_of (composition self.now) j action.now)) }
    {
        (0..self.components()).any(|j| is_output(self.kind(j, action)))
    }

    fn is_open_somewhere(&self, action: &Action) -> bool
        ensures { result ≡ some_component (composition self.now)
            (λ j. is_open (kind_of (composition self.now) j action.now)) }
    {
        (0..self.components()).any(|j| is_open(self.kind(j, action)))
    }
}

#[inline(always)]
fn name_of(action: &Action) -> u16
    ensures { result ≡ action.now.name }
{
    action.name
}

#[inline(always)]
fn args_of(action: &Action) -> &[Scalar]
    ensures { result.now ≡ action.now.args }
{
    action.args.as_slice()
}

#[inline(always)]
fn first_with<'a>(
    entries: &'a [Entry],
    formals: &[Scalar],
    name: u16,
    args: &[Scalar],
) -> Option<&'a Entry>
    ensures { option_copied result ≡ find (λ entry. has formals.now
        (record { name = name; args = args.now }) (transition_of entry)) entries.now }
{
    entries.iter().find(|entry| has(formals, name, args, entry))
}

fn push_if(numbers: &mut SmallVec<u16, 8>, test: bool, number: u16) -> Result<(), NoMemory>
    ensures { OnOk result (numbers.new.items ≡ numbers.old.items ++ cond test (number ∷ []) []) }
{
    if test {
        numbers.push(number)?;
    }
    Ok(())
}

pub(super) fn takes_input(kind: Option<Kind>) -> bool
    ensures { result ≡ takes_input kind }
{
    match kind {
        Some(Kind::Input) => true,
        Some(Kind::Output) => false,
        Some(Kind::Internal) => false,
        None => false,
    }
}

fn is_open(kind: Option<Kind>) -> bool
    ensures { result ≡ is_open kind }
{
    match kind {
        Some(Kind::Input) => true,
        Some(Kind::Output) => true,
        Some(Kind::Internal) => false,
        None => false,
    }
}

fn is_output(kind: Option<Kind>) -> bool
    ensures { result ≡ is_output kind }
{
    match kind {
        Some(Kind::Input) => false,
        Some(Kind::Output) => true,
        Some(Kind::Internal) => false,
        None => false,
    }
}

fn is_number_of(low: i64, count: u16, number: i64) -> bool
    ensures { result ≡ (int_le low number && int_lt number (low +ℤ pos count)) }
{
    low <= number && number.abs_diff(low) < count as u64
}

fn is_member(listed: Listed, value: Scalar) -> bool
    ensures { result ≡ is_member listed value }
{
    match (listed, value) {
        (Listed::Bool, Scalar::Int(_)) => false,
        (Listed::Bool, Scalar::Bool(_)) => true,
        (Listed::Bool, Scalar::Member(_)) => false,
        (Listed::Range { low, count }, Scalar::Int(number)) => is_number_of(low, count, number),
        (Listed::Range { low: _, count: _ }, Scalar::Bool(_)) => false,
        (Listed::Range { low: _, count: _ }, Scalar::Member(_)) => false,
        (Listed::Enumeration { first: _, count: _ }, Scalar::Int(_)) => false,
        (Listed::Enumeration { first: _, count: _ }, Scalar::Bool(_)) => false,
        (Listed::Enumeration { first, count }, Scalar::Member(member)) => {
            first <= member && (member as u32) < first as u32 + count as u32
        }
    }
}

// Whole numbers are compared first.
#[inline(always)]
fn is_same(a: &Scalar, b: &Scalar) -> bool
    ensures { result ≡ ⟦<Scalar as PartialEq>⟧.eq a.now b.now }
{
    if let Scalar::Int(first) = a {
        if let Scalar::Int(second) = b {
            return *first == *second;
        }
    }
    *a == *b
}

#[inline(always)]
fn is_slot(formals: &[Scalar], n: usize, value: &Scalar) -> bool
    ensures { result ≡ ⟦<Scalar as PartialEq>⟧.eq (slot formals.now n) value.now }
{
    match formals.get(n) {
        Some(formal) => is_same(formal, value),
        None => Scalar::Int(0) == *value,
    }
}

// Most parameters stand for a formal.
#[inline(always)]
fn fits_one(formals: &[Scalar], param: &Param, value: &Scalar) -> bool
    ensures { result ≡ fits_one formals.now param.now value.now }
{
    if let Param::Const(n) = param {
        return is_slot(formals, *n, value);
    }
    fits_other(formals, param, value)
}

#[inline(always)]
fn fits_other(formals: &[Scalar], param: &Param, value: &Scalar) -> bool
    ensures { result ≡ fits_one formals.now param.now value.now }
{
    match param {
        Param::Const(n) => is_slot(formals, *n, value),
        Param::Member(listed) => is_member(*listed, *value),
        Param::Between(low, high) => match *value {
            Scalar::Int(number) => *low <= number && number <= *high,
            Scalar::Bool(_) => false,
            Scalar::Member(_) => false,
        },
        Param::Whole => match *value {
            Scalar::Int(_) => true,
            Scalar::Bool(_) => false,
            Scalar::Member(_) => false,
        },
    }
}

#[inline(always)]
fn fits(formals: &[Scalar], params: &[Param], args: &[Scalar]) -> bool
    ensures { result ≡ fits formals.now params.now args.now }
{
    if params.len() != args.len() {
        return false;
    }
    for k in 0..params.len() {
        if !fits_one(formals, &params[k], &args[k]) {
            return false;
        }
    }
    true
}

#[inline(always)]
fn has(formals: &[Scalar], name: u16, args: &[Scalar], entry: &Entry) -> bool
    ensures { result ≡ has formals.now (record { name = name; args = args.now })
        (transition_of entry.now) }
{
    entry.name == name && fits(formals, entry.params.as_slice(), args)
}
