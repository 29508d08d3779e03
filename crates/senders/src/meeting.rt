//! Which entries may stand for one action.
ghost use Rattle.std.specs.Prelude.{◌≡◌, ◌+◌, ◌+ℤ◌, ◌&&◌, int_le, int_lt, nat_lt, pos};
ghost use Rattle.std.specs.List.{list_any};
ghost use Rattle.terms.specs.Meaning.{slot};
ghost use Rattle.io_automata.specs.Automata.{transition_of};
ghost use Rattle.io_automata.specs.Signatures.{fits_one, is_member, same_kind};
ghost use Rattle.io_automata.specs.declared.automaton.Kind.TheVariants.{Input};
ghost use Rattle.senders.specs.Meeting.{do_listed_meet, gives_one, may_all_meet, may_meet, may_take, takes_one};

use io_automata::{Entry, Kind, Param};
use terms::{Listed, Scalar};

#[inline(always)]
fn slot(formals: &[Scalar], n: usize) -> Scalar
    ensures { result ≡ slot formals.now n }
{
    match formals.get(n) {
        Some(formal) => *formal,
        None => Scalar::Int(0),
    }
}

// The value is that of this formal.
#[inline(always)]
fn is_slot(formals: &[Scalar], n: usize, value: Scalar) -> bool
    ensures { result ≡ ⟦<Scalar as PartialEq>⟧.eq (slot formals.now n) value }
{
    is_same(slot(formals, n), value)
}

// Whole numbers are compared first.
#[inline(always)]
fn is_same(one: Scalar, other: Scalar) -> bool
    ensures { result ≡ ⟦<Scalar as PartialEq>⟧.eq one other }
{
    if let Scalar::Int(first) = one {
        if let Scalar::Int(second) = other {
            return first == second;
        }
    }
    one == other
}

fn is_number_of(low: i64, count: u16, number: i64) -> bool
    ensures { result ≡ (int_le low number && int_lt number (low +ℤ pos count)) }
{
    low <= number && number.abs_diff(low) < count as u64
}

fn is_member(listed: Listed, value: Scalar) -> bool
    ensures { result ≡ is_member listed value }
{
    match (listed, value) {
        (Listed::Bool, Scalar::Int(_)) => false,
        (Listed::Bool, Scalar::Bool(_)) => true,
        (Listed::Bool, Scalar::Member(_)) => false,
        (Listed::Range { low, count }, Scalar::Int(number)) => is_number_of(low, count, number),
        (Listed::Range { low: _, count: _ }, Scalar::Bool(_)) => false,
        (Listed::Range { low: _, count: _ }, Scalar::Member(_)) => false,
        (Listed::Enumeration { first: _, count: _ }, Scalar::Int(_)) => false,
        (Listed::Enumeration { first: _, count: _ }, Scalar::Bool(_)) => false,
        (Listed::Enumeration { first, count }, Scalar::Member(member)) => {
            first <= member && (member as u32) < first as u32 + count as u32
        }
    }
}

fn fits_one(formals: &[Scalar], param: Param, value: Scalar) -> bool
    ensures { result ≡ fits_one formals.now param value }
{
    match param {
        Param::Const(n) => is_slot(formals, n, value),
        Param::Member(listed) => is_member(listed, value),
        Param::Between(low, high) => match value {
            Scalar::Int(number) => low <= number && number <= high,
            Scalar::Bool(_) => false,
            Scalar::Member(_) => false,
        },
        Param::Whole => match value {
            Scalar::Int(_) => true,
            Scalar::Bool(_) => false,
            Scalar::Member(_) => false,
        },
    }
}

// The first number is below the end of a range.
fn is_below(number: i64, low: i64, count: u16) -> bool
    ensures { result ≡ int_lt number (low +ℤ pos count) }
{
    number < low || number.abs_diff(low) < count as u64
}

fn do_listed_meet(one: Listed, other: Listed) -> bool
    ensures { result ≡ do_listed_meet one other }
{
    match (one, other) {
        (Listed::Bool, Listed::Bool) => true,
        (Listed::Bool, Listed::Range { low: _, count: _ }) => false,
        (Listed::Bool, Listed::Enumeration { first: _, count: _ }) => false,
        (Listed::Range { low: _, count: _ }, Listed::Bool) => false,
        (
            Listed::Range { low, count },
            Listed::Range {
                low: bottom,
                count: many,
            },
        ) => { is_below(low, bottom, many) && is_below(bottom, low, count) }
        (Listed::Range { low: _, count: _ }, Listed::Enumeration { first: _, count: _ }) => false,
        (Listed::Enumeration { first: _, count: _ }, Listed::Bool) => false,
        (Listed::Enumeration { first: _, count: _ }, Listed::Range { low: _, count: _ }) => false,
        (
            Listed::Enumeration { first, count },
            Listed::Enumeration {
                first: begin,
                count: many,
            },
        ) => {
            (first as u32) < begin as u32 + many as u32
                && (begin as u32) < first as u32 + count as u32
        }
    }
}

// Most parameters are formals.
#[inline(always)]
fn may_meet(formals: &[Scalar], param: Param, others: &[Scalar], other: Param) -> bool
    ensures { result ≡ may_meet formals.now param others.now other }
{
    if let Param::Const(n) = param {
        if let Param::Const(m) = other {
            return is_slot(others, m, slot(formals, n));
        }
    }
    may_other_meet(formals, param, others, other)
}

fn may_other_meet(formals: &[Scalar], param: Param, others: &[Scalar], other: Param) -> bool
    ensures { result ≡ may_meet formals.now param others.now other }
{
    match param {
        Param::Const(n) => fits_one(others, other, slot(formals, n)),
        Param::Member(listed) => match other {
            Param::Const(m) => is_member(listed, slot(others, m)),
            Param::Member(another) => do_listed_meet(listed, another),
            Param::Between(_, _) => true,
            Param::Whole => true,
        },
        Param::Between(low, high) => match other {
            Param::Const(m) => fits_one(formals, Param::Between(low, high), slot(others, m)),
            Param::Member(_) => true,
            Param::Between(_, _) => true,
            Param::Whole => true,
        },
        Param::Whole => match other {
            Param::Const(m) => fits_one(formals, Param::Whole, slot(others, m)),
            Param::Member(_) => true,
            Param::Between(_, _) => true,
            Param::Whole => true,
        },
    }
}

fn may_all_meet(formals: &[Scalar], params: &[Param], others: &[Scalar], more: &[Param]) -> bool
    ensures { result ≡ may_all_meet formals.now params.now others.now more.now }
{
    if params.len() != more.len() {
        return false;
    }
    for k in 0..params.len() {
        if !may_meet(formals, params[k], others, more[k]) {
            return false;
        }
    }
    true
}

#[inline(always)]
fn is_input(kind: Kind) -> bool
    ensures { result ≡ same_kind Input kind }
{
    match kind {
        Kind::Input => true,
        Kind::Output => false,
        Kind::Internal => false,
    }
}

#[inline(always)]
fn may_take(formals: &[Scalar], entry: &Entry, others: &[Scalar], input: &Entry) -> bool
    ensures { result ≡ may_take formals.now (transition_of entry.now) others.now
        (transition_of input.now) }
{
    is_input(input.kind)
        && input.name == entry.name
        && may_all_meet(
            formals,
            entry.params.as_slice(),
            others,
            input.params.as_slice(),
        )
}

// An entry is no input, and some input among the entries of a component may stand for an action of it.
fn may_give(formals: &[Scalar], entry: &Entry, others: &[Scalar], inputs: &[Entry]) -> bool
    ensures { result ≡ gives_one formals.now others.now inputs.now entry.now }
{
    !is_input(entry.kind) && takes_any(formals, entry, others, inputs)
}

fn takes_any(formals: &[Scalar], entry: &Entry, others: &[Scalar], inputs: &[Entry]) -> bool
    ensures { result ≡ list_any (takes_one formals.now entry.now others.now) inputs.now }
{
    inputs
        .iter()
        .any(|input| may_take(formals, entry, others, input))
}

/// Whether a component with these formals and entries has an entry that is no input, and for an action of which an input of another component
/// may stand.
pub(crate) fn may_reach(
    formals: &[Scalar],
    entries: &[Entry],
    others: &[Scalar],
    inputs: &[Entry],
) -> bool
    ensures { result ≡ list_any (gives_one formals.now others.now inputs.now) entries.now }
{
    entries
        .iter()
        .any(|entry| may_give(formals, entry, others, inputs))
}
