//! Names, and what operators make of terms.
ghost use Rattle.std.specs.Prelude.{◌≡◌, ◌+◌, ◌<◌, ◌^◌, not, OnOk, IfOk};
ghost use Rattle.terms.specs.TermTree as core;
ghost use Rattle.terms.specs.TermTree.{term_tree};
ghost use Rattle.ioa_typing.specs.KindViews.{option_tree, shape_tree};
ghost use Rattle.ioa_typing.specs.NameViews.{names_tree};
ghost use Rattle.ioa_trees.specs.Faults.{where_wrong};
ghost use Rattle.ioa_trees.specs.Kinds as kinds;
ghost use Rattle.ioa_trees.specs.Scopes.{named, is_value};
ghost use Rattle.ioa_trees.specs.TermRules as rule;
ghost use Rattle.ioa_typing.specs.Noted.{AreNoted};
ghost use Rattle.ioa_typing.specs.TermViews.{core_tree, judged_tree, typed_tree};

use crate::fault::FaultKind;
use crate::kind::Kind;
use crate::meaning::Meaning;
use crate::names::Names;
use crate::progress::Progress;
use crate::shape::{Shape, fits, is_whole, shape_of};
use crate::typed::{Typed, note_unless_truth, note_unless_whole, truth_of, whole_of};
use ioa_trees::tree::{Relation, Sign};
use std::alloc::{AllocError, Global};
use terms::{Link, Operand, Operator, Scalar, Term};

fn of_kind(core: Term, kind: &Option<Kind>) -> Option<Typed<'_>>
    ensures { judged_tree result ≡ rule.of_kind (term_tree core) (option_tree kind.now) }
{
    match kind {
        None => {
            drop(core);
            None
        }
        Some(kind) => Some(Typed {
            core,
            shape: shape_of(kind),
        }),
    }
}

fn value_named<'a>(alloc: Global, names: &'a Names, name: &str) -> Option<Typed<'a>>
    ensures { judged_tree result ≡ rule.value_meant (named name.now (names_tree names.now)) }
{
    match names.get(name) {
        None => None,
        Some(Meaning::Type(_)) => None,
        Some(Meaning::Member(at, first, count)) => Some(Typed {
            core: Term::of(alloc, Operand::Known(Scalar::Member(*at))),
            shape: Shape::Enumeration(*first, *count),
        }),
        Some(Meaning::Automaton(_)) => None,
        Some(Meaning::Formal(number, kind)) => {
            of_kind(Term::of(alloc, Operand::Formal(*number)), kind)
        }
        Some(Meaning::Variable(number, kind)) => {
            of_kind(Term::of(alloc, Operand::Cell(*number)), kind)
        }
        Some(Meaning::Parameter(number, kind)) => {
            of_kind(Term::of(alloc, Operand::Parameter(*number)), kind)
        }
        Some(Meaning::Loop(number, kind)) => {
            of_kind(Term::of(alloc, Operand::Loop(*number)), kind)
        }
    }
}

fn is_value_named(names: &Names, name: &str) -> bool
    ensures { result ≡ is_value (named name.now (names_tree names.now)) }
{
    match names.get(name) {
        None => false,
        Some(Meaning::Type(_)) => false,
        Some(Meaning::Member(_, _, _)) => true,
        Some(Meaning::Automaton(_)) => false,
        Some(Meaning::Formal(_, _)) => true,
        Some(Meaning::Variable(_, _)) => true,
        Some(Meaning::Parameter(_, _)) => true,
        Some(Meaning::Loop(_, _)) => true,
    }
}

/// A name in a term.
pub(crate) fn check_name<'a>(
    alloc: Global,
    names: &'a Names,
    name: &str,
    place: u32,
    progress: &mut Progress,
) -> Option<Typed<'a>>
    ensures at { progress.new.at ≡ progress.old.at }
    ensures faults { AreNoted progress.old progress.new
        (where_wrong (not (is_value (named name.now (names_tree names.now)))) place 10) }
    ensures meant { judged_tree result ≡ rule.value_meant (named name.now (names_tree names.now)) }
{
    progress.note_if(!is_value_named(names, name), place, FaultKind::UnknownName);
    value_named(alloc, names, name)
}

/// A literal, which is one token.
pub(crate) fn known<'a>(
    alloc: Global,
    progress: &mut Progress,
    scalar: Scalar,
    shape: Shape<'a>,
) -> Option<Typed<'a>>
    requires room { progress.old.at + 1 < 2 ^ 32 }
    ensures at { progress.new.at ≡ progress.old.at + 1 }
    ensures least { progress.new.least ≡ progress.old.least }
    ensures meant { judged_tree result ≡ rule.judged (shape_tree shape.entry) (core.Known scalar) }
{
    progress.at += 1;
    Some(Typed {
        core: Term::of(alloc, Operand::Known(scalar)),
        shape,
    })
}

/// A term of this kind.
pub(crate) fn of_core<'a>(shape: Shape<'a>, core: Option<Term>) -> Option<Typed<'a>>
    ensures { judged_tree result ≡ rule.of_core (shape_tree shape.entry) (core_tree core) }
{
    match core {
        None => None,
        Some(core) => Some(Typed { core, shape }),
    }
}

fn negative_of(alloc: Global, of: Option<Term>) -> Result<Option<Term>, AllocError>
    ensures { IfOk result (λ c. core_tree c ≡ rule.on_core core.Negative (core_tree of)) }
{
    match of {
        None => Ok(None),
        Some(of) => {
            let of = Box::new(alloc, of)?;
            Ok(Some(Term::of(alloc, Operand::Negative(of))))
        }
    }
}

fn not_of(alloc: Global, of: Option<Term>) -> Result<Option<Term>, AllocError>
    ensures { IfOk result (λ c. core_tree c ≡ rule.on_core core.Not (core_tree of)) }
{
    match of {
        None => Ok(None),
        Some(of) => {
            let of = Box::new(alloc, of)?;
            Ok(Some(Term::of(alloc, Operand::Not(of))))
        }
    }
}

/// `-` before what stands at this place.
pub(crate) fn end_minus<'a>(
    alloc: Global,
    of: Option<Typed<'a>>,
    place: u32,
    progress: &mut Progress,
) -> Result<Option<Typed<'a>>, AllocError>
    ensures at { OnOk result (progress.new.at ≡ progress.old.at) }
    ensures faults { OnOk result (AreNoted progress.old progress.new
        (rule.wants kinds.is_whole place (judged_tree of.entry))) }
    ensures meant { IfOk result (λ j. judged_tree j
        ≡ rule.of_core kinds.Whole
        (rule.on_core core.Negative (rule.whole_of (judged_tree of.entry)))) }
{
    note_unless_whole(progress, place, &of);
    let core = negative_of(alloc, whole_of(of))?;
    Ok(of_core(Shape::Whole, core))
}

/// `not` before what stands at this place.
pub(crate) fn end_not<'a>(
    alloc: Global,
    of: Option<Typed<'a>>,
    place: u32,
    progress: &mut Progress,
) -> Result<Option<Typed<'a>>, AllocError>
    ensures at { OnOk result (progress.new.at ≡ progress.old.at) }
    ensures faults { OnOk result (AreNoted progress.old progress.new
        (rule.wants kinds.is_truth place (judged_tree of.entry))) }
    ensures meant { IfOk result (λ j. judged_tree j
        ≡ rule.of_core kinds.Truth (rule.on_core core.Not (rule.truth_of (judged_tree of.entry)))) }
{
    note_unless_truth(progress, place, &of);
    let core = not_of(alloc, truth_of(of))?;
    Ok(of_core(Shape::Truth, core))
}

pub(crate) fn operator_of(sign: Sign) -> Operator
    ensures { result ≡ rule.operator_of sign }
{
    match sign {
        Sign::Plus => Operator::Plus,
        Sign::Minus => Operator::Minus,
    }
}

fn joined(
    operator: Operator,
    left: Option<Term>,
    right: Option<Term>,
) -> Result<Option<Term>, AllocError>
    ensures { IfOk result (λ c. core_tree c
        ≡ rule.joined operator (core_tree left) (core_tree right)) }
{
    let Some(left) = left else {
        drop(right);
        return Ok(None);
    };
    let Some(right) = right else {
        drop(left);
        return Ok(None);
    };
    Ok(Some(left.with(Link::Operator(operator, right))?))
}

/// `and` or `or` with one more operand at this place.
pub(crate) fn join_truth(
    operator: Operator,
    left: Option<Term>,
    right: Option<Typed<'_>>,
    place: u32,
    progress: &mut Progress,
) -> Result<Option<Term>, AllocError>
    ensures at { OnOk result (progress.new.at ≡ progress.old.at) }
    ensures faults { OnOk result (AreNoted progress.old progress.new
        (rule.wants kinds.is_truth place (judged_tree right.entry))) }
    ensures meant { IfOk result (λ c. core_tree c
        ≡ rule.joined operator (core_tree left) (rule.truth_of (judged_tree right.entry))) }
{
    note_unless_truth(progress, place, &right);
    let core = joined(operator, left, truth_of(right))?;
    Ok(core)
}

/// A sum or a product with one more operand at this place.
pub(crate) fn join_whole(
    operator: Operator,
    left: Option<Term>,
    right: Option<Typed<'_>>,
    place: u32,
    progress: &mut Progress,
) -> Result<Option<Term>, AllocError>
    ensures at { OnOk result (progress.new.at ≡ progress.old.at) }
    ensures faults { OnOk result (AreNoted progress.old progress.new
        (rule.wants kinds.is_whole place (judged_tree right.entry))) }
    ensures meant { IfOk result (λ c. core_tree c
        ≡ rule.joined operator (core_tree left) (rule.whole_of (judged_tree right.entry))) }
{
    note_unless_whole(progress, place, &right);
    let core = joined(operator, left, whole_of(right))?;
    Ok(core)
}

/// The remainder by a number, which isn't 0.
pub(crate) fn modulo_of(divisor: u64, left: Option<Term>) -> Result<Option<Term>, AllocError>
    ensures { IfOk result (λ c. core_tree c ≡ rule.modulo_of divisor (core_tree left)) }
{
    let Some(left) = left else {
        return Ok(None);
    };
    if divisor == 0 {
        drop(left);
        return Ok(None);
    }
    Ok(Some(left.with(Link::Modulo(divisor.cast_signed()))?))
}

fn compares(relation: Relation, left: Shape<'_>, right: Shape<'_>) -> bool
    ensures { result ≡ rule.compares relation (shape_tree left.entry) (shape_tree right.entry) }
{
    match relation {
        Relation::Equal => fits(left, right),
        Relation::NotEqual => fits(left, right),
        Relation::Less => is_whole(left) && is_whole(right),
        Relation::AtMost => is_whole(left) && is_whole(right),
        Relation::Greater => is_whole(left) && is_whole(right),
        Relation::AtLeast => is_whole(left) && is_whole(right),
    }
}

fn compared(relation: Relation, left: Term, right: Term) -> Result<Term, AllocError>
    ensures { IfOk result (λ c. term_tree c
        ≡ rule.compared relation (term_tree left) (term_tree right)) }
{
    match relation {
        Relation::Equal => left.with(Link::Operator(Operator::Same, right)),
        Relation::NotEqual => left.with(Link::Operator(Operator::Differs, right)),
        Relation::Less => left.with(Link::Operator(Operator::Less, right)),
        Relation::AtMost => left.with(Link::Operator(Operator::AtMost, right)),
        Relation::Greater => right.with(Link::Operator(Operator::Less, left)),
        Relation::AtLeast => right.with(Link::Operator(Operator::AtMost, left)),
    }
}

/// A comparison whose right operand stands at this place.
pub(crate) fn end_compare<'a>(
    relation: Relation,
    left: Option<Typed<'a>>,
    right: Option<Typed<'a>>,
    place: u32,
    progress: &mut Progress,
) -> Result<Option<Typed<'a>>, AllocError>
    ensures at { OnOk result (progress.new.at ≡ progress.old.at) }
    ensures faults { OnOk result (AreNoted progress.old progress.new
        (rule.compare_faults relation place (judged_tree left.entry) (judged_tree right.entry))) }
    ensures meant { IfOk result (λ j. judged_tree j
        ≡ rule.compare_of relation (judged_tree left.entry) (judged_tree right.entry)) }
{
    let Some(left) = left else {
        drop(right);
        return Ok(None);
    };
    let Some(right) = right else {
        drop(left);
        return Ok(None);
    };
    let fits = compares(relation, left.shape, right.shape);
    progress.note_if(!fits, place, FaultKind::WrongType);
    if !fits {
        drop(left);
        drop(right);
        return Ok(None);
    }
    let core = compared(relation, left.core, right.core)?;
    Ok(Some(Typed {
        core,
        shape: Shape::Truth,
    }))
}
