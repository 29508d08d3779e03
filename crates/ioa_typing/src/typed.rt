//! Terms without names, and what is asked of their kinds.
ghost use Rattle.std.specs.Prelude.{◌≡◌, IfOk};
ghost use Rattle.terms.specs.TermTree.{term_tree};
ghost use Rattle.ioa_typing.specs.KindViews.{shape_tree};
ghost use Rattle.ioa_trees.specs.Kinds as kinds;
ghost use Rattle.ioa_trees.specs.TermRules as rule;
ghost use Rattle.ioa_trees.specs.ValueRules as value;
ghost use Rattle.ioa_typing.specs.Noted.{AreNoted};
ghost use Rattle.ioa_typing.specs.TermViews.{core_tree, judged_tree};

use crate::fault::FaultKind;
use crate::progress::Progress;
use crate::shape::{Shape, fits, is_seq, is_truth, is_whole};
use std::alloc::{AllocError, Global};
use terms::{Operand, Term};

/// A term without names, and its kind.
#[derive(Drop)]
pub struct Typed<'a> {
    pub core: Term,
    pub shape: Shape<'a>,
}

/// Notes a term that is no truth value: `WrongType`.
pub fn note_unless_truth(progress: &mut Progress, place: u32, typed: &Option<Typed<'_>>)
    ensures at { progress.new.at ≡ progress.old.at }
    ensures least { AreNoted progress.old progress.new
        (rule.wants kinds.is_truth place (judged_tree typed.now)) }
{
    if let Some(typed) = typed {
        progress.note_if(!is_truth(typed.shape), place, FaultKind::WrongType);
    }
}

/// Notes a term that is no whole number: `WrongType`.
pub fn note_unless_whole(progress: &mut Progress, place: u32, typed: &Option<Typed<'_>>)
    ensures at { progress.new.at ≡ progress.old.at }
    ensures least { AreNoted progress.old progress.new
        (rule.wants kinds.is_whole place (judged_tree typed.now)) }
{
    if let Some(typed) = typed {
        progress.note_if(!is_whole(typed.shape), place, FaultKind::WrongType);
    }
}

/// Notes a term that is no sequence: `WrongType`.
pub fn note_unless_seq(progress: &mut Progress, place: u32, typed: &Option<Typed<'_>>)
    ensures at { progress.new.at ≡ progress.old.at }
    ensures least { AreNoted progress.old progress.new
        (rule.wants kinds.is_seq place (judged_tree typed.now)) }
{
    if let Some(typed) = typed {
        progress.note_if(!is_seq(typed.shape), place, FaultKind::WrongType);
    }
}

/// Notes a term that doesn't fit a place of this kind: `WrongType`.
pub fn note_unfit(progress: &mut Progress, kind: Shape<'_>, place: u32, typed: &Option<Typed<'_>>)
    ensures at { progress.new.at ≡ progress.old.at }
    ensures least { AreNoted progress.old progress.new
        (rule.unfit (shape_tree kind.entry) place (judged_tree typed.now)) }
{
    if let Some(typed) = typed {
        progress.note_if(!fits(kind, typed.shape), place, FaultKind::WrongType);
    }
}

/// The term of one that is a truth value.
pub fn truth_of(typed: Option<Typed<'_>>) -> Option<Term>
    ensures { core_tree result ≡ rule.truth_of (judged_tree typed.entry) }
{
    let typed = typed?;
    if is_truth(typed.shape) {
        Some(typed.core)
    } else {
        drop(typed);
        None
    }
}

/// The term of one that is a whole number.
pub fn whole_of(typed: Option<Typed<'_>>) -> Option<Term>
    ensures { core_tree result ≡ rule.whole_of (judged_tree typed.entry) }
{
    let typed = typed?;
    if is_whole(typed.shape) {
        Some(typed.core)
    } else {
        drop(typed);
        None
    }
}

/// A value as it is put in a place of this kind: of a range it is the nearest number.
pub fn placed(alloc: Global, kind: Shape<'_>, core: Term) -> Result<Term, AllocError>
    ensures { IfOk result (λ t. term_tree t
        ≡ rule.placed (shape_tree kind.entry) (term_tree core)) }
{
    match kind {
        Shape::Range(low, high) => {
            let core = Box::new(alloc, core)?;
            Ok(Term::of(alloc, Operand::Nearest(core, low, high)))
        }
        Shape::Truth => Ok(core),
        Shape::Whole => Ok(core),
        Shape::Enumeration(_, _) => Ok(core),
        Shape::Seq(_, _) => Ok(core),
        Shape::Array(_, _) => Ok(core),
    }
}

/// The value in a place of this kind, where it fits.
pub fn value_in(
    alloc: Global,
    kind: Shape<'_>,
    typed: Option<Typed<'_>>,
) -> Result<Option<Term>, AllocError>
    ensures { IfOk result (λ t. core_tree t
        ≡ value.value_in (shape_tree kind.entry) (judged_tree typed.entry)) }
{
    let Some(typed) = typed else {
        return Ok(None);
    };
    if !fits(kind, typed.shape) {
        drop(typed);
        return Ok(None);
    }
    let value = placed(alloc, kind, typed.core)?;
    Ok(Some(value))
}
