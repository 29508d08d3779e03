//! What is asked of sequences, and the elements of arrays.
ghost use Rattle.std.specs.Prelude.{◌≡◌, ◌++◌, Some, OnOk, IfOk};
ghost use Rattle.terms.specs.TermTree.{term_tree};
ghost use Rattle.ioa_typing.specs.KindViews.{kind_tree, shape_tree};
ghost use Rattle.ioa_trees.specs.Kinds as kinds;
ghost use Rattle.ioa_trees.specs.TermRules as rule;
ghost use Rattle.ioa_typing.specs.Noted.{AreNoted};
ghost use Rattle.ioa_typing.specs.TermViews.{judged_tree, typed_tree};

use crate::boxed::boxed_pair;
use crate::fault::FaultKind;
use crate::kind::Kind;
use crate::listing::{item_shape, listed_of};
use crate::progress::Progress;
use crate::shape::{Shape, fits, shape_of};
use crate::typed::{Typed, note_unfit, note_unless_seq, placed};
use ioa_trees::tree::Call;
use std::alloc::{AllocError, Global};
use terms::{Operand, Term};

fn called<'a>(
    alloc: Global,
    call: Call,
    item: &'a Kind,
    most: u64,
    core: Term,
) -> Result<Typed<'a>, AllocError>
    ensures { IfOk result (λ t. Some (typed_tree t)
        ≡ rule.called call (kind_tree item.now) most (term_tree core)) }
{
    match call {
        Call::Head => {
            let core = Box::new(alloc, core)?;
            let kind = item_shape(alloc, item)?;
            Ok(Typed {
                core: Term::of(alloc, Operand::Head(core, kind)),
                shape: shape_of(item),
            })
        }
        Call::Tail => {
            let core = Box::new(alloc, core)?;
            Ok(Typed {
                core: Term::of(alloc, Operand::Tail(core)),
                shape: Shape::Seq(item, most),
            })
        }
        Call::Len => {
            let core = Box::new(alloc, core)?;
            Ok(Typed {
                core: Term::of(alloc, Operand::Length(core)),
                shape: Shape::Whole,
            })
        }
    }
}

// What a call of this word means.
fn call_of<'a>(
    alloc: Global,
    call: Call,
    of: Option<Typed<'a>>,
) -> Result<Option<Typed<'a>>, AllocError>
    ensures { IfOk result (λ j. judged_tree j ≡ rule.call_of call (judged_tree of.entry)) }
{
    let Some(of) = of else {
        return Ok(None);
    };
    let Shape::Seq(item, most) = of.shape else {
        drop(of);
        return Ok(None);
    };
    let found = called(alloc, call, item, most, of.core)?;
    Ok(Some(found))
}

/// A call on what stands at this place.
pub(crate) fn end_call<'a>(
    alloc: Global,
    call: Call,
    of: Option<Typed<'a>>,
    place: u32,
    progress: &mut Progress,
) -> Result<Option<Typed<'a>>, AllocError>
    ensures at { OnOk result (progress.new.at ≡ progress.old.at) }
    ensures faults { OnOk result (AreNoted progress.old progress.new
        (rule.wants kinds.is_seq place (judged_tree of.entry))) }
    ensures meant { IfOk result (λ j. judged_tree j ≡ rule.call_of call (judged_tree of.entry)) }
{
    note_unless_seq(progress, place, &of);
    let found = call_of(alloc, call, of)?;
    Ok(found)
}

fn note_item(
    progress: &mut Progress,
    place: u32,
    list: &Option<Typed<'_>>,
    item: &Option<Typed<'_>>,
)
    ensures at { progress.new.at ≡ progress.old.at }
    ensures least { AreNoted progress.old progress.new
        (rule.append_faults place (judged_tree list.now) (judged_tree item.now)) }
{
    if let Some(list) = list {
        if let Shape::Seq(kind, _) = list.shape {
            note_unfit(progress, shape_of(kind), place, item);
        }
    }
}

fn appended_to<'a>(
    alloc: Global,
    list: Typed<'a>,
    item: Typed<'a>,
) -> Result<Option<Typed<'a>>, AllocError>
    ensures { IfOk result (λ j. judged_tree j
        ≡ rule.appended_to (term_tree list.entry.core) (shape_tree list.entry.shape)
        (typed_tree item.entry)) }
{
    let Shape::Seq(kind, most) = list.shape else {
        drop(list);
        drop(item);
        return Ok(None);
    };
    if !fits(shape_of(kind), item.shape) {
        drop(list);
        drop(item);
        return Ok(None);
    }
    let last = match placed(alloc, shape_of(kind), item.core) {
        Ok(last) => last,
        Err(refused) => {
            drop(list);
            return Err(refused);
        }
    };
    let (core, last) = boxed_pair(alloc, list.core, last)?;
    Ok(Some(Typed {
        core: Term::of(alloc, Operand::Append(core, last, most as usize)),
        shape: list.shape,
    }))
}

fn append_of<'a>(
    alloc: Global,
    list: Option<Typed<'a>>,
    item: Option<Typed<'a>>,
) -> Result<Option<Typed<'a>>, AllocError>
    ensures { IfOk result (λ j. judged_tree j
        ≡ rule.append_of (judged_tree list.entry) (judged_tree item.entry)) }
{
    let Some(list) = list else {
        drop(item);
        return Ok(None);
    };
    let Some(item) = item else {
        drop(list);
        return Ok(None);
    };
    let found = appended_to(alloc, list, item)?;
    Ok(found)
}

/// A sequence at the first place with the item at the second.
#[tactic(auto, using(crate::proofs::Keeps::keep_append))]
pub(crate) fn end_append<'a>(
    alloc: Global,
    list: Option<Typed<'a>>,
    item: Option<Typed<'a>>,
    first: u32,
    second: u32,
    progress: &mut Progress,
) -> Result<Option<Typed<'a>>, AllocError>
    ensures at { OnOk result (progress.new.at ≡ progress.old.at) }
    ensures faults { OnOk result (AreNoted progress.old progress.new
        (rule.wants kinds.is_seq first (judged_tree list.entry)
        ++ rule.append_faults second (judged_tree list.entry) (judged_tree item.entry))) }
    ensures meant { IfOk result (λ j. judged_tree j
        ≡ rule.append_of (judged_tree list.entry) (judged_tree item.entry)) }
{
    note_unless_seq(progress, first, &list);
    note_item(progress, second, &list, &item);
    let found = append_of(alloc, list, item)?;
    Ok(found)
}

fn note_index(
    progress: &mut Progress,
    first: u32,
    place: u32,
    of: &Option<Typed<'_>>,
    index: &Option<Typed<'_>>,
)
    ensures at { progress.new.at ≡ progress.old.at }
    ensures least { AreNoted progress.old progress.new
        (rule.index_faults first place (judged_tree of.now) (judged_tree index.now)) }
{
    if let Some(of) = of {
        match of.shape {
            Shape::Array(by, _) => note_unfit(progress, shape_of(by), place, index),
            Shape::Truth => progress.note_if(true, first, FaultKind::WrongType),
            Shape::Whole => progress.note_if(true, first, FaultKind::WrongType),
            Shape::Range(_, _) => progress.note_if(true, first, FaultKind::WrongType),
            Shape::Enumeration(_, _) => progress.note_if(true, first, FaultKind::WrongType),
            Shape::Seq(_, _) => progress.note_if(true, first, FaultKind::WrongType),
        }
    }
}

fn element<'a>(
    alloc: Global,
    of: Typed<'a>,
    index: Typed<'a>,
) -> Result<Option<Typed<'a>>, AllocError>
    ensures { IfOk result (λ j. judged_tree j
        ≡ rule.element (term_tree of.entry.core) (shape_tree of.entry.shape)
        (typed_tree index.entry)) }
{
    let Shape::Array(by, item) = of.shape else {
        drop(of);
        drop(index);
        return Ok(None);
    };
    if !fits(shape_of(by), index.shape) {
        drop(of);
        drop(index);
        return Ok(None);
    }
    let (core, index) = boxed_pair(alloc, of.core, index.core)?;
    Ok(Some(Typed {
        core: Term::of(alloc, Operand::Index(core, index, listed_of(by))),
        shape: shape_of(item),
    }))
}

fn element_of<'a>(
    alloc: Global,
    of: Option<Typed<'a>>,
    index: Option<Typed<'a>>,
) -> Result<Option<Typed<'a>>, AllocError>
    ensures { IfOk result (λ j. judged_tree j
        ≡ rule.element_of (judged_tree of.entry) (judged_tree index.entry)) }
{
    let Some(of) = of else {
        drop(index);
        return Ok(None);
    };
    let Some(index) = index else {
        drop(of);
        return Ok(None);
    };
    let found = element(alloc, of, index)?;
    Ok(found)
}

/// The element of what begins at the first token, at an index at this place.
pub(crate) fn end_element<'a>(
    alloc: Global,
    of: Option<Typed<'a>>,
    index: Option<Typed<'a>>,
    first: u32,
    place: u32,
    progress: &mut Progress,
) -> Result<Option<Typed<'a>>, AllocError>
    ensures at { OnOk result (progress.new.at ≡ progress.old.at) }
    ensures faults { OnOk result (AreNoted progress.old progress.new
        (rule.index_faults first place (judged_tree of.entry) (judged_tree index.entry))) }
    ensures meant { IfOk result (λ j. judged_tree j
        ≡ rule.element_of (judged_tree of.entry) (judged_tree index.entry)) }
{
    note_index(progress, first, place, &of, &index);
    let found = element_of(alloc, of, index)?;
    Ok(found)
}
