// Terms out of their parts: a repetition of one alone is that one.
ghost use Rattle.std.specs.Prelude.{◌≡◌, map, IfOk};
ghost use Rattle.ioa_trees.specs.Trees.{Not, Minus, Compare, Group, Called};
ghost use Rattle.ioa_phrases.specs.Items.{or_tree, and_tree, index_tree, product_tree, sum_tree};
ghost use Rattle.ioa_trees.specs.Views.{view, view_factor, view_addend};

use crate::stop::or_stop;
use ioa_trees::tree::{Addend, Call, Factor, Relation, Term};
use std::alloc::{AllocError, Global};

pub(crate) fn or_of(alloc: Global, first: Term, others: Vec<Term>) -> Result<Term, AllocError>
    ensures { IfOk result (λ t. view t ≡ or_tree (view first) (map view others.items)) }
{
    if others.is_empty() {
        return Ok(first);
    }
    Ok(Term::Or(Box::new(alloc, first)?, others))
}

pub(crate) fn and_of(alloc: Global, first: Term, others: Vec<Term>) -> Result<Term, AllocError>
    ensures { IfOk result (λ t. view t ≡ and_tree (view first) (map view others.items)) }
{
    if others.is_empty() {
        return Ok(first);
    }
    Ok(Term::And(Box::new(alloc, first)?, others))
}

pub(crate) fn sum_of(alloc: Global, first: Term, others: Vec<Addend>) -> Result<Term, AllocError>
    ensures { IfOk result (λ t. view t ≡ sum_tree (view first) (map view_addend others.items)) }
{
    if others.is_empty() {
        return Ok(first);
    }
    Ok(Term::Sum(Box::new(alloc, first)?, others))
}

pub(crate) fn product_of(
    alloc: Global,
    first: Term,
    others: Vec<Factor>,
) -> Result<Term, AllocError>
    ensures { IfOk result (λ t. view t ≡ product_tree (view first) (map view_factor others.items)) }
{
    if others.is_empty() {
        return Ok(first);
    }
    Ok(Term::Product(Box::new(alloc, first)?, others))
}

pub(crate) fn index_of(alloc: Global, first: Term, others: Vec<Term>) -> Result<Term, AllocError>
    ensures { IfOk result (λ t. view t ≡ index_tree (view first) (map view others.items)) }
{
    if others.is_empty() {
        return Ok(first);
    }
    Ok(Term::Index(Box::new(alloc, first)?, others))
}

pub(crate) fn not_of(alloc: Global, inside: Term) -> Result<Term, AllocError>
    ensures { IfOk result (λ t. view t ≡ Not (view inside)) }
{
    Ok(Term::Not(Box::new(alloc, inside)?))
}

pub(crate) fn minus_of(alloc: Global, inside: Term) -> Result<Term, AllocError>
    ensures { IfOk result (λ t. view t ≡ Minus (view inside)) }
{
    Ok(Term::Minus(Box::new(alloc, inside)?))
}

pub(crate) fn group_of(alloc: Global, inside: Term) -> Result<Term, AllocError>
    ensures { IfOk result (λ t. view t ≡ Group (view inside)) }
{
    Ok(Term::Group(Box::new(alloc, inside)?))
}

pub(crate) fn call_of(alloc: Global, call: Call, inside: Term) -> Result<Term, AllocError>
    ensures { IfOk result (λ t. view t ≡ Called call (view inside)) }
{
    Ok(Term::Call(call, Box::new(alloc, inside)?))
}

pub(crate) fn compare_of(
    alloc: Global,
    left: Term,
    relation: Relation,
    right: Term,
) -> Result<Term, AllocError>
    ensures { IfOk result (λ t. view t ≡ Compare (view left) relation (view right)) }
{
    let left = or_stop!(Box::new(alloc, left), right);
    let right = Box::new(alloc, right)?;
    Ok(Term::Compare(left, relation, right))
}
