//! The values that tests say of parameters.
ghost use Rattle.std.specs.Prelude.{◌≡◌, ◌≤◌, suc, true, map, IfOk, IfSome};
ghost use Rattle.conditions.specs.Bounds.{Gives};
ghost use Rattle.conditions.specs.Conditions.{Binds};
ghost use Rattle.conditions.specs.Reach.{reach};
ghost use Rattle.terms.specs.declared.term.Operator.TheVariants.{Same};
ghost use Rattle.terms.specs.TermTree.{On, Parameter, linked, link_on, link_tree};
ghost use Rattle.terms.specs.TermTree.{operand_tree, term_tree};

use crate::condition::Test;
use crate::copy::{chain, copy};
use crate::reach::reach_of;
use std::alloc::Global;
use terms::{Link, NoMemory, Operand, Operator, Scalar, Term};

/// The value that the last of the first k parameters has where the tests hold, by the first test
/// that says one.
pub(crate) fn bound_of(alloc: Global, tests: &[Test], k: usize) -> Result<Option<Term>, NoMemory>
    ensures { IfOk result (λ bound. Binds k tests.now bound) }
{
    if k == 0 {
        return Ok(None);
    }
    first_bound(alloc, tests, k - 1)
}

fn first_bound(alloc: Global, tests: &[Test], p: usize) -> Result<Option<Term>, NoMemory>
    ensures { IfOk result (λ bound. Binds (suc p) tests.now bound) }
{
    for test in tests {
        if let Some(bound) = bound_by(alloc, test, p)? {
            return Ok(Some(bound));
        }
    }
    Ok(None)
}

// The value that a parameter has where a test holds, if the test says it by earlier parameters
// alone.
fn bound_by(alloc: Global, test: &Test, p: usize) -> Result<Option<Term>, NoMemory>
    ensures says { IfOk result (λ found. IfSome found (Gives p (term_tree test.now.term))) }
    ensures is { IfOk result (λ found. IfSome found (λ term. test.now.is ≡ true)) }
{
    if !test.is {
        return Ok(None);
    }
    let first = &test.term.first;
    match test.term.links.as_slice().split_last() {
        None => true_bound(alloc, first, p),
        Some((link, before)) => equal_bound(alloc, first, before, link, p),
    }
}

// A truth value that has to be true.
fn true_bound(alloc: Global, first: &Operand, p: usize) -> Result<Option<Term>, NoMemory>
    ensures { IfOk result (λ found. IfSome found (Gives p (operand_tree first.now))) }
{
    if is_parameter(first, p) {
        Ok(Some(Term::of(alloc, Operand::Known(Scalar::Bool(true)))))
    } else {
        Ok(None)
    }
}

// One side of an equation.
fn equal_bound(
    alloc: Global,
    first: &Operand,
    before: &[Link],
    link: &Link,
    p: usize,
) -> Result<Option<Term>, NoMemory>
    ensures { IfOk result (λ found. IfSome found (Gives p
        (link_on (linked (operand_tree first.now) (map link_tree before.now))
        (link_tree link.now)))) }
{
    let Some(right) = same_side(link) else {
        return Ok(None);
    };
    if is_alone(first, before, p) {
        return within(copy(alloc, right)?, p);
    }
    if is_alone(&right.first, right.links.as_slice(), p) {
        return within(chain(alloc, first, before)?, p);
    }
    Ok(None)
}

// The right side of an equation.
fn same_side(link: &Link) -> Option<&Term>
    ensures { IfSome result (λ right. link_tree link.now ≡ On Same (term_tree right.now)) }
{
    match link {
        Link::Operator(operator, right) => {
            if *operator == Operator::Same {
                Some(right)
            } else {
                None
            }
        }
        Link::Modulo(_) => None,
    }
}

// Whether a chain is a parameter and nothing else.
fn is_alone(first: &Operand, links: &[Link], p: usize) -> bool
    ensures { result ≡ true
        → linked (operand_tree first.now) (map link_tree links.now) ≡ Parameter p }
{
    if links.is_empty() {
        is_parameter(first, p)
    } else {
        false
    }
}

fn is_parameter(operand: &Operand, p: usize) -> bool
    ensures { result ≡ true → operand_tree operand.now ≡ Parameter p }
{
    match operand {
        Operand::Parameter(n) => *n == p,
        _ => false,
    }
}

// A term, if it mentions only the parameters before p.
fn within(term: Term, p: usize) -> Result<Option<Term>, NoMemory>
    ensures same { IfOk result (λ found. IfSome found (λ kept. kept ≡ term)) }
    ensures within { IfOk result (λ found. IfSome found (λ kept. reach (term_tree kept) ≤ p)) }
{
    if reach_of(&term)? <= p {
        Ok(Some(term))
    } else {
        Ok(None)
    }
}
