//! A term that has to be true or false as branches, of which one has to hold: what `and` joins is
//! put below what `or` joins.
ghost use Rattle.std.specs.Prelude.{◌≡◌, ◌≤◌, ◌++◌, ◌&&◌, ◌||◌, List, length, map};
ghost use Rattle.std.specs.Prelude.{IfOk, IfSome, OnOk};
ghost use Rattle.conditions.specs.Branches.{Stand, joined, one_holds, test_tree};
ghost use Rattle.conditions.specs.Conditions.{tests_hold};
ghost use Rattle.terms.specs.Datum.{Datum};
ghost use Rattle.terms.specs.Meaning.{Scope};
ghost use Rattle.terms.specs.TermTree.{TermTree, linked, link_on};
ghost use Rattle.terms.specs.TermTree.{link_tree, operand_tree, term_tree};

use crate::condition::Test;
use crate::copy::{chain, copy};
use std::alloc::{AllocError, Global};
use terms::{Link, Operand, Operator, Term};

/// A term has no more branches than this; what would have more is one test.
const MOST_BRANCHES: usize = 16;

/// The branches of a term that has to be true, or has to be false.
#[cycle(branches)]
pub(crate) fn branches_of(
    alloc: Global,
    term: &Term,
    is: bool,
) -> Result<Vec<Vec<Test>>, AllocError>
    ensures stand { IfOk result (λ branches. Stand (term_tree term.now) is branches.items) }
    ensures few { IfOk result (λ branches. length branches.items ≤ 16) }
{
    let links = term.links.as_slice();
    let mut branches = operand_branches(alloc, &term.first, is)?;
    for (place, link) in links.iter().enumerate() {
        match opened(alloc, branches, link, is)? {
            Some(more) => branches = more,
            None => branches = one_test(alloc, &term.first, &links[..=place], is)?,
        }
    }
    Ok(branches)
}

// The branches of an operand: `not` changes what has to be, and all else is one test.
#[cycle(branches)]
fn operand_branches(alloc: Global, first: &Operand, is: bool) -> Result<Vec<Vec<Test>>, AllocError>
    ensures stand { IfOk result (λ branches. Stand (operand_tree first.now) is branches.items) }
    ensures few { IfOk result (λ branches. length branches.items ≤ 16) }
{
    match first {
        Operand::Not(a) => branches_of(alloc, a, !is),
        _ => one_test(alloc, first, &[], is),
    }
}

// The branches of a chain with one more link, if it is opened there: `and` and `or` change places
// under `not`.
#[cycle(branches)]
fn opened(
    alloc: Global,
    before: Vec<Vec<Test>>,
    link: &Link,
    is: bool,
) -> Result<Option<Vec<Vec<Test>>>, AllocError>
    ensures stand { IfOk result (λ found. IfSome found (λ branches. (t : TermTree)
        → Stand t is before.items → Stand (link_on t (link_tree link.now)) is branches.items)) }
    ensures few { IfOk result (λ found. IfSome found (λ branches. length branches.items ≤ 16)) }
{
    match link {
        Link::Modulo(_) => Ok(None),
        Link::Operator(operator, right) => match operator {
            Operator::Both => meet(alloc, before, branches_of(alloc, right, is)?, is),
            Operator::Either => meet(alloc, before, branches_of(alloc, right, is)?, !is),
            _ => Ok(None),
        },
    }
}

// One branch of one test.
fn one_test(
    alloc: Global,
    first: &Operand,
    links: &[Link],
    is: bool,
) -> Result<Vec<Vec<Test>>, AllocError>
    ensures stand { IfOk result (λ branches.
        Stand (linked (operand_tree first.now) (map link_tree links.now)) is branches.items) }
    ensures few { IfOk result (λ branches. length branches.items ≤ 16) }
{
    let term = chain(alloc, first, links)?;
    let mut tests = Vec::new(alloc);
    tests.push(Test { term, is })?;
    let mut branches = Vec::new(alloc);
    branches.push(tests)?;
    Ok(branches)
}

// The branches in which both of two have to hold, or either; none where they would be too many.
fn meet(
    alloc: Global,
    first: Vec<Vec<Test>>,
    second: Vec<Vec<Test>>,
    both: bool,
) -> Result<Option<Vec<Vec<Test>>>, AllocError>
    ensures hold { IfOk result (λ found. IfSome found (λ branches.
        (scope : Scope) (state : List Datum) → one_holds scope state branches.items
        ≡ joined both (one_holds scope state first.items) (one_holds scope state second.items))) }
    ensures few { IfOk result (λ found. IfSome found (λ branches. length branches.items ≤ 16)) }
{
    let branches = if both {
        products(alloc, first.as_slice(), second.as_slice())?
    } else {
        together(first, second)?
    };
    if branches.len() > MOST_BRANCHES {
        return Ok(None);
    }
    Ok(Some(branches))
}

// The branches of two, one after another.
fn together(first: Vec<Vec<Test>>, second: Vec<Vec<Test>>) -> Result<Vec<Vec<Test>>, AllocError>
    ensures { IfOk result (λ branches. branches.items ≡ first.items ++ second.items) }
{
    let mut all = first;
    let mut rest = second;
    all.append(&mut rest)?;
    Ok(all)
}

// Each branch of the first with each of the second.
fn products(
    alloc: Global,
    first: &[Vec<Test>],
    second: &[Vec<Test>],
) -> Result<Vec<Vec<Test>>, AllocError>
    ensures { IfOk result (λ branches. (scope : Scope) (state : List Datum)
        → one_holds scope state branches.items
        ≡ one_holds scope state first.now && one_holds scope state second.now) }
{
    let mut all = Vec::new(alloc);
    for tests in first {
        add_products(alloc, &mut all, tests.as_slice(), second)?;
    }
    Ok(all)
}

// Adds the products of one branch with each of others.
fn add_products(
    alloc: Global,
    all: &mut Vec<Vec<Test>>,
    tests: &[Test],
    others: &[Vec<Test>],
) -> Result<(), AllocError>
    ensures { OnOk result ((scope : Scope) (state : List Datum)
        → one_holds scope state all.new.items
        ≡ one_holds scope state all.old.items
        || (tests_hold scope state tests.now && one_holds scope state others.now)) }
{
    for more in others {
        all.push(product(alloc, tests, more.as_slice())?)?;
    }
    Ok(())
}

// The tests of two branches.
fn product(alloc: Global, first: &[Test], second: &[Test]) -> Result<Vec<Test>, AllocError>
    ensures { IfOk result (λ tests.
        map test_tree tests.items ≡ map test_tree first.now ++ map test_tree second.now) }
{
    let mut tests = Vec::new(alloc);
    add_copies(alloc, &mut tests, first)?;
    add_copies(alloc, &mut tests, second)?;
    Ok(tests)
}

fn add_copies(alloc: Global, tests: &mut Vec<Test>, more: &[Test]) -> Result<(), AllocError>
    ensures { OnOk result (map test_tree tests.new.items
        ≡ map test_tree tests.old.items ++ map test_tree more.now) }
{
    for test in more {
        tests.push(test_copy(alloc, test)?)?;
    }
    Ok(())
}

/// A test like another.
pub(crate) fn test_copy(alloc: Global, test: &Test) -> Result<Test, AllocError>
    ensures { IfOk result (λ copy. test_tree copy ≡ test_tree test.now) }
{
    let term = copy(alloc, &test.term)?;
    Ok(Test { term, is: test.is })
}
