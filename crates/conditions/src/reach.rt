//! The highest parameter of the action that a term mentions.
ghost use Rattle.std.specs.Prelude.{◌≡◌, map, max, suc, IfOk};
ghost use Rattle.conditions.specs.Reach.{reach, link_reach, links_reach};
ghost use Rattle.terms.specs.TermTree.{term_tree, operand_tree, link_tree, linked};

use terms::{Link, NoMemory, Operand, Term};

/// The number of the highest parameter that a term mentions plus 1, or 0 where it mentions none. No
/// memory has room for so many parameters that this number doesn't fit.
#[cycle(reach)]
pub fn reach_of(term: &Term) -> Result<usize, NoMemory>
    ensures { IfOk result (λ n. n ≡ reach (term_tree term.now)) }
{
    let first = operand_reach(&term.first)?;
    let links = links_reach(term.links.as_slice())?;
    Ok(highest(first, links))
}

/// The greater of two numbers.
pub(crate) fn highest(a: usize, b: usize) -> usize
    ensures { result ≡ max a b }
{
    if a < b { b } else { a }
}

// The number after this one.
fn next(n: usize) -> Result<usize, NoMemory>
    ensures { IfOk result (λ m. m ≡ suc n) }
{
    match n.checked_add(1) {
        Some(m) => Ok(m),
        None => Err(NoMemory),
    }
}

#[cycle(reach)]
fn links_reach(links: &[Link]) -> Result<usize, NoMemory>
    ensures { IfOk result (λ n. n ≡ links_reach (map link_tree links.now)) }
{
    let mut reach = 0;
    for link in links {
        reach = highest(reach, link_reach(link)?);
    }
    Ok(reach)
}

#[cycle(reach)]
fn link_reach(link: &Link) -> Result<usize, NoMemory>
    ensures { IfOk result (λ n. n ≡ link_reach (link_tree link.now)) }
{
    match link {
        Link::Operator(_, right) => reach_of(right),
        Link::Modulo(_) => Ok(0),
    }
}

#[cycle(reach)]
fn operand_reach(operand: &Operand) -> Result<usize, NoMemory>
    ensures { IfOk result (λ n. n ≡ reach (operand_tree operand.now)) }
{
    match operand {
        Operand::Known(_) => Ok(0),
        Operand::Formal(_) => Ok(0),
        Operand::Parameter(n) => next(*n),
        Operand::Loop(_) => Ok(0),
        Operand::Cell(_) => Ok(0),
        Operand::Not(a) => reach_of(a),
        Operand::Negative(a) => reach_of(a),
        Operand::Nearest(a, _, _) => reach_of(a),
        Operand::Length(a) => reach_of(a),
        Operand::Head(a, _) => reach_of(a),
        Operand::Tail(a) => reach_of(a),
        Operand::Append(a, b, _) => Ok(highest(reach_of(a)?, reach_of(b)?)),
        Operand::Index(a, at, _) => Ok(highest(reach_of(a)?, reach_of(at)?)),
        Operand::Empty => Ok(0),
        Operand::Fill(_, a) => reach_of(a),
    }
}
