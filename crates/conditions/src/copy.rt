//! Copies of terms.
ghost use Rattle.std.specs.Prelude.{◌≡◌, map, IfOk};
ghost use Rattle.terms.specs.ShapeTree.{shape_tree};
ghost use Rattle.terms.specs.TermTree.{linked, link_tree, operand_tree, term_tree};

use std::alloc::{AllocError, Global};
use terms::{Link, Operand, Shape, Term};

/// A term like another.
#[cycle(copy)]
pub(crate) fn copy(alloc: Global, term: &Term) -> Result<Term, AllocError>
    ensures { IfOk result (λ copy. term_tree copy ≡ term_tree term.now) }
{
    let links = links_copy(alloc, term.links.as_slice())?;
    let first = operand_copy(alloc, &term.first)?;
    Ok(Term { first, links })
}

/// A term of an operand like another and links like others.
pub(crate) fn chain(alloc: Global, first: &Operand, links: &[Link]) -> Result<Term, AllocError>
    ensures { IfOk result (λ copy. term_tree copy
        ≡ linked (operand_tree first.now) (map link_tree links.now)) }
{
    let links = links_copy(alloc, links)?;
    let first = operand_copy(alloc, first)?;
    Ok(Term { first, links })
}

#[cycle(copy)]
fn links_copy(alloc: Global, links: &[Link]) -> Result<Vec<Link>, AllocError>
    ensures { IfOk result (λ copies. map link_tree copies.items ≡ map link_tree links.now) }
{
    let mut copies = Vec::new(alloc);
    for link in links {
        copies.push(link_copy(alloc, link)?)?;
    }
    Ok(copies)
}

#[cycle(copy)]
fn link_copy(alloc: Global, link: &Link) -> Result<Link, AllocError>
    ensures { IfOk result (λ copy. link_tree copy ≡ link_tree link.now) }
{
    match link {
        Link::Operator(operator, right) => Ok(Link::Operator(*operator, copy(alloc, right)?)),
        Link::Modulo(divisor) => Ok(Link::Modulo(*divisor)),
    }
}

// A copy behind a pointer.
#[cycle(copy)]
fn boxed(alloc: Global, term: &Term) -> Result<Box<Term>, AllocError>
    ensures { IfOk result (λ copy. term_tree copy.value ≡ term_tree term.now) }
{
    let copy = copy(alloc, term)?;
    Ok(Box::new(alloc, copy)?)
}

#[cycle(copy)]
fn operand_copy(alloc: Global, operand: &Operand) -> Result<Operand, AllocError>
    ensures { IfOk result (λ copy. operand_tree copy ≡ operand_tree operand.now) }
{
    match operand {
        Operand::Known(scalar) => Ok(Operand::Known(*scalar)),
        Operand::Formal(n) => Ok(Operand::Formal(*n)),
        Operand::Parameter(n) => Ok(Operand::Parameter(*n)),
        Operand::Loop(n) => Ok(Operand::Loop(*n)),
        Operand::Cell(n) => Ok(Operand::Cell(*n)),
        Operand::Not(a) => Ok(Operand::Not(boxed(alloc, a)?)),
        Operand::Negative(a) => Ok(Operand::Negative(boxed(alloc, a)?)),
        Operand::Nearest(a, low, high) => Ok(Operand::Nearest(boxed(alloc, a)?, *low, *high)),
        Operand::Length(a) => Ok(Operand::Length(boxed(alloc, a)?)),
        Operand::Head(a, item) => {
            let item = shape_copy(alloc, item)?;
            Ok(Operand::Head(boxed(alloc, a)?, item))
        }
        Operand::Tail(a) => Ok(Operand::Tail(boxed(alloc, a)?)),
        Operand::Append(a, b, room) => {
            let list = boxed(alloc, a)?;
            Ok(Operand::Append(list, boxed(alloc, b)?, *room))
        }
        Operand::Index(a, at, index) => {
            let array = boxed(alloc, a)?;
            Ok(Operand::Index(array, boxed(alloc, at)?, *index))
        }
        Operand::Empty => Ok(Operand::Empty),
        Operand::Fill(count, a) => Ok(Operand::Fill(*count, boxed(alloc, a)?)),
    }
}

/// A type like another.
fn shape_copy(alloc: Global, shape: &Shape) -> Result<Shape, AllocError>
    ensures { IfOk result (λ copy. shape_tree copy ≡ shape_tree shape.now) }
{
    match shape {
        Shape::Int => Ok(Shape::Int),
        Shape::Range(low, high) => Ok(Shape::Range(*low, *high)),
        Shape::Listed(listed) => Ok(Shape::Listed(*listed)),
        Shape::Seq(item, room) => {
            let item = shape_copy(alloc, item)?;
            Ok(Shape::Seq(Box::new(alloc, item)?, *room))
        }
        Shape::Array(index, item) => {
            let item = shape_copy(alloc, item)?;
            Ok(Shape::Array(*index, Box::new(alloc, item)?))
        }
    }
}
