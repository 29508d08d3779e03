//! Terms, their names resolved to numbers.

ghost use Rattle.std.specs.Prelude.{◌≡◌, IfOk};
ghost use Rattle.terms.specs.TermTree.{link_on, link_tree, operand_tree, term_tree};

use crate::scalar::{Listed, Scalar, Shape};
use std::alloc::{AllocError, Global};

/// What stands between two terms. `>` and `>=` are `Less` and `AtMost` with their sides turned round. Sums, differences
/// and products wrap round at 64 bits with a sign.
#[derive(Clone, Copy, PartialEq, Eq)]
pub enum Operator {
    Plus,
    Minus,
    Times,
    /// `=`, of values of one type.
    Same,
    /// `/=`
    Differs,
    /// `<`, of whole numbers.
    Less,
    /// `<=`
    AtMost,
    /// `and`
    Both,
    /// `or`
    Either,
}

/// A term, its names resolved to numbers: an operand, and the links that go on with it, each of which has all that
/// stands before it as its left operand. It is as deep as its source nests, since what a source repeats is a list.
#[derive(Drop)]
#[cycle(of_terms)]
pub struct Term {
    pub first: Operand,
    pub links: Vec<Link>,
}

/// What stands before the first operator of a term.
#[derive(Drop)]
#[cycle(of_terms)]
pub enum Operand {
    /// A literal.
    Known(Scalar),
    /// The formal of this number, from 0.
    Formal(usize),
    /// The parameter of the action of this number, from 0.
    Parameter(usize),
    /// The loop variable of this number, 0 to 2.
    Loop(usize),
    /// The state variable of this number, from 0.
    Cell(usize),
    Not(Box<Term>),
    Negative(Box<Term>),
    /// The nearest number of the range from the first to the second. It stands wherever a value is put in a place of a
    /// range.
    Nearest(Box<Term>, i64, i64),
    /// The length of a sequence.
    Length(Box<Term>),
    /// The first item of a sequence; of an empty one the default of the item's type.
    Head(Box<Term>, Shape),
    /// A sequence without its first item; an empty one is empty again.
    Tail(Box<Term>),
    /// A sequence with one more item at its end, unless it has as many as the number says.
    Append(Box<Term>, Box<Term>, usize),
    /// The item of an array at the second term, which is put into the index type.
    Index(Box<Term>, Box<Term>, Listed),
    /// The empty sequence.
    Empty,
    /// An array of so many items, all of one value.
    Fill(u16, Box<Term>),
}

/// What a term goes on with.
#[derive(Drop)]
#[cycle(of_terms)]
pub enum Link {
    /// An operator and its right operand.
    Operator(Operator, Term),
    /// The member of 0 to k - 1 that differs from the left operand by a multiple of k; 0 where k is below 1.
    Modulo(i64),
}

impl Term {
    /// A term of one operand.
    pub fn of(alloc: Global, operand: Operand) -> Term
        ensures { term_tree result ≡ operand_tree operand }
    {
        Term {
            first: operand,
            links: Vec::new(alloc),
        }
    }

    /// The term with one more link.
    #[tactic(auto, using(crate::specs::Linked::with_link))]
    pub fn with(self, link: Link) -> Result<Term, AllocError>
        ensures { IfOk result (λ term. term_tree term ≡ link_on (term_tree self) (link_tree link)) }
    {
        let Term { first, mut links } = self;
        links.push(link)?;
        Ok(Term { first, links })
    }
}
