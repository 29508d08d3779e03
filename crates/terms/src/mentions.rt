//! Whether a term mentions a parameter of the action.
ghost use Rattle.std.specs.Prelude.{◌≡◌, map};
ghost use Rattle.terms.specs.Mentions.{mentions_parameter, link_mentions, links_mention};
ghost use Rattle.terms.specs.TermTree.{term_tree, operand_tree, link_tree};

use crate::term::{Link, Operand, Term};

/// Whether a parameter of the action stands somewhere in a term. One that mentions none has one value for all arguments.
#[cycle(mentions)]
pub fn mentions_parameter(term: &Term) -> bool
    ensures { result ≡ mentions_parameter (term_tree term.now) }
{
    let first = operand_mentions(&term.first);
    let links = links_mention(term.links.as_slice());
    first || links
}

#[cycle(mentions)]
fn links_mention(links: &[Link]) -> bool
    ensures { result ≡ links_mention (map link_tree links.now) }
{
    for link in links {
        if link_mentions(link) {
            return true;
        }
    }
    false
}

#[cycle(mentions)]
fn link_mentions(link: &Link) -> bool
    ensures { result ≡ link_mentions (link_tree link.now) }
{
    match link {
        Link::Operator(_, right) => mentions_parameter(right),
        Link::Modulo(_) => false,
    }
}

#[cycle(mentions)]
fn operand_mentions(operand: &Operand) -> bool
    ensures { result ≡ mentions_parameter (operand_tree operand.now) }
{
    match operand {
        Operand::Known(_) => false,
        Operand::Formal(_) => false,
        Operand::Parameter(_) => true,
        Operand::Loop(_) => false,
        Operand::Cell(_) => false,
        Operand::Not(a) => mentions_parameter(a),
        Operand::Negative(a) => mentions_parameter(a),
        Operand::Nearest(a, _, _) => mentions_parameter(a),
        Operand::Length(a) => mentions_parameter(a),
        Operand::Head(a, _) => mentions_parameter(a),
        Operand::Tail(a) => mentions_parameter(a),
        Operand::Append(a, b, _) => mentions_parameter(a) || mentions_parameter(b),
        Operand::Index(a, at, _) => mentions_parameter(a) || mentions_parameter(at),
        Operand::Empty => false,
        Operand::Fill(_, a) => mentions_parameter(a),
    }
}
