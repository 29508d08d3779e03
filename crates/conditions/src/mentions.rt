//! Whether a term mentions a parameter of the action.
ghost use Rattle.std.specs.Prelude.{◌≡◌, map};
ghost use Rattle.conditions.specs.Mentions.{mentions, link_mentions, links_mention};
ghost use Rattle.terms.specs.TermTree.{term_tree, operand_tree, link_tree};

use terms::{Link, Operand, Term};

/// Whether the parameter of this number stands somewhere in a term.
#[cycle(mentions)]
pub(crate) fn mentions(term: &Term, p: usize) -> bool
    ensures { result ≡ mentions p (term_tree term.now) }
{
    let first = operand_mentions(&term.first, p);
    let links = links_mention(term.links.as_slice(), p);
    first || links
}

#[cycle(mentions)]
fn links_mention(links: &[Link], p: usize) -> bool
    ensures { result ≡ links_mention p (map link_tree links.now) }
{
    for link in links {
        if link_mentions(link, p) {
            return true;
        }
    }
    false
}

#[cycle(mentions)]
fn link_mentions(link: &Link, p: usize) -> bool
    ensures { result ≡ link_mentions p (link_tree link.now) }
{
    match link {
        Link::Operator(_, right) => mentions(right, p),
        Link::Modulo(_) => false,
    }
}

#[cycle(mentions)]
fn operand_mentions(operand: &Operand, p: usize) -> bool
    ensures { result ≡ mentions p (operand_tree operand.now) }
{
    match operand {
        Operand::Known(_) => false,
        Operand::Formal(_) => false,
        Operand::Parameter(n) => *n == p,
        Operand::Loop(_) => false,
        Operand::Cell(_) => false,
        Operand::Not(a) => mentions(a, p),
        Operand::Negative(a) => mentions(a, p),
        Operand::Nearest(a, _, _) => mentions(a, p),
        Operand::Length(a) => mentions(a, p),
        Operand::Head(a, _) => mentions(a, p),
        Operand::Tail(a) => mentions(a, p),
        Operand::Append(a, b, _) => mentions(a, p) || mentions(b, p),
        Operand::Index(a, at, _) => mentions(a, p) || mentions(at, p),
        Operand::Empty => false,
        Operand::Fill(_, a) => mentions(a, p),
    }
}
