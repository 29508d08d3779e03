//! Whether terms and effects are the same trees.
ghost use Rattle.std.specs.Prelude.{◌≡◌, map};
ghost use Rattle.std.specs.Cmp.{partial_equiv_from_equiv};
ghost use Rattle.terms.specs.EffectTree.{effect_tree, last_tree, part_tree};
ghost use Rattle.terms.specs.SameTrees.{same_shape, same_term, same_link, same_links, same_effect, same_part, same_parts, spine, tail};
ghost use Rattle.terms.specs.ShapeTree.{shape_tree};
ghost use Rattle.terms.specs.SameTreeLaws.{term_laws, effect_laws};
ghost use Rattle.terms.specs.TermTree.{term_tree, operand_tree, link_tree};

use crate::effect::{Effect, Last, Part};
use crate::scalar::Shape;
use crate::term::{Link, Operand, Term};

impl PartialEq for Term {
    ghost eq = { λ a b. same_term (term_tree a) (term_tree b) };

    ghost laws = { partial_equiv_from_equiv term_laws };

    fn eq(&self, other: &Term) -> bool {
        is_same_term(self, other)
    }
}

impl Eq for Term {
    ghost laws = { term_laws };
}

#[cycle(same_terms)]
fn is_same_term(a: &Term, b: &Term) -> bool
    ensures { result ≡ same_term (term_tree a.now) (term_tree b.now) }
{
    is_same_operand(&a.first, &b.first) && are_same_links(a.links.as_slice(), b.links.as_slice())
}

#[cycle(same_terms)]
fn are_same_links(a: &[Link], b: &[Link]) -> bool
    ensures { result ≡ same_links (map link_tree a.now) (map link_tree b.now) }
{
    if a.len() != b.len() {
        return false;
    }
    for (at, link) in a.iter().enumerate() {
        if !is_same_link(link, &b[at]) {
            return false;
        }
    }
    true
}

#[cycle(same_terms)]
fn is_same_link(a: &Link, b: &Link) -> bool
    ensures { result ≡ same_link (link_tree a.now) (link_tree b.now) }
{
    match (a, b) {
        (Link::Operator(one, x), Link::Operator(other, y)) => one == other && is_same_term(x, y),
        (Link::Modulo(k), Link::Modulo(l)) => k == l,
        (Link::Operator(_, _), Link::Modulo(_)) => false,
        (Link::Modulo(_), Link::Operator(_, _)) => false,
    }
}

#[cycle(same_terms)]
fn is_same_operand(a: &Operand, b: &Operand) -> bool
    ensures same { result ≡ same_term (operand_tree a.now) (operand_tree b.now) }
    ensures first { spine (operand_tree a.now) ≡ 0 }
    ensures other { spine (operand_tree b.now) ≡ 0 }
{
    match (a, b) {
        (Operand::Known(x), Operand::Known(y)) => x == y,
        (Operand::Formal(m), Operand::Formal(n)) => m == n,
        (Operand::Parameter(m), Operand::Parameter(n)) => m == n,
        (Operand::Loop(m), Operand::Loop(n)) => m == n,
        (Operand::Cell(m), Operand::Cell(n)) => m == n,
        (Operand::Not(x), Operand::Not(y)) => is_same_term(x, y),
        (Operand::Negative(x), Operand::Negative(y)) => is_same_term(x, y),
        (Operand::Nearest(x, a, b), Operand::Nearest(y, c, d)) => {
            is_same_term(x, y) && (a == c && b == d)
        }
        (Operand::Length(x), Operand::Length(y)) => is_same_term(x, y),
        (Operand::Head(x, a), Operand::Head(y, b)) => is_same_term(x, y) && is_same_shape(a, b),
        (Operand::Tail(x), Operand::Tail(y)) => is_same_term(x, y),
        (Operand::Append(x, a, m), Operand::Append(y, b, n)) => {
            is_same_term(x, y) && (is_same_term(a, b) && m == n)
        }
        (Operand::Index(x, a, l), Operand::Index(y, b, m)) => {
            is_same_term(x, y) && (is_same_term(a, b) && l == m)
        }
        (Operand::Empty, Operand::Empty) => true,
        (Operand::Fill(m, x), Operand::Fill(n, y)) => m == n && is_same_term(x, y),
        _ => false,
    }
}

#[tactic(auto, using(crate::specs::DerivedSame::derived_same))]
fn is_same_shape(a: &Shape, b: &Shape) -> bool
    ensures { result ≡ same_shape (shape_tree a.now) (shape_tree b.now) }
{
    a == b
}

impl PartialEq for Effect {
    ghost eq = { λ a b. same_effect (effect_tree a) (effect_tree b) };

    ghost laws = { partial_equiv_from_equiv effect_laws };

    fn eq(&self, other: &Effect) -> bool {
        is_same_effect(self, other)
    }
}

impl Eq for Effect {
    ghost laws = { effect_laws };
}

#[cycle(same_effects)]
fn is_same_effect(a: &Effect, b: &Effect) -> bool
    ensures { result ≡ same_effect (effect_tree a.now) (effect_tree b.now) }
{
    is_same_last(&a.last, &b.last) && are_same_parts(a.parts.as_slice(), b.parts.as_slice())
}

#[cycle(same_effects)]
fn are_same_parts(a: &[Part], b: &[Part]) -> bool
    ensures { result ≡ same_parts (map part_tree a.now) (map part_tree b.now) }
{
    if a.len() != b.len() {
        return false;
    }
    for (at, part) in a.iter().enumerate() {
        if !is_same_part(part, &b[at]) {
            return false;
        }
    }
    true
}

#[cycle(same_effects)]
fn is_same_part(a: &Part, b: &Part) -> bool
    ensures { result ≡ same_part (part_tree a.now) (part_tree b.now) }
{
    match (a, b) {
        (Part::Before(x), Part::Before(y)) => is_same_effect(x, y),
        (Part::Branch(s, x), Part::Branch(t, y)) => s == t && is_same_effect(x, y),
        (Part::Before(_), Part::Branch(_, _)) => false,
        (Part::Branch(_, _), Part::Before(_)) => false,
    }
}

#[cycle(same_effects)]
fn is_same_last(a: &Last, b: &Last) -> bool
    ensures same { result ≡ same_effect (last_tree a.now) (last_tree b.now) }
    ensures first { tail (last_tree a.now) ≡ 0 }
    ensures other { tail (last_tree b.now) ≡ 0 }
{
    match (a, b) {
        (Last::Nothing, Last::Nothing) => true,
        (Last::Assign(m, s), Last::Assign(n, t)) => m == n && s == t,
        (Last::AssignItem(m, s, index, v), Last::AssignItem(n, t, listed, w)) => {
            m == n && (s == t && (index == listed && v == w))
        }
        (Last::For(m, index, x), Last::For(n, listed, y)) => {
            m == n && (index == listed && is_same_effect(x, y))
        }
        _ => false,
    }
}
