//! Laws of terms and effects that the crates above cite.
ghost use Rattle.std.specs.Prelude.{◌≡◌};
ghost use Rattle.std.specs.Bool.{Decides};
ghost use Rattle.terms.specs.ShapeTree.{shape_tree};
ghost use Rattle.terms.specs.TermTree.{term_tree};
ghost use Rattle.terms.specs.EffectTree.{effect_tree};

use crate::{Effect, Shape, Term};

/// Two types are equal exactly where they are the same tree.
#[tactic(auto, using(crate::specs::DerivedSame::equal_shapes))]
pub fn equal_shapes_law(a: &Shape, b: &Shape)
    ensures { Decides (⟦<Shape as PartialEq>⟧.eq a.now b.now)
        (shape_tree a.now ≡ shape_tree b.now) }
{}

/// Two terms are equal exactly where they are the same tree.
#[tactic(auto, using(crate::specs::SameTreeLaws::term_decides))]
pub fn equal_terms_law(a: &Term, b: &Term)
    ensures { Decides (⟦<Term as PartialEq>⟧.eq a.now b.now) (term_tree a.now ≡ term_tree b.now) }
{}

/// Two effects are equal exactly where they are the same tree.
#[tactic(auto, using(crate::specs::SameTreeLaws::effect_decides))]
pub fn equal_effects_law(a: &Effect, b: &Effect)
    ensures { Decides (⟦<Effect as PartialEq>⟧.eq a.now b.now)
        (effect_tree a.now ≡ effect_tree b.now) }
{}
