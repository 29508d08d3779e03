//! Effects, their names resolved to numbers.
ghost use Rattle.std.specs.Prelude.{◌≡◌, IfOk, map};
ghost use Rattle.terms.specs.EffectTree.{effect_tree, ended, last_tree, part_tree};

use crate::scalar::Listed;
use crate::term::Term;
use std::alloc::{AllocError, Global};

/// What a transition does to its state: the parts, one after the other, and then the last. It is as deep as its source
/// nests, since what a source repeats is a list.
#[derive(Drop)]
#[cycle(of_effects)]
pub struct Effect {
    pub parts: Vec<Part>,
    pub last: Last,
}

/// A part of an effect that something follows.
#[derive(Drop)]
#[cycle(of_effects)]
pub enum Part {
    /// It is done before what follows.
    Before(Effect),
    /// Where the term is true, it is done in place of what follows.
    Branch(Term, Effect),
}

/// What stands last in an effect.
#[derive(Drop)]
#[cycle(of_effects)]
pub enum Last {
    /// The state stays.
    Nothing,
    /// The variable of this number gets the value of the term.
    Assign(usize, Term),
    /// The item of an array variable, at the first term put into the index type, gets the value of the second term.
    AssignItem(usize, Term, Listed, Term),
    /// The body once for each member, in order, with the member as the loop variable of this number (0 to 2).
    For(usize, Listed, Box<Effect>),
}

impl Effect {
    /// An effect without parts.
    pub fn of(alloc: Global, last: Last) -> Effect
        ensures { effect_tree result ≡ last_tree last }
    {
        Effect {
            parts: Vec::new(alloc),
            last,
        }
    }

    /// The parts, one after the other, and then the effect.
    #[tactic(auto, using(crate::specs::Linked::behind_parts))]
    pub fn behind(self, before: Vec<Part>) -> Result<Effect, AllocError>
        ensures { IfOk result (λ effect. effect_tree effect
            ≡ ended (map part_tree before.items) (effect_tree self)) }
    {
        let Effect { mut parts, last } = self;
        let mut all = before;
        all.append(&mut parts)?;
        Ok(Effect { parts: all, last })
    }
}
