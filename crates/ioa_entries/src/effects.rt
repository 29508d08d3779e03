//! Effects put together from their parts.
ghost use Rattle.std.specs.Prelude.{◌≡◌, IfOk, Option, map};
ghost use Rattle.terms.specs.EffectTree.{EffectTree};
ghost use Rattle.ioa_trees.specs.EffectRules as rule;
ghost use Rattle.ioa_entries.specs.EffectLists.{before, chained, choice, for_of, led_by, led_on};
ghost use Rattle.ioa_entries.specs.EffectViews.{arm_tree, done_tree, members_of};
ghost use Rattle.ioa_typing.specs.KindViews.{option_tree};
ghost use Rattle.ioa_typing.specs.TermViews.{core_tree};

use ioa_typing::Kind;
use ioa_typing::kind::can_be_listed;
use ioa_typing::listing::listed_of;
use std::alloc::{AllocError, Global};
use terms::{Effect, Last, Listed, Part, Term};

/// A branch: its condition, and what is done where it holds.
#[derive(Drop)]
pub(crate) struct Arm {
    pub(crate) test: Option<Term>,
    pub(crate) body: Option<Effect>,
}

// Parts, one for each effect, before what follows; none where an effect is missing.
fn parts_of(alloc: Global, effects: Vec<Option<Effect>>) -> Result<Option<Vec<Part>>, AllocError>
    ensures { IfOk result (λ parts. (rest : Option EffectTree)
        → led_by parts rest ≡ before (map done_tree effects.items) rest) }
{
    let mut parts = Vec::with_capacity(alloc, effects.len())?;
    for effect in effects {
        match part_of(effect) {
            Some(part) => parts.push(part)?,
            None => return Ok(None),
        }
    }
    Ok(Some(parts))
}

fn part_of(effect: Option<Effect>) -> Option<Part>
    ensures { (rest : Option EffectTree)
        → led_on result rest ≡ rule.in_order (done_tree effect) rest }
{
    match effect {
        Some(effect) => Some(Part::Before(effect)),
        None => None,
    }
}

// Parts, one for each branch; none where something is missing in one.
fn branches_of(alloc: Global, arms: Vec<Arm>) -> Result<Option<Vec<Part>>, AllocError>
    ensures { IfOk result (λ parts. (rest : Option EffectTree)
        → led_by parts rest ≡ choice (map arm_tree arms.items) rest) }
{
    let mut parts = Vec::with_capacity(alloc, arms.len())?;
    for arm in arms {
        match branch_of(arm) {
            Some(branch) => parts.push(branch)?,
            None => return Ok(None),
        }
    }
    Ok(Some(parts))
}

fn branch_of(arm: Arm) -> Option<Part>
    ensures { (rest : Option EffectTree)
        → led_on result rest ≡ rule.branch_of (core_tree arm.test) (done_tree arm.body) rest }
{
    let Arm { test, body } = arm;
    let Some(test) = test else {
        drop(body);
        return None;
    };
    let Some(body) = body else {
        drop(test);
        return None;
    };
    Some(Part::Branch(test, body))
}

// The effect behind the parts, where both are there.
fn behind(parts: Option<Vec<Part>>, rest: Option<Effect>) -> Result<Option<Effect>, AllocError>
    ensures { IfOk result (λ e. done_tree e ≡ led_by parts (done_tree rest)) }
{
    let Some(parts) = parts else {
        drop(rest);
        return Ok(None);
    };
    let Some(rest) = rest else {
        drop(parts);
        return Ok(None);
    };
    Ok(Some(rest.behind(parts)?))
}

/// Effects one after the other.
#[tactic(auto, using(crate::proofs::Chained::chained_last, crate::proofs::Chained::map_last))]
pub(crate) fn chain(
    alloc: Global,
    effects: Vec<Option<Effect>>,
) -> Result<Option<Effect>, AllocError>
    ensures { IfOk result (λ e. done_tree e ≡ chained (map done_tree effects.items)) }
{
    let mut effects = effects;
    let Some(last) = effects.pop() else {
        return Ok(Some(Effect::of(alloc, Last::Nothing)));
    };
    match parts_of(alloc, effects) {
        Ok(parts) => behind(parts, last),
        Err(refused) => {
            drop(last);
            Err(refused)
        }
    }
}

/// The first branch whose condition holds, else what is done otherwise.
pub(crate) fn choose(
    alloc: Global,
    arms: Vec<Arm>,
    otherwise: Option<Effect>,
) -> Result<Option<Effect>, AllocError>
    ensures { IfOk result (λ e. done_tree e
        ≡ choice (map arm_tree arms.items) (done_tree otherwise)) }
{
    match branches_of(alloc, arms) {
        Ok(parts) => behind(parts, otherwise),
        Err(refused) => {
            drop(otherwise);
            Err(refused)
        }
    }
}

/// The members over which a loop goes.
pub(crate) fn members_of(kind: &Option<Kind>) -> Option<Listed>
    ensures { result ≡ members_of (option_tree kind.now) }
{
    match kind {
        Some(kind) if can_be_listed(kind) => Some(listed_of(kind)),
        _ => None,
    }
}

/// A loop of this number.
pub(crate) fn loop_of(
    alloc: Global,
    number: usize,
    members: Option<Listed>,
    body: Option<Effect>,
) -> Result<Option<Effect>, AllocError>
    ensures { IfOk result (λ e. done_tree e ≡ for_of number members (done_tree body)) }
{
    let Some(members) = members else {
        drop(body);
        return Ok(None);
    };
    let Some(body) = body else {
        return Ok(None);
    };
    let body = Box::new(alloc, body)?;
    Ok(Some(Effect::of(alloc, Last::For(number, members, body))))
}
