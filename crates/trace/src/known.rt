//! The names of a composition, by their texts.
ghost use Rattle.std.specs.Prelude.{◌≡◌, ◌∷◌, [], ℕ, Decides, IfSome, IfNone, IfOk, IfErr, map};
ghost use Rattle.terms.specs.Named.{Named};
ghost use Rattle.terms.specs.ShapeTree.{shape_tree};
ghost use Rattle.ioa_tokens.specs.Spelling.{IsName};
ghost use Rattle.ioa_tokens.specs.Tokens.{Name, toks_of};
ghost use Rattle.plans.specs.Plans.{action_texts, member_texts};
ghost use Rattle.trace.specs.TraceFile.{Blames};
ghost use Rattle.trace.specs.Written.{IsNumberOf, IsKnown, is_of, are_of};

use crate::line_fault::LineFault;
use ioa_tokens::laws::one_reading_law;
use ioa_tokens::{Kind, Token, TokensError, tokens};
use plans::Plan;
use std::alloc::Global;
use terms::{Action, Listed, NoMemory, Scalar, Shape};

fn is_just(tokens: &[Token], name: &str) -> bool
    ensures { Decides result (toks_of tokens.now ≡ Name name.now ∷ []) }
{
    match tokens {
        [token] => match token.kind {
            Kind::Name(text) => text == name,
            _ => false,
        },
        _ => false,
    }
}

// Whether the word is a name of the language, and so no reserved word.
pub(crate) fn is_name(alloc: Global, word: &str) -> Result<bool, NoMemory>
    ensures { IfOk result (λ is_name. Decides is_name (IsName word.now)) }
{
    one_reading_law();
    match tokens(alloc, word.as_bytes()) {
        Ok(tokens) => Ok(is_just(tokens.as_slice(), word)),
        Err(TokensError::NoMemory) => Err(NoMemory),
        Err(TokensError::NotAscii(_)) => Ok(false),
        Err(TokensError::BadToken(_)) => Ok(false),
    }
}

fn action_number(plan: &Plan, text: &str) -> Option<u16>
    ensures some { IfSome result (λ number. IsNumberOf (action_texts plan.now) text.now number) }
    ensures none { IfNone result
        ((number : ℕ) → IsNumberOf (action_texts plan.now) text.now number → ⊥) }
{
    let mut number: u16 = 0;
    while let Some(name) = plan.action_name(number) {
        if name.text.as_str() == text {
            return Some(number);
        }
        number = number.checked_add(1)?;
    }
    None
}

pub(crate) fn member_number(plan: &Plan, text: &str) -> Option<u16>
    ensures some { IfSome result (λ number. IsNumberOf (member_texts plan.now) text.now number) }
    ensures none { IfNone result
        ((number : ℕ) → IsNumberOf (member_texts plan.now) text.now number → ⊥) }
{
    let mut number: u16 = 0;
    while let Some(name) = plan.member_name(number) {
        if name == text {
            return Some(number);
        }
        number = number.checked_add(1)?;
    }
    None
}

fn is_of(shape: &Shape, argument: Scalar) -> bool
    ensures { result ≡ is_of (shape_tree shape.now) argument }
{
    match (shape, argument) {
        (Shape::Int, Scalar::Int(_)) => true,
        (Shape::Range(_, _), Scalar::Int(_)) => true,
        (Shape::Listed(Listed::Range { .. }), Scalar::Int(_)) => true,
        (Shape::Listed(Listed::Bool), Scalar::Bool(_)) => true,
        (Shape::Listed(Listed::Enumeration { first, count }), Scalar::Member(member)) => {
            *first <= member && member - *first < *count
        }
        _ => false,
    }
}

fn are_of(shapes: &[Shape], arguments: &[Scalar]) -> bool
    ensures { result ≡ are_of (map shape_tree shapes.now) arguments.now }
{
    match (shapes.split_first(), arguments.split_first()) {
        (Some((shape, shapes)), Some((argument, arguments))) => {
            is_of(shape, *argument) && are_of(shapes, arguments)
        }
        (None, None) => true,
        _ => false,
    }
}

// The action of the composition that has the name and the arguments.
pub(crate) fn action_of(plan: &Plan, name: &str, args: Vec<Scalar>) -> Result<Action, LineFault>
    ensures ok { IfOk result (λ action. IsKnown plan.now
        (record { name = name.now; args = args.items }) action) }
    ensures err { IfErr result
        (λ fault. Blames ⊥
        ((action : Named) → IsKnown plan.now (record { name = name.now; args = args.items }) action
        → ⊥) fault) }
{
    let Some(number) = action_number(plan, name) else {
        return Err(LineFault::Unknown);
    };
    match plan.action_name(number) {
        Some(declared) if are_of(declared.parameters.as_slice(), args.as_slice()) => Ok(Action::new(
            number, args,
        )),
        _ => Err(LineFault::Unknown),
    }
}
