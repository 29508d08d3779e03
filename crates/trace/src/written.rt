//! Numbers, arguments and actions, as a trace writes them.
ghost use Rattle.std.specs.Prelude.{◌≡◌, ◌++◌, ◌∷◌, [], ℕ, ℤ, ◌^◌, ◌<◌, List, IfSome, IfNone, IfOk, IfErr, IsSomeAnd, Some, FitsSigned};
ghost use Rattle.std.specs.Int.{w64};
ghost use Rattle.std.specs.List.{AllByRecursion};
ghost use Rattle.std.specs.Fmt.{decimal, signed_decimal};
ghost use Rattle.event_keys.specs.declared.key.Key.{Key};
ghost use Rattle.terms.specs.declared.scalar.Scalar.{Scalar as Argument};
ghost use Rattle.terms.specs.declared.scalar.Scalar.TheVariants.{Member};
ghost use Rattle.trace.specs.Lines.{argument_text, arguments_text, key_text};
ghost use Rattle.trace.specs.TraceFile.{Blames};
ghost use Rattle.trace.specs.Written.{IsArgument, IsKey, IsMember, IsWritten, Written, written_text};
ghost use Rattle.trace.specs.Separated.{IsClosed, IsSeparated};

use crate::known::{is_name, member_number};
use crate::line_fault::LineFault;
use itoa::Buffer;
use plans::Plan;
use std::alloc::Global;
use task_seed::lines::number_before;
use terms::Scalar;

// The text after the first space, where a number stands before it.
fn after_number(text: &str) -> Option<&str>
    ensures some { IfSome result
        (λ rest. (n : ℕ) × (n < 2 ^ 64) × (text.now ≡ decimal n ++ (32 ∷ rest.now))) }
    ensures only { (n : ℕ) (rest : List ℕ) → n < 2 ^ 64 → text.now ≡ decimal n ++ (32 ∷ rest)
        → IsSomeAnd result (λ r. r.now ≡ rest) }
{
    let (_, rest) = number_before(text)?;
    Some(rest)
}

// The text after a turn's key.
pub(crate) fn after_key(text: &str) -> Option<&str>
    ensures some { IfSome result
        (λ rest. (key : Key) × IsKey key × (text.now ≡ key_text key ++ rest.now)) }
    ensures only { (key : Key) (rest : List ℕ) → IsKey key → text.now ≡ key_text key ++ rest
        → IsSomeAnd result (λ r. r.now ≡ rest) }
{
    let rest = after_number(text)?;
    let rest = after_number(rest)?;
    after_number(rest)
}

fn whole(word: &str) -> Option<i64>
    ensures some { IfSome result (λ n. word.now ≡ signed_decimal n) }
    ensures only { (n : ℤ) → FitsSigned w64 n → word.now ≡ signed_decimal n → result ≡ Some n }
{
    match word.parse::<i64>() {
        Ok(value) if Buffer::new().format(value) == word => Some(value),
        _ => None,
    }
}

fn member(alloc: Global, plan: &Plan, word: &str) -> Result<Scalar, LineFault>
    ensures ok { IfOk result (λ argument. IsArgument plan.now argument
        × (word.now ≡ argument_text plan.now argument)) }
    ensures err { IfErr result
        (λ fault. Blames
        ((member : ℕ) → IsMember plan.now member → word.now ≡ argument_text plan.now (Member member)
        → ⊥) ⊥ fault) }
{
    match member_number(plan, word) {
        Some(member) if is_name(alloc, word)? => Ok(Scalar::Member(member)),
        _ => Err(LineFault::Bad),
    }
}

fn argument(alloc: Global, plan: &Plan, word: &str) -> Result<Scalar, LineFault>
    ensures ok { IfOk result (λ argument. IsArgument plan.now argument
        × (word.now ≡ argument_text plan.now argument)) }
    ensures err { IfErr result
        (λ fault. Blames
        ((argument : Argument) → IsArgument plan.now argument
        → word.now ≡ argument_text plan.now argument → ⊥) ⊥ fault) }
{
    match word {
        "true" => Ok(Scalar::Bool(true)),
        "false" => Ok(Scalar::Bool(false)),
        _ => match whole(word) {
            Some(value) => Ok(Scalar::Int(value)),
            None => member(alloc, plan, word),
        },
    }
}

// The arguments between commas.
fn arguments(alloc: Global, plan: &Plan, text: &str) -> Result<Vec<Scalar>, LineFault>
    ensures ok { IfOk result (λ args. IsSeparated plan.now text.now args.items) }
    ensures err { IfErr result
        (λ fault. Blames
        ((args : List Argument) → IsSeparated plan.now text.now args → ⊥) ⊥ fault) }
{
    let mut args = Vec::new(alloc);
    let mut rest = text;
    while let Some((word, later)) = rest.split_once(',') {
        args.push(argument(alloc, plan, word)?)?;
        rest = later;
    }
    args.push(argument(alloc, plan, rest)?)?;
    Ok(args)
}

fn bracketed(alloc: Global, plan: &Plan, text: &str) -> Result<Vec<Scalar>, LineFault>
    ensures ok { IfOk result (λ args. IsClosed plan.now text.now args.items) }
    ensures err { IfErr result
        (λ fault. Blames ((args : List Argument) → IsClosed plan.now text.now args → ⊥) ⊥ fault) }
{
    match text.strip_suffix(')') {
        Some(inner) => arguments(alloc, plan, inner),
        None => Err(LineFault::Bad),
    }
}

// The name before the first bracket, and the arguments.
fn name_and_arguments<'a>(
    alloc: Global,
    plan: &Plan,
    text: &'a str,
) -> Result<(&'a str, Vec<Scalar>), LineFault>
    ensures args { IfOk result (λ r. AllByRecursion (IsArgument plan.now) r.1.items) }
    ensures text { IfOk result (λ r. text.now ≡ r.0.now ++ arguments_text plan.now r.1.items) }
    ensures name { IfOk result (λ r. (written : Written) → IsWritten plan.now written
        → text.now ≡ written_text plan.now written → written.name ≡ r.0.now) }
    ensures err { IfErr result
        (λ fault. Blames
        ((written : Written) → IsWritten plan.now written → text.now ≡ written_text plan.now written
        → ⊥) ⊥ fault) }
{
    match text.split_once('(') {
        Some((name, rest)) => Ok((name, bracketed(alloc, plan, rest)?)),
        None => Ok((text, Vec::new(alloc))),
    }
}

// The name and the arguments that the text has.
pub(crate) fn written<'a>(
    alloc: Global,
    plan: &Plan,
    text: &'a str,
) -> Result<(&'a str, Vec<Scalar>), LineFault>
    ensures ok { IfOk result (λ r. IsWritten plan.now (record { name = r.0.now; args = r.1.items })
        × (text.now ≡ written_text plan.now (record { name = r.0.now; args = r.1.items }))) }
    ensures err { IfErr result
        (λ fault. Blames
        ((written : Written) → IsWritten plan.now written → text.now ≡ written_text plan.now written
        → ⊥) ⊥ fault) }
{
    let (name, args) = name_and_arguments(alloc, plan, text)?;
    if is_name(alloc, name)? {
        Ok((name, args))
    } else {
        Err(LineFault::Bad)
    }
}
