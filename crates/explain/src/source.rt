//! What people are told of a refused source.
ghost use Rattle.std.specs.Prelude.{◌≡◌, ℕ, IfOk, Option};
ghost use Rattle.ioa_tokens.specs.Cutting.{IsTokens};
ghost use Rattle.ioa_tokens.specs.Tokens.{placed};
ghost use Rattle.ioa_check.specs.Refusals.{check_place};
ghost use Rattle.explain.specs.Explanations.{IsExplanation};
ghost use Rattle.explain.specs.Marks.{IsTokenMark};

use crate::advice::{Advice, advise_bytes, advise_component, advise_token};
use crate::marks::{mark_of, token_place};
use crate::outline::{marked_token, outline};
use crate::texts::sentence;
use compose::{ComposeError, SourceError};
use excerpts::{Mark, Told, explanation};
use ioa_check::CheckError;
use ioa_front::ReadError;
use ioa_tokens::{Token, TokensError, tokens};
use std::alloc::Global;
use terms::{NoMemory, Refusal};

/// Tells people of a refused source that stands in a file of this name: `NAME:LINE:COLUMN: refused NUMBER: SENTENCE`, the line, carets
/// below the token, and a line of advice. Of a refusal without a place, 1, 5 and 6, line and carets are left out.
pub fn explain_source(
    alloc: Global,
    name: &str,
    source: &[u8],
    refused: SourceError,
) -> Result<Vec<u8>, NoMemory>
    ensures { IfOk result (λ text. IsExplanation name.now source.now refused text.items) }
{
    match refused {
        SourceError::Read(refusal) => explain_read(alloc, name, source, refusal),
        SourceError::Check(refusal) => explain_check(alloc, name, source, refusal),
        SourceError::Compose(refusal) => explain_compose(alloc, name, source, refusal),
    }
}

fn explain_read(
    alloc: Global,
    name: &str,
    source: &[u8],
    refused: ReadError,
) -> Result<Vec<u8>, NoMemory>
    ensures { IfOk result (λ text. IsExplanation name.now source.now
        (SourceError.Read refused) text.items) }
{
    let mark = mark_of(source, refused.place());
    let mut advice = Advice::new(alloc);
    advise_bytes(source, refused, &mut advice)?;
    let told = Told {
        number: refused.number(),
        sentence: sentence(refused.number()),
        advice: advice.as_bytes(),
    };
    explanation(alloc, name, source, mark, told)
}

fn explain_check(
    alloc: Global,
    name: &str,
    source: &[u8],
    refused: CheckError,
) -> Result<Vec<u8>, NoMemory>
    ensures { IfOk result (λ text. IsExplanation name.now source.now
        (SourceError.Check refused) text.items) }
{
    let mut advice = Advice::new(alloc);
    let mark = mark_check(source, refused, &mut advice)?;
    let told = Told {
        number: refused.number(),
        sentence: sentence(refused.number()),
        advice: advice.as_bytes(),
    };
    explanation(alloc, name, source, mark, told)
}

// What is marked; the advice is written.
fn mark_check(
    source: &[u8],
    refused: CheckError,
    advice: &mut Advice,
) -> Result<Option<Mark>, NoMemory>
    ensures { IfOk result (λ mark. IsTokenMark source.now (check_place refused) mark) }
{
    match tokens(advice.alloc, source) {
        Ok(found) => {
            let at = refused.place();
            advise_token(source, found.as_slice(), refused.number(), at, advice)?;
            Ok(mark_of(source, token_place(found.as_slice(), at)))
        }
        Err(TokensError::NoMemory) => Err(NoMemory),
        Err(TokensError::NotAscii(_)) => Ok(None),
        Err(TokensError::BadToken(_)) => Ok(None),
    }
}

fn explain_compose(
    alloc: Global,
    name: &str,
    source: &[u8],
    refused: ComposeError,
) -> Result<Vec<u8>, NoMemory>
    ensures { IfOk result (λ text. IsExplanation name.now source.now
        (SourceError.Compose refused) text.items) }
{
    let mut advice = Advice::new(alloc);
    let mark = mark_compose(source, refused, &mut advice)?;
    let told = Told {
        number: refused.number(),
        sentence: sentence(refused.number()),
        advice: advice.as_bytes(),
    };
    explanation(alloc, name, source, mark, told)
}

// What is marked; the advice is written.
fn mark_compose(
    source: &[u8],
    refused: ComposeError,
    advice: &mut Advice,
) -> Result<Option<Mark>, NoMemory>
    ensures { IfOk result (λ mark. (k : Option ℕ) × IsTokenMark source.now k mark) }
{
    match tokens(advice.alloc, source) {
        Ok(found) => {
            let at = advise_composed(found.as_slice(), refused, advice)?;
            Ok(mark_of(source, token_place(found.as_slice(), at)))
        }
        Err(TokensError::NoMemory) => Err(NoMemory),
        Err(TokensError::NotAscii(_)) => Ok(None),
        Err(TokensError::BadToken(_)) => Ok(None),
    }
}

// The token that is marked; the advice is written.
fn advise_composed(
    tokens: &[Token],
    refused: ComposeError,
    advice: &mut Advice,
) -> Result<Option<usize>, NoMemory> {
    let declared = outline(advice.alloc, tokens)?;
    let number = refused.number();
    let Some(at) = marked_token(declared.as_slice(), number, refused.place()) else {
        return Ok(None);
    };
    advise_component(tokens, declared.as_slice(), number, at, advice)?;
    Ok(Some(at))
}
