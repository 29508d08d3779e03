// The reader of types.
ghost use Rattle.std.specs.Prelude.{◌≡◌, ◌≤◌, ◌+◌, false, true, ◌∷◌, [], length, IfOk};
ghost use Rattle.ioa_tokens.specs.declared.Word.TheVariants as w;
ghost use Rattle.ioa_tokens.specs.Tokens.{toks_of, tok_of};
ghost use Rattle.ioa_trees.specs.Nodes.{signed, type};
ghost use Rattle.ioa_trees.specs.Grammar.{range_parts, seq_parts, length_parts, array_parts, element_parts, outside, token, word, number, inside};
ghost use Rattle.ioa_phrases.specs.Machine.{want, at, In};
ghost use Rattle.ioa_trees.specs.Spelling.{signed_node, type_node, key};
ghost use Rattle.ioa_trees.specs.Views.{view_type};
ghost use Rattle.ioa_phrases.specs.Reads.{Gives, GivesLow, GivesAny, may_start, deep_stop};

use crate::front::{MAX_DEPTH, expect, expect_number};
use crate::stop::Stop;
use ioa_tokens::{Kind, Token, Word};
use ioa_trees::tree::{Signed, TypeTree};
use std::alloc::Global;

fn read_signed<'a, 'b>(tokens: &'b [Token<'a>]) -> Result<(Signed, &'b [Token<'a>]), Stop>
    ensures gives { GivesAny (λ x. signed_node x.0) (λ x. toks_of x.1.now) (want signed)
        (toks_of tokens.now) result }
    ensures shorter { IfOk result (λ x. length x.1.now ≤ length tokens.now) }
{
    let Some((first, rest)) = tokens.split_first() else {
        return Err(Stop::Syntax(0));
    };
    match first.kind {
        Kind::Number(size) => Ok((
            Signed {
                is_negative: false,
                size,
            },
            rest,
        )),
        Kind::Word(Word::Minus) => {
            let (size, rest) = expect_number(rest)?;
            Ok((
                Signed {
                    is_negative: true,
                    size,
                },
                rest,
            ))
        }
        _ => Err(Stop::Syntax(tokens.len())),
    }
}

fn starts_type(kind: &Kind) -> bool
    ensures { result ≡ may_start type (tok_of kind.now) }
{
    match kind {
        Kind::Name(_) | Kind::Number(_) => true,
        Kind::Word(Word::Bool | Word::Int | Word::Seq | Word::Array | Word::Minus) => true,
        _ => false,
    }
}

fn deep_type(tokens: &[Token]) -> Stop
    ensures { result ≡ deep_stop type (toks_of tokens.now) }
{
    let Some((first, _)) = tokens.split_first() else {
        return Stop::Syntax(0);
    };
    if starts_type(&first.kind) {
        Stop::Deep(tokens.len())
    } else {
        Stop::Syntax(tokens.len())
    }
}

fn read_range<'a, 'b>(tokens: &'b [Token<'a>]) -> Result<(TypeTree, &'b [Token<'a>]), Stop>
    ensures gives { GivesAny (λ x. type_node (view_type x.0)) (λ x. toks_of x.1.now)
        (λ k. want signed (In type [] range_parts outside k)) (toks_of tokens.now) result }
    ensures shorter { IfOk result (λ x. length x.1.now ≤ length tokens.now) }
{
    let (least, rest) = read_signed(tokens)?;
    let rest = expect(rest, Word::DotDot)?;
    let (greatest, rest) = read_signed(rest)?;
    Ok((TypeTree::Range(least, greatest), rest))
}

/// Reads a type at the front, inside this many pairs.
#[cycle(reading_types)]
#[tactic(auto, using(crate::proofs::Moves::gives_low, crate::proofs::Moves::deep_gives))]
pub(crate) fn read_type<'a, 'b>(
    alloc: Global,
    tokens: &'b [Token<'a>],
    depth: u32,
) -> Result<(TypeTree, &'b [Token<'a>]), Stop>
    requires { depth ≤ 65 }
    ensures gives { Gives (λ x. type_node (view_type x.0)) (λ x. toks_of x.1.now) (want type) depth
        (toks_of tokens.now) result }
    ensures shorter { IfOk result (λ x. length x.1.now ≤ length tokens.now) }
{
    if depth > MAX_DEPTH {
        return Err(deep_type(tokens));
    }
    read_low_type(alloc, tokens, depth)
}

#[cycle(reading_types)]
fn read_low_type<'a, 'b>(
    alloc: Global,
    tokens: &'b [Token<'a>],
    depth: u32,
) -> Result<(TypeTree, &'b [Token<'a>]), Stop>
    requires { depth ≤ 64 }
    ensures gives { GivesLow (λ x. type_node (view_type x.0)) (λ x. toks_of x.1.now)
        (want type) depth (toks_of tokens.now) result }
    ensures shorter { IfOk result (λ x. length x.1.now ≤ length tokens.now) }
{
    let Some((first, rest)) = tokens.split_first() else {
        return Err(Stop::Syntax(0));
    };
    match first.kind {
        Kind::Name(name) => Ok((TypeTree::Named(String::from_str(alloc, name)?), rest)),
        Kind::Number(_) | Kind::Word(Word::Minus) => read_range(tokens),
        Kind::Word(Word::Bool) => Ok((TypeTree::Bool, rest)),
        Kind::Word(Word::Int) => Ok((TypeTree::Int, rest)),
        Kind::Word(Word::Seq) => read_sequence(alloc, rest, depth),
        Kind::Word(Word::Array) => read_array(alloc, rest, depth),
        _ => Err(Stop::Syntax(tokens.len())),
    }
}

// What follows `Seq`.
#[cycle(reading_types)]
fn read_sequence<'a, 'b>(
    alloc: Global,
    tokens: &'b [Token<'a>],
    depth: u32,
) -> Result<(TypeTree, &'b [Token<'a>]), Stop>
    requires { depth ≤ 64 }
    ensures gives { GivesLow (λ x. type_node (view_type x.0)) (λ x. toks_of x.1.now)
        (λ k. at type (key w.Seq ∷ []) seq_parts k) depth (toks_of tokens.now) result }
    ensures shorter { IfOk result (λ x. length x.1.now ≤ length tokens.now) }
{
    let rest = expect(tokens, Word::OpenBracket)?;
    let (of, rest) = read_type(alloc, rest, depth + 1)?;
    read_length(alloc, of, rest)
}

// What follows the type of the elements.
fn read_length<'a, 'b>(
    alloc: Global,
    of: TypeTree,
    tokens: &'b [Token<'a>],
) -> Result<(TypeTree, &'b [Token<'a>]), Stop>
    ensures gives { GivesAny (λ x. type_node (view_type x.0)) (λ x. toks_of x.1.now)
        (λ k. at type
        (key w.Seq ∷ (key w.OpenBracket ∷ (type_node (view_type of) ∷ []))) length_parts k)
        (toks_of tokens.now) result }
    ensures shorter { IfOk result (λ x. length x.1.now ≤ length tokens.now) }
{
    let of = Box::new(alloc, of)?;
    let rest = expect(tokens, Word::Comma)?;
    let (length, rest) = expect_number(rest)?;
    let rest = expect(rest, Word::CloseBracket)?;
    Ok((TypeTree::Seq(of, length), rest))
}

// What follows `Array`.
#[cycle(reading_types)]
fn read_array<'a, 'b>(
    alloc: Global,
    tokens: &'b [Token<'a>],
    depth: u32,
) -> Result<(TypeTree, &'b [Token<'a>]), Stop>
    requires { depth ≤ 64 }
    ensures gives { GivesLow (λ x. type_node (view_type x.0)) (λ x. toks_of x.1.now)
        (λ k. at type (key w.Array ∷ []) array_parts k) depth (toks_of tokens.now) result }
    ensures shorter { IfOk result (λ x. length x.1.now ≤ length tokens.now) }
{
    let rest = expect(tokens, Word::OpenBracket)?;
    let (index, rest) = read_type(alloc, rest, depth + 1)?;
    let rest = expect(rest, Word::Comma)?;
    read_element(alloc, index, rest, depth)
}

// The type of the elements of an array, and its end.
#[cycle(reading_types)]
fn read_element<'a, 'b>(
    alloc: Global,
    index: TypeTree,
    tokens: &'b [Token<'a>],
    depth: u32,
) -> Result<(TypeTree, &'b [Token<'a>]), Stop>
    requires { depth ≤ 64 }
    ensures gives { GivesLow (λ x. type_node (view_type x.0)) (λ x. toks_of x.1.now)
        (λ k. at type
        (key w.Array
        ∷ (key w.OpenBracket
        ∷ (type_node (view_type index) ∷ (key w.Comma ∷ [])))) element_parts k) depth
        (toks_of tokens.now) result }
    ensures shorter { IfOk result (λ x. length x.1.now ≤ length tokens.now) }
{
    let index = Box::new(alloc, index)?;
    let (of, rest) = read_type(alloc, tokens, depth + 1)?;
    let of = Box::new(alloc, of)?;
    let rest = expect(rest, Word::CloseBracket)?;
    Ok((TypeTree::Array(index, of), rest))
}
