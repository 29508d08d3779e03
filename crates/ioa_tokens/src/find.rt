//! The piece that begins some bytes: a blank, a comment or a token.
ghost use Rattle.std.specs.Prelude.{◌≡◌, ◌≤◌, ◌<◌, ◌+◌, ◌-◌, ◌*◌, ◌^◌, Some, All, true, false, IfSome, IfNone, MatchOption, length, take, position, slice_index, nat_le};
ghost use Rattle.std.specs.List.{prefix_len, list_all};
ghost use Rattle.ioa_tokens.specs.Bytes.{is_letter, is_digit, is_word_byte, is_blank, is_in_line, value_of};
ghost use Rattle.ioa_tokens.specs.Tokens.{tok_of};
ghost use Rattle.ioa_tokens.specs.Finding.{front, number, sign, pair, single, word, reserved, word_or_name};
ghost use Rattle.ioa_tokens.specs.Seen.{seen};

use crate::reserved::reserved;
use crate::token::Kind;
use crate::word::Word;
use std::str;

/// What begins some bytes.
#[derive(Clone, Copy)]
pub(crate) enum Found<'a> {
    Blank,
    Comment,
    Token(Kind<'a>),
}

fn is_letter(byte: u8) -> bool
    ensures { result ≡ is_letter byte }
{
    (b'a' <= byte && byte <= b'z') || (b'A' <= byte && byte <= b'Z')
}

fn is_digit(byte: u8) -> bool
    ensures { result ≡ is_digit byte }
{
    b'0' <= byte && byte <= b'9'
}

fn is_word_byte(byte: u8) -> bool
    ensures { result ≡ is_word_byte byte }
{
    is_letter(byte) || is_digit(byte) || byte == b'_'
}

fn is_blank(byte: u8) -> bool
    ensures { result ≡ is_blank byte }
{
    byte == b' ' || byte == b'\t' || byte == b'\n' || byte == b'\r'
}

fn word_len(bytes: &[u8]) -> usize
    ensures value { result ≡ prefix_len is_word_byte bytes.now }
    ensures within { result ≤ length bytes.now }
{
    bytes.iter().take_while(|byte| is_word_byte(**byte)).count()
}

fn digits_len(bytes: &[u8]) -> usize
    ensures value { result ≡ prefix_len is_digit bytes.now }
    ensures within { result ≤ length bytes.now }
{
    bytes.iter().take_while(|byte| is_digit(**byte)).count()
}

fn line_len(bytes: &[u8]) -> usize
    ensures value { result ≡ prefix_len is_in_line bytes.now }
    ensures within { result ≤ length bytes.now }
{
    bytes.iter().take_while(|byte| **byte != b'\n').count()
}

// The value of the digits, where it has 63 bits. A greater one stays at 2^63.
fn value_of(digits: &[u8]) -> Option<u64>
    ensures { MatchOption result (nat_le (value_of digits.now) 9223372036854775807 ≡ false)
        (λ n. (n ≡ value_of digits.now) × (nat_le n 9223372036854775807 ≡ true)) }
{
    let mut value: u64 = 0;
    for digit in digits {
        if value > 922337203685477580 {
            value = 9223372036854775808;
        } else {
            value = 10 * value + u64::from(digit.saturating_sub(b'0'));
        }
    }
    if value > 9223372036854775807 {
        None
    } else {
        Some(value)
    }
}

// The text of bytes that a word goes on with.
fn text(bytes: &[u8]) -> &str
    requires { list_all is_word_byte bytes.now ≡ true }
    ensures { result.now ≡ bytes.now }
{
    match str::from_utf8(bytes) {
        Ok(text) => text,
        Err(_) => "",
    }
}

// The reserved word or the name that the text is.
fn word_or_name(text: &str) -> Kind<'_>
    ensures { tok_of result ≡ word_or_name (reserved text.now) text.now }
{
    match reserved(text) {
        Some(word) => Kind::Word(word),
        None => Kind::Name(text),
    }
}

// The reserved word or name at the front.
#[tactic(auto, using(crate::proofs::Fronts::prefix_passes))]
fn word(bytes: &[u8]) -> (Found<'_>, usize)
    ensures { seen (Some result) ≡ word bytes.now }
{
    let len = word_len(bytes);
    (Found::Token(word_or_name(text(&bytes[..len]))), len)
}

// The number at the front.
#[tactic(auto, unfolding(crate::specs::Finding::number))]
fn number(bytes: &[u8]) -> Option<(Found<'_>, usize)>
    ensures { seen result ≡ number bytes.now }
{
    let len = digits_len(bytes);
    if len < word_len(bytes) {
        return None;
    }
    let value = value_of(&bytes[..len])?;
    Some((Found::Token(Kind::Number(value)), len))
}

// The sign of two bytes.
fn pair(first: u8, second: u8) -> Option<Word>
    ensures { result ≡ pair first second }
{
    match (first, second) {
        (b':', b'=') => Some(Word::Assign),
        (b'/', b'=') => Some(Word::NotEqual),
        (b'<', b'=') => Some(Word::AtMost),
        (b'>', b'=') => Some(Word::AtLeast),
        (b'.', b'.') => Some(Word::DotDot),
        _ => None,
    }
}

// The sign of one byte.
fn single(byte: u8) -> Option<Word>
    ensures { result ≡ single byte }
{
    match byte {
        b':' => Some(Word::Colon),
        b',' => Some(Word::Comma),
        b';' => Some(Word::Semicolon),
        b'(' => Some(Word::Open),
        b')' => Some(Word::Close),
        b'[' => Some(Word::OpenBracket),
        b']' => Some(Word::CloseBracket),
        b'{' => Some(Word::OpenBrace),
        b'}' => Some(Word::CloseBrace),
        b'=' => Some(Word::Equal),
        b'<' => Some(Word::Less),
        b'>' => Some(Word::Greater),
        b'+' => Some(Word::Plus),
        b'-' => Some(Word::Minus),
        b'*' => Some(Word::Times),
        _ => None,
    }
}

// The longest sign that the two bytes begin.
fn sign(first: u8, second: u8) -> Option<(Found<'static>, usize)>
    ensures { seen result ≡ sign first second }
{
    match pair(first, second) {
        Some(word) => Some((Found::Token(Kind::Word(word)), 2)),
        None => Some((Found::Token(Kind::Word(single(first)?)), 1)),
    }
}

// What begins the bytes, by its first byte.
#[tactic(auto, unfolding(crate::specs::Finding::front))]
fn found_at(bytes: &[u8]) -> Option<(Found<'_>, usize)>
    requires { 0 < length bytes.now }
    ensures { seen result ≡ front bytes.now }
{
    let first = bytes[0];
    if is_letter(first) {
        return Some(word(bytes));
    }
    if is_digit(first) {
        return number(bytes);
    }
    if is_blank(first) {
        return Some((Found::Blank, 1));
    }
    if first == b'%' {
        return Some((Found::Comment, line_len(bytes)));
    }
    let second = if bytes.len() > 1 { bytes[1] } else { 0 };
    sign(first, second)
}

/// The piece that begins the bytes, and its length; nothing where no piece begins them.
pub(crate) fn front(bytes: &[u8]) -> Option<(Found<'_>, usize)>
    requires { 0 < length bytes.now }
    ensures value { seen result ≡ front bytes.now }
    ensures within { IfSome result (λ found. (0 < found.1) × (found.1 ≤ length bytes.now)) }
{
    found_at(bytes)
}
