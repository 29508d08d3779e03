//! Advice on bytes that aren't read.

use crate::advice::saying::Advice;
use ioa_front::{ReadError, read};
use std::alloc::Global;
use terms::NoMemory;

/// The words and signs of the language.
const WORDS: [&str; 61] = [
    "type",
    "enumeration",
    "of",
    "automaton",
    "signature",
    "input",
    "output",
    "internal",
    "const",
    "states",
    "transitions",
    "pre",
    "eff",
    "tasks",
    "components",
    "hidden",
    "if",
    "then",
    "elseif",
    "else",
    "fi",
    "for",
    "do",
    "od",
    "empty",
    "fill",
    "head",
    "tail",
    "len",
    "append",
    "true",
    "false",
    "not",
    "and",
    "or",
    "mod",
    "Bool",
    "Int",
    "Seq",
    "Array",
    "idle",
    ":=",
    "..",
    ":",
    ",",
    ";",
    "(",
    ")",
    "[",
    "]",
    "{",
    "}",
    "=",
    "/=",
    "<",
    "<=",
    ">",
    ">=",
    "+",
    "-",
    "*",
];

/// The advice on bytes that aren't read.
pub(crate) fn advise_bytes(
    source: &[u8],
    refused: ReadError,
    advice: &mut Advice,
) -> Result<(), NoMemory> {
    match refused {
        ReadError::NoMemory => Ok(()),
        ReadError::NotAscii(_) => {
            advice.say("write it in letters, digits and signs of ASCII, in comments too")
        }
        ReadError::BadToken(at) => advice.say(bad_token_phrase(source, at)),
        ReadError::Syntax(at) => advise_syntax(source, at, advice),
        ReadError::TooLarge => {
            advice.say("a source has at most 65536 bytes; comments and blanks count")
        }
        ReadError::TooDeep => advice.say(
            "at most 64 parentheses, brackets, `if`, `for`, `not` and prefix `-` stand round a token; keep a part of it in a variable",
        ),
    }
}

fn bad_token_phrase(source: &[u8], at: usize) -> &'static str {
    match source.get(at) {
        Some(byte) if b'0' <= *byte && *byte <= b'9' => {
            "a number has digits only, and is at most 9223372036854775807"
        }
        _ => "a name is a letter followed by letters, digits and `_`; a comment begins with `%`",
    }
}

fn advise_syntax(source: &[u8], at: usize, advice: &mut Advice) -> Result<(), NoMemory> {
    let (front, _) = source.split_at(at.min(source.len()));
    let words = words_behind(advice.alloc, front)?;
    let has_name = can_follow(advice.alloc, front, "a")?;
    let has_number = can_follow(advice.alloc, front, "1")?;
    advice.say("here can stand ")?;
    advice.say(kinds_phrase(has_name, has_number))?;
    if has_name || has_number {
        advice.say(joint(words.len()))?;
    }
    advice.list(words.as_slice(), " or ")
}

fn kinds_phrase(has_name: bool, has_number: bool) -> &'static str {
    match (has_name, has_number) {
        (true, true) => "a name, a number",
        (true, false) => "a name",
        (false, true) => "a number",
        (false, false) => "",
    }
}

// What stands before so many words.
fn joint(words: usize) -> &'static str {
    match words {
        0 => "",
        1 => " or ",
        _ => ", ",
    }
}

// The words and signs that can stand behind these bytes.
fn words_behind(alloc: Global, front: &[u8]) -> Result<Vec<&'static str>, NoMemory> {
    let mut words: Vec<&str> = Vec::new(alloc);
    for word in &WORDS {
        if can_follow(alloc, front, *word)? {
            words.push(*word)?;
        }
    }
    Ok(words)
}

// Whether a source can go on with this word behind these bytes: they are read up to their end then.
fn can_follow(alloc: Global, front: &[u8], word: &str) -> Result<bool, NoMemory> {
    let mut text = Vec::new(alloc);
    text.extend_from_slice(front)?;
    text.push(b'\n')?;
    text.extend_from_slice(word.as_bytes())?;
    match read(alloc, text.as_slice()) {
        Ok(tree) => {
            drop(tree);
            Ok(true)
        }
        Err(ReadError::Syntax(at)) => Ok(at == text.len()),
        Err(ReadError::NoMemory) => Err(NoMemory),
        Err(_) => Ok(false),
    }
}
