//! The reserved words, found by their text.
ghost use Rattle.std.specs.Prelude.{◌≡◌, map};
ghost use Rattle.ioa_tokens.specs.Finding.{lookup, reserved};

use crate::word::Word;

// The reserved words of each length.
pub(crate) const TWO: [(&str, Word); 6] = [
    ("of", Word::Of),
    ("if", Word::If),
    ("fi", Word::Fi),
    ("do", Word::Do),
    ("od", Word::Od),
    ("or", Word::Or),
];

pub(crate) const THREE: [(&str, Word); 9] = [
    ("pre", Word::Pre),
    ("eff", Word::Eff),
    ("for", Word::For),
    ("len", Word::Len),
    ("and", Word::And),
    ("not", Word::Not),
    ("mod", Word::Mod),
    ("Int", Word::Int),
    ("Seq", Word::Seq),
];

pub(crate) const FOUR: [(&str, Word); 9] = [
    ("type", Word::Type),
    ("then", Word::Then),
    ("else", Word::Else),
    ("fill", Word::Fill),
    ("head", Word::Head),
    ("tail", Word::Tail),
    ("true", Word::True),
    ("Bool", Word::Bool),
    ("idle", Word::Idle),
];

pub(crate) const FIVE: [(&str, Word); 6] = [
    ("input", Word::Input),
    ("const", Word::Const),
    ("tasks", Word::Tasks),
    ("empty", Word::Empty),
    ("false", Word::False),
    ("Array", Word::Array),
];

pub(crate) const SIX: [(&str, Word); 5] = [
    ("output", Word::Output),
    ("states", Word::States),
    ("elseif", Word::Elseif),
    ("append", Word::Append),
    ("hidden", Word::Hidden),
];

pub(crate) const EIGHT: [(&str, Word); 1] = [("internal", Word::Internal)];

pub(crate) const NINE: [(&str, Word); 2] = [
    ("automaton", Word::Automaton),
    ("signature", Word::Signature),
];

pub(crate) const TEN: [(&str, Word); 1] = [("components", Word::Components)];

pub(crate) const ELEVEN: [(&str, Word); 2] = [
    ("enumeration", Word::Enumeration),
    ("transitions", Word::Transitions),
];

fn lookup(mut table: &[(&str, Word)], text: &str) -> Option<Word>
    ensures { result ≡ lookup (map (λ k. (k.0.now, k.1)) table.entry.now) text.now }
{
    while let [entry, rest @ ..] = table {
        if entry.0 == text {
            return Some(entry.1);
        }
        table = rest;
    }
    None
}

/// The reserved word that the text is.
#[tactic(auto, unfolding(crate::specs::Finding::reserved))]
pub(crate) fn reserved(text: &str) -> Option<Word>
    ensures { result ≡ reserved text.now }
{
    match text.len() {
        2 => lookup(&TWO, text),
        3 => lookup(&THREE, text),
        4 => lookup(&FOUR, text),
        5 => lookup(&FIVE, text),
        6 => lookup(&SIX, text),
        8 => lookup(&EIGHT, text),
        9 => lookup(&NINE, text),
        10 => lookup(&TEN, text),
        11 => lookup(&ELEVEN, text),
        _ => None,
    }
}
