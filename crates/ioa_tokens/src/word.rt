//! The reserved words and the signs.
/// A reserved word or a sign.
#[derive(Clone, Copy, PartialEq, Eq, Debug)]
pub enum Word {
    Type,
    Enumeration,
    Of,
    Automaton,
    Signature,
    Input,
    Output,
    Internal,
    Const,
    States,
    Transitions,
    Pre,
    Eff,
    Tasks,
    Components,
    If,
    Then,
    Elseif,
    Else,
    Fi,
    For,
    Do,
    Od,
    Empty,
    Fill,
    Head,
    Tail,
    Len,
    Append,
    True,
    False,
    And,
    Or,
    Not,
    Mod,
    Bool,
    Int,
    Seq,
    Array,
    Idle,
    Hidden,
    /// `:=`
    Assign,
    /// `..`
    DotDot,
    Colon,
    Comma,
    Semicolon,
    /// `(`
    Open,
    /// `)`
    Close,
    /// `[`
    OpenBracket,
    /// `]`
    CloseBracket,
    /// `{`
    OpenBrace,
    /// `}`
    CloseBrace,
    Equal,
    /// `/=`
    NotEqual,
    Less,
    /// `<=`
    AtMost,
    Greater,
    /// `>=`
    AtLeast,
    Plus,
    Minus,
    /// `*`
    Times,
}
