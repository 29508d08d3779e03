//! The rules of compatible signatures.
ghost use Rattle.std.specs.Prelude.{◌≡◌};
ghost use Rattle.compose.specs.Rules.{is_barred, suits_all, suits_inputs};

use io_automata::Kind;

/// A rule of compatible signatures (Lynch, Distributed Algorithms, sections 8.1 and 8.2.1).
#[derive(Clone, Copy, PartialEq, Eq)]
pub enum Rule {
    /// The input, output and internal actions of a component are disjoint.
    Own,
    /// No internal action of a component is an action of another.
    Internal,
    /// No output of a component is an output of another.
    Output,
}

// Whether entries of these kinds may not share an action: entries of one component, or of two.
pub(crate) fn is_barred(rule: Rule, is_one: bool, kind: Kind, other: Kind) -> bool
    ensures { result ≡ is_barred rule is_one kind other }
{
    match rule {
        Rule::Own => is_one && kind != other,
        Rule::Internal => !is_one && (kind == Kind::Internal || other == Kind::Internal),
        Rule::Output => !is_one && kind == Kind::Output && other == Kind::Output,
    }
}

// Whether an entry of this kind breaks the rule with no input, so that it needn't be compared with any.
pub(crate) fn suits_inputs(rule: Rule, kind: Kind) -> bool
    ensures { result ≡ suits_inputs rule kind }
{
    match rule {
        Rule::Own => kind == Kind::Input,
        Rule::Internal => kind != Kind::Internal,
        Rule::Output => true,
    }
}

// The same of all others.
pub(crate) fn suits_all(rule: Rule, kind: Kind) -> bool
    ensures { result ≡ suits_all rule kind }
{
    match rule {
        Rule::Own => false,
        Rule::Internal => false,
        Rule::Output => kind != Kind::Output,
    }
}
