// The trees that sources spell. Parentheses are kept, and each repetition is a list.

/// A whole number as it stands in a range.
#[derive(Clone, Copy, PartialEq, Eq)]
pub struct Signed {
    pub is_negative: bool,
    pub size: u64,
}

/// A type as it is written.
#[derive(Drop)]
#[cycle(of_types)]
pub enum TypeTree {
    Bool,
    Int,
    Range(Signed, Signed),
    Named(String),
    Seq(Box<TypeTree>, u64),
    Array(Box<TypeTree>, Box<TypeTree>),
}

/// Whether something is added or taken away.
#[derive(Clone, Copy, PartialEq, Eq)]
pub enum Sign {
    Plus,
    Minus,
}

/// A comparison.
#[derive(Clone, Copy, PartialEq, Eq)]
pub enum Relation {
    Equal,
    NotEqual,
    Less,
    AtMost,
    Greater,
    AtLeast,
}

/// What is asked of a sequence.
#[derive(Clone, Copy, PartialEq, Eq)]
pub enum Call {
    Head,
    Tail,
    Len,
}

/// A term. Each list has at least one element.
#[derive(Drop)]
#[cycle(of_terms)]
pub enum Term {
    Number(u64),
    True,
    False,
    Name(String),
    Group(Box<Term>),
    Call(Call, Box<Term>),
    Append(Box<Term>, Box<Term>),
    Index(Box<Term>, Vec<Term>),
    Minus(Box<Term>),
    Product(Box<Term>, Vec<Factor>),
    Sum(Box<Term>, Vec<Addend>),
    Compare(Box<Term>, Relation, Box<Term>),
    Not(Box<Term>),
    And(Box<Term>, Vec<Term>),
    Or(Box<Term>, Vec<Term>),
}

/// What a product goes on with.
#[derive(Drop)]
#[cycle(of_terms)]
pub enum Factor {
    Times(Term),
    Modulo(u64),
}

/// What is added or taken away.
#[derive(Drop)]
#[cycle(of_terms)]
pub struct Addend {
    pub sign: Sign,
    pub term: Term,
}

/// What is put in a place.
#[derive(Drop)]
#[cycle(of_values)]
pub enum Init {
    Empty,
    Fill(Box<Init>),
    Term(Term),
}

/// A name and its type.
#[derive(Drop)]
pub struct Declared {
    pub name: String,
    pub of: TypeTree,
}

/// A statement of an effect.
#[derive(Drop)]
#[cycle(of_statements)]
pub enum Statement {
    /// The name, the index where there is one, and what is put there.
    Assign(String, Option<Term>, Init),
    /// The first branch and those of each `elseif`; the statements after `else`, an empty list where there is none.
    If(Vec<Branch>, Vec<Statement>),
    For(Declared, Vec<Statement>),
}

/// A condition and what is done where it holds.
#[derive(Drop)]
#[cycle(of_statements)]
pub struct Branch {
    pub test: Term,
    pub body: Vec<Statement>,
}

/// Who controls an action.
#[derive(Clone, Copy, PartialEq, Eq)]
pub enum EntryKind {
    Input,
    Output,
    Internal,
}

/// A parameter of an action.
#[derive(Drop)]
pub enum Parameter {
    Constant(String),
    Typed(Declared),
}

/// An entry of a signature. No parameters: no parentheses.
#[derive(Drop)]
pub struct Entry {
    pub kind: EntryKind,
    pub name: String,
    pub parameters: Vec<Parameter>,
}

/// A state variable and its start value.
#[derive(Drop)]
pub struct Variable {
    pub declared: Declared,
    pub start: Init,
}

/// A transition. An empty list of statements: no `eff`.
#[derive(Drop)]
pub struct Transition {
    pub entry: Entry,
    pub pre: Option<Term>,
    pub eff: Vec<Statement>,
}

/// An automaton that isn't composed. An empty list stands for a part that isn't there.
#[derive(Drop)]
pub struct Automaton {
    pub name: String,
    pub formals: Vec<Declared>,
    pub entries: Vec<Entry>,
    pub variables: Vec<Variable>,
    pub transitions: Vec<Transition>,
    pub tasks: Vec<Vec<String>>,
}

/// A component and the arguments of its automaton.
#[derive(Drop)]
pub struct ComponentTree {
    pub name: String,
    pub automaton: String,
    pub arguments: Vec<Term>,
}

/// The composed automaton. An empty list: no output is hidden.
#[derive(Drop)]
pub struct Composed {
    pub name: String,
    pub components: Vec<ComponentTree>,
    pub hidden: Vec<String>,
}

/// What a name of a type stands for.
#[derive(Drop)]
pub enum TypeBody {
    Same(TypeTree),
    Enumeration(Vec<String>),
}

/// The definition of a type.
#[derive(Drop)]
pub struct TypeDefinition {
    pub name: String,
    pub body: TypeBody,
}

/// A whole source.
#[derive(Drop)]
pub struct SourceTree {
    pub types: Vec<TypeDefinition>,
    pub automata: Vec<Automaton>,
    pub composed: Composed,
}
