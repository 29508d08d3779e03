//! What holds of the grammar: a text has one tree, a machine that goes over the tokens once reads exactly the texts, and it stops at
//! the first fault, where no text goes on.
ghost use Rattle.std.specs.Prelude.{◌≡◌, ◌<◌, ℕ, ◌+◌, Bool, true, false, List, ◌∷◌, ◌++◌, length};
ghost use Rattle.ioa_tokens.specs.Tokens.{Tok};
ghost use Rattle.ioa_trees.specs.Nodes.{Node, source, yield};
ghost use Rattle.ioa_trees.specs.Grammar.{Is, IsText};
ghost use Rattle.ioa_phrases.specs.Machine.{start, go, Read, Syntax, Deep};
ghost use Rattle.ioa_trees.specs.Trees.{PlainSource};
ghost use Rattle.ioa_trees.specs.Spelling.{spell, IsSource};
ghost use Rattle.ioa_phrases.specs.Depths.{depths, WithinLimit};

/// A text of the grammar has one tree.
pub fn one_tree_law()
    ensures { (limited : Bool) (n m : Node) → Is limited source 0 n → Is limited source 0 m
        → yield n ≡ yield m → n ≡ m }
{}

/// A text spells at most one source.
pub fn one_source_law()
    ensures { (limited : Bool) (x y : PlainSource) → IsSource limited x → IsSource limited y
        → spell x ≡ spell y → x ≡ y }
{}

/// The machine reads a text of the grammar as its tree, and nothing else.
pub fn machine_law()
    ensures spelled { (limited : Bool) (ts : List Tok) (n : Node) → go limited start ts ≡ Read n
        → yield n ≡ ts }
    ensures formed { (limited : Bool) (ts : List Tok) (n : Node) → go limited start ts ≡ Read n
        → Is limited source 0 n }
    ensures read { (limited : Bool) (n : Node) → Is limited source 0 n
        → go limited start (yield n) ≡ Read n }
{}

/// The tokens before a refused one begin a text of the grammar, and no text goes on with it.
pub fn syntax_law()
    ensures begins { (pre ts : List Tok) → go true start (pre ++ ts) ≡ Syntax (length ts)
        → (more : List Tok) × IsText false (pre ++ more) }
    ensures ends { (pre rest other : List Tok) (t : Tok)
        → go true start (pre ++ t ∷ rest) ≡ Syntax (length rest + 1)
        → IsText false (pre ++ t ∷ other) → ⊥ }
    ensures short { (ts : List Tok) (n : ℕ) → go true start ts ≡ Syntax n → IsText false ts → ⊥ }
{}

/// A token that stands too deep goes on, with those before it, to a text of the grammar, and to none within the limit.
pub fn depth_law()
    ensures begins { (pre rest : List Tok) (t : Tok)
        → go true start (pre ++ t ∷ rest) ≡ Deep (length rest + 1) → (more : List Tok)
        × IsText false (pre ++ t ∷ more) }
    ensures ends { (pre rest other : List Tok) (t : Tok)
        → go true start (pre ++ t ∷ rest) ≡ Deep (length rest + 1) → IsText true (pre ++ t ∷ other)
        → ⊥ }
{}

/// The limit of the grammar is on the depth of each token.
pub fn limit_law()
    ensures each { (d : ℕ) (n : Node) → length (depths d n) ≡ length (yield n) }
    ensures within { (n : Node) → Is false source 0 n → WithinLimit (depths 0 n)
        → Is true source 0 n }
    ensures kept { (n : Node) → Is true source 0 n → WithinLimit (depths 0 n) }
    ensures free { (n : Node) → Is true source 0 n → Is false source 0 n }
{}

/// A token is refused as too deep where it is the first that is, in each text that begins so. Before a fault of another kind none is.
pub fn first_fault_law()
    ensures deep { (pre rest more : List Tok) (t : Tok) (m : Node)
        → go true start (pre ++ t ∷ rest) ≡ Deep (length rest + 1) → Is false source 0 m
        → yield m ≡ pre ++ t ∷ more → (before : List ℕ)
        × ((after : List ℕ)
        × ((depths 0 m ≡ before ++ 65 ∷ after)
        × ((length before ≡ length pre) × WithinLimit before))) }
    ensures refused { (pre rest more : List Tok) (t : Tok) (m : Node) (before after : List ℕ)
        (d : ℕ) → Is false source 0 m → yield m ≡ pre ++ t ∷ more → depths 0 m ≡ before ++ d ∷ after
        → length before ≡ length pre → WithinLimit before → 64 < d
        → go true start (pre ++ t ∷ rest) ≡ Deep (length rest + 1) }
    ensures syntax { (pre ts more : List Tok) (m : Node)
        → go true start (pre ++ ts) ≡ Syntax (length ts) → Is false source 0 m
        → yield m ≡ pre ++ more → (before : List ℕ)
        × ((after : List ℕ)
        × ((depths 0 m ≡ before ++ after) × ((length before ≡ length pre) × WithinLimit before))) }
{}
