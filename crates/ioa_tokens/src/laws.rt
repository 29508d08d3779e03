//! What holds of the definitions: a source has its tokens in one way, the longest token is taken, and a layout is read
//! back as the tokens that were laid out.
ghost use Rattle.std.specs.Prelude.{◌≡◌, ◌⊎◌, ◌++◌, ◌∷◌, [], ℕ, List, map, true, false};
ghost use Rattle.std.specs.Str.{IsAscii};
ghost use Rattle.ioa_tokens.specs.declared.word.Word.{Word};
ghost use Rattle.ioa_tokens.specs.Bytes.{Text, IsFirstWide};
ghost use Rattle.ioa_tokens.specs.Tokens.{Tok, Key, Placed};
ghost use Rattle.ioa_tokens.specs.Spelling.{spelling, is_reserved, IsToken, goes_on};
ghost use Rattle.ioa_tokens.specs.Cutting.{IsTokens, IsBadAt};
ghost use Rattle.ioa_tokens.specs.Layout.{layout, AreProper};

/// A source has one list of tokens or one first bad place, and never both; and it is ASCII or has one first byte that
/// isn't.
pub fn one_reading_law()
    ensures reading { (source : Text) → ((ts : List Placed) × IsTokens source ts)
        ⊎ ((at : ℕ) × IsBadAt source at) }
    ensures tokens { (source : Text) (ts us : List Placed) → IsTokens source ts → IsTokens source us
        → ts ≡ us }
    ensures apart { (source : Text) (ts : List Placed) (at : ℕ) → IsTokens source ts
        → IsBadAt source at → ⊥ }
    ensures bad { (source : Text) (at other : ℕ) → IsBadAt source at → IsBadAt source other
        → at ≡ other }
    ensures bytes { (source : Text) → IsAscii source ⊎ ((at : ℕ) × IsFirstWide source at) }
    ensures ascii { (source : Text) (at : ℕ) → IsAscii source → IsFirstWide source at → ⊥ }
    ensures wide { (source : Text) (at other : ℕ) → IsFirstWide source at → IsFirstWide source other
        → at ≡ other }
{}

/// Where a token's text begins a longer token's, it goes on; and a sign goes on only where it is a longer sign with the
/// next byte. So the longest token is taken.
pub fn longest_token_law()
    ensures longer { (t u : Tok) (text rest : Text) (b : ℕ) → IsToken t text
        → IsToken u (text ++ b ∷ rest) → goes_on t b ≡ true }
    ensures signs { (v : Word) (b : ℕ) → is_reserved v ≡ false → goes_on (Key v) b ≡ true
        → (u : Word) × (spelling u ≡ spelling v ++ b ∷ []) }
{}

/// The layout of proper tokens is ASCII, has tokens, and they are the ones that were laid out, however it is read.
pub fn read_back_law()
    ensures ascii { (ts : List Tok) → AreProper ts → IsAscii (layout ts) }
    ensures spelled { (ts : List Tok) → AreProper ts → (placed : List Placed)
        × IsTokens (layout ts) placed × (map (λ p. p.tok) placed ≡ ts) }
    ensures same { (ts : List Tok) (placed : List Placed) → AreProper ts
        → IsTokens (layout ts) placed → map (λ p. p.tok) placed ≡ ts }
{}

/// The tokens of a source are proper, and lists of proper tokens go together and apart.
pub fn proper_law()
    ensures read { (source : Text) (ts : List Placed) → IsTokens source ts
        → AreProper (map (λ p. p.tok) ts) }
    ensures together { (ts us : List Tok) → AreProper ts → AreProper us → AreProper (ts ++ us) }
    ensures apart { (ts us : List Tok) → AreProper (ts ++ us) → AreProper ts × AreProper us }
{}
