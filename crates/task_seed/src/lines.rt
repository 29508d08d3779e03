//! Lines of text, and the numbers in them.
ghost use Rattle.std.specs.Prelude.{◌≡◌, ℕ, ◌^◌, ◌<◌, List, ◌∷◌, ◌++◌, length, IfSome, IfNone, Some, IsSomeAnd, slice_index, ◌≢◌};
ghost use Rattle.std.specs.Fmt.{decimal};
ghost use Rattle.task_seed.specs.Table.{lines_of};

use itoa::Buffer;

/// The number that the word spells: a word is a number's if the number prints as it.
pub fn number(word: &str) -> Option<u64>
    ensures some { IfSome result (λ n. word.now ≡ decimal n) }
    ensures only { (n : ℕ) → n < 2 ^ 64 → word.now ≡ decimal n → result ≡ Some n }
{
    match word.parse::<u64>() {
        Ok(value) if Buffer::new().format(value) == word => Some(value),
        _ => None,
    }
}

/// The number before the first space, and the text after that space.
pub fn number_before(text: &str) -> Option<(u64, &str)>
    ensures some { IfSome result (λ r. (r.0 < 2 ^ 64)
        × (text.now ≡ decimal r.0 ++ (32 ∷ r.1.now))) }
    ensures only { (n : ℕ) (rest : List ℕ) → n < 2 ^ 64 → text.now ≡ decimal n ++ (32 ∷ rest)
        → IsSomeAnd result (λ r. (r.0 ≡ n) × (r.1.now ≡ rest)) }
{
    let (word, rest) = text.split_once(' ')?;
    Some((number(word)?, rest))
}

// The place of the first line feed.
fn line_feed(text: &[u8]) -> Option<usize>
    ensures some { IfSome result (λ n. (n < length text.now) × (slice_index text.now n ≡ 10)
        × ((k : ℕ) → k < n → slice_index text.now k ≢ 10)) }
    ensures none { IfNone result ((k : ℕ) → k < length text.now → slice_index text.now k ≢ 10) }
{
    text.iter().position(|byte| *byte == b'\n')
}

/// The first line, without its line feed, and what follows it.
pub fn split_line(text: &[u8]) -> (&[u8], &[u8])
    requires { 0 < length text.now }
    ensures first { lines_of text.now ≡ result.0.now ∷ lines_of result.1.now }
    ensures shorter { length result.1.now < length text.now }
{
    match line_feed(text) {
        Some(end) => (&text[..end], &text[end + 1..]),
        None => (text, &[]),
    }
}
