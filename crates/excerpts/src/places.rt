//! Lines and columns.
ghost use Rattle.std.specs.Prelude.{◌≡◌, ◌≤◌, ◌+◌, ◌==◌, count_by, length, reverse};
ghost use Rattle.std.specs.List.{prefix_len};
ghost use Rattle.ioa_tokens.specs.Bytes.{is_in_line};
ghost use Rattle.excerpts.specs.Places.{before_in_line, column_at, from_line, line_at, line_of};

fn feeds(text: &[u8]) -> usize
    ensures value { result ≡ count_by (λ b. b == 10) text.now }
    ensures within { result ≤ length text.now }
{
    text.iter().filter(|byte| **byte == b'\n').count()
}

// How many bytes at the end are of one line.
fn last_line_len(text: &[u8]) -> usize
    ensures value { result ≡ prefix_len is_in_line (reverse text.now) }
    ensures within { result ≤ length text.now }
{
    text.iter().rev().take_while(|byte| **byte != b'\n').count()
}

// How many bytes at the front are of one line.
fn line_len(text: &[u8]) -> usize
    ensures value { result ≡ prefix_len is_in_line text.now }
    ensures within { result ≤ length text.now }
{
    text.iter().take_while(|byte| **byte != b'\n').count()
}

/// The line of a place, counted from 1.
pub fn line_at(text: &[u8], at: usize) -> usize
    requires { at ≤ length text.now }
    ensures { result ≡ line_at text.now at }
{
    let (before, _) = text.split_at(at);
    feeds(before) + 1
}

/// How many bytes of its line stand before a place.
pub(crate) fn before_in_line(text: &[u8], at: usize) -> usize
    requires { at ≤ length text.now }
    ensures value { result ≡ before_in_line text.now at }
    ensures within { result ≤ at }
{
    let (before, _) = text.split_at(at);
    last_line_len(before)
}

/// The column of a place, a byte of its line, counted from 1.
pub fn column_at(text: &[u8], at: usize) -> usize
    requires { at ≤ length text.now }
    ensures { result ≡ column_at text.now at }
{
    before_in_line(text, at) + 1
}

fn from_line(text: &[u8], at: usize) -> &[u8]
    requires { at ≤ length text.now }
    ensures { result.now ≡ from_line text.now at }
{
    let (_, rest) = text.split_at(at - before_in_line(text, at));
    rest
}

/// The line in which a place stands, without its line feed.
pub fn line_of(text: &[u8], at: usize) -> &[u8]
    requires { at ≤ length text.now }
    ensures { result.now ≡ line_of text.now at }
{
    let rest = from_line(text, at);
    let (line, _) = rest.split_at(line_len(rest));
    line
}
