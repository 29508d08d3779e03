//! What a person at a terminal is told beside what `serve_person` tells.

use std::io::{ErrorKind, Write};
use trace::{Counted, write_text};

/// Tells why what was written didn't go out. Who closes a pipe has seen enough, and is told nothing.
pub fn tell_failure<E: Write>(failure: Option<ErrorKind>, err: &mut Counted<E>) {
    let text: &[u8] = match failure {
        None | Some(ErrorKind::BrokenPipe) => return,
        Some(ErrorKind::StorageFull) => b"fault 60: no space is left where the output goes\n",
        Some(ErrorKind::QuotaExceeded) => b"fault 60: the quota where the output goes is used up\n",
        Some(ErrorKind::FileTooLarge) => b"fault 60: the output's file may not grow further\n",
        Some(_) => b"fault 60: the output can't be written\n",
    };
    let _ = write_text(text, err);
}

/// Tells that a seed, a stream or a gap isn't used beside a table.
pub fn tell_unused<E: Write>(words: &[String], err: &mut Counted<E>) {
    if !has_option(words, "--table") {
        return;
    }
    for option in ["--seed", "--stream", "--gap", "--from-zero"] {
        if has_option(words, option) {
            let _ = write_text(option.as_bytes(), err);
            let _ = write_text(b" isn't used: the turns are those of the table\n", err);
        }
    }
}

// Whether an option stands among the words, with its value behind it or in the same word.
fn has_option(words: &[String], option: &str) -> bool {
    words.iter().any(|word| match word.as_str().strip_prefix(option) {
        Some(rest) => rest.is_empty() || rest.starts_with("="),
        None => false,
    })
}
