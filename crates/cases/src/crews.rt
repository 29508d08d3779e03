//! Runs by other crews.

use std::alloc::{AllocError, Global};

/// The numbers of groups, each with a worker of its own, and the budgets with which each run that is done to its end has to come out the same,
/// unless its case is for its own words alone.
pub const CREWS: [(&str, &str); 8] = [
    ("1", "1"),
    ("1", "64"),
    ("2", "1"),
    ("2", "64"),
    ("3", "1"),
    ("3", "64"),
    ("8", "1"),
    ("8", "64"),
];

/// The words as values of their own.
pub fn owned(alloc: Global, words: &[&str]) -> Result<Vec<String>, AllocError> {
    let mut owned = Vec::new(alloc);
    for word in words {
        owned.push(String::from_str(alloc, word)?)?;
    }
    Ok(owned)
}

/// The words of a run with another crew. The options stand before the others, since one after `--` would be a file.
pub fn with_crew(
    alloc: Global,
    words: &[String],
    groups: &str,
    budget: &str,
) -> Result<Vec<String>, AllocError> {
    let mut crewed = owned(alloc, &["run", "--groups", groups, "--budget", budget])?;
    push_others(alloc, words, &mut crewed)?;
    Ok(crewed)
}

// Appends the words of a run without those of its crew.
fn push_others(
    alloc: Global,
    words: &[String],
    crewed: &mut Vec<String>,
) -> Result<(), AllocError> {
    let mut is_value = false;
    for word in words.iter().skip(1) {
        let word = word.as_str();
        if is_value {
            is_value = false;
        } else if word == "--workers" || word == "--groups" || word == "--budget" {
            is_value = true;
        } else if !word.starts_with("--workers=")
            && !word.starts_with("--groups=")
            && !word.starts_with("--budget=")
        {
            crewed.push(String::from_str(alloc, word)?)?;
        }
    }
    Ok(())
}
