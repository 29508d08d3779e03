//! One case.

use crate::content::{bytes_of, content_of};
use compose::compose;
use ioa_check::check;
use ioa_front::read;
use serde_json::Value;
use std::alloc::{AllocError, Global};
use std::str;
use terms::Refusal;

/// A case, read from its line.
#[derive(Drop)]
pub struct Case {
    value: Value,
}

fn has_part(bytes: &[u8], part: &str) -> bool {
    match str::from_utf8(bytes) {
        Ok(text) => text.contains(part),
        Err(_) => false,
    }
}

impl Case {
    /// Reads a case; a line that is no JSON is an error.
    pub fn read(alloc: Global, line: &str) -> anyhow::Result<Case> {
        let value = Value::from_str(alloc, line)?;
        Ok(Case { value })
    }

    fn text(&self, name: &str) -> Option<&str> {
        self.value.get(name).and_then(Value::as_str)
    }

    /// The number that it has under this name.
    pub fn number(&self, name: &str) -> Option<u64> {
        self.value.get(name).and_then(Value::as_u64)
    }

    /// Whether it has anything under this name.
    pub fn has(&self, name: &str) -> bool {
        self.value.get(name).is_some()
    }

    /// The bytes of its file of this name.
    pub fn file(&self, alloc: Global, name: &str) -> Result<Option<Vec<u8>>, AllocError> {
        match self.value.get("files").and_then(|files| files.get(name)) {
            Some(content) => Ok(Some(content_of(alloc, content)?)),
            None => Ok(None),
        }
    }

    /// Whether the check or the composition answers as it should, where the case is for one of them, and not for the service.
    pub fn is_judged(&self, alloc: Global) -> Result<Option<bool>, AllocError> {
        if let Some(source) = self.text("source") {
            return Ok(Some(self.is_checked(alloc, source)?));
        }
        match self.value.get("composed") {
            Some(source) => Ok(Some(self.is_composed(alloc, source)?)),
            None => Ok(None),
        }
    }

    // Whether the check accepts the source, or refuses it with the wanted number at the wanted token.
    fn is_checked(&self, alloc: Global, source: &str) -> Result<bool, AllocError> {
        let bytes = bytes_of(alloc, source)?;
        let Ok(source) = read(alloc, bytes.as_slice()) else {
            return Ok(false);
        };
        match check(alloc, source) {
            Ok(checked) => {
                drop(checked);
                Ok(self.is_accepted())
            }
            Err(fault) => Ok(self.has_refusal(fault.number(), fault.place())),
        }
    }

    // Whether the source is composed, or refused with the wanted number at the wanted component.
    fn is_composed(&self, alloc: Global, source: &Value) -> Result<bool, AllocError> {
        let bytes = content_of(alloc, source)?;
        let Ok(source) = read(alloc, bytes.as_slice()) else {
            return Ok(false);
        };
        let Ok(checked) = check(alloc, source) else {
            return Ok(false);
        };
        match compose(alloc, checked) {
            Ok(plan) => {
                drop(plan);
                Ok(self.is_accepted())
            }
            Err(fault) => Ok(self.has_refusal(fault.number(), fault.place())),
        }
    }

    fn is_accepted(&self) -> bool {
        self.number("number").is_none()
    }

    fn has_refusal(&self, number: u8, place: Option<usize>) -> bool {
        let place = match place {
            Some(place) => Some(place as u64),
            None => None,
        };
        self.number("number") == Some(u64::from(number)) && self.number("place") == place
    }

    /// The words that it says to the service.
    pub fn words(&self, alloc: Global) -> Result<Vec<String>, AllocError> {
        let mut words = Vec::new(alloc);
        let Some(said) = self.value.get("words").and_then(Value::as_array) else {
            return Ok(words);
        };
        for word in said {
            let text = word.as_str().unwrap_or("");
            words.push(String::from_str(alloc, text)?)?;
        }
        Ok(words)
    }

    /// Whether it is a run that is done to its end, and doesn't say that it is for its own words alone.
    pub fn is_for_each_crew(&self, words: &[String]) -> bool {
        self.number("status") == Some(0)
            && words.first().is_some_and(|word| word.as_str() == "run")
            && self.value.get("alone").is_none()
    }

    /// Whether the bytes are what it wants under this name, or have the part that it wants; anything will do where it says nothing.
    pub fn has_text(&self, alloc: Global, name: &str, bytes: &[u8]) -> Result<bool, AllocError> {
        match self.value.get(name) {
            None | Some(Value::Null) => Ok(true),
            Some(wanted) => match wanted.get("has").and_then(Value::as_str) {
                Some(part) => Ok(has_part(bytes, part)),
                None => Ok(content_of(alloc, wanted)?.as_slice() == bytes),
            },
        }
    }
}
