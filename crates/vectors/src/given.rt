//! The files that the service is given.

use cases::Case;
use commands::{FileFault, Files};
use std::alloc::{AllocError, Global};

/// The files of a case, or a source under the name F.
#[derive(Clone, Copy)]
pub enum Given<'a> {
    Case(&'a Case),
    Source(&'a str),
}

impl<'a> Given<'a> {
    fn file(self, alloc: Global, name: &str) -> Result<Option<Vec<u8>>, AllocError> {
        match self {
            Given::Case(case) => case.file(alloc, name),
            Given::Source(text) => {
                if name != "F" {
                    return Ok(None);
                }
                Ok(Some(text.as_bytes().to_vec(alloc)?))
            }
        }
    }
}

impl<'a> Files for Given<'a> {
    ghost has = { λ _ _ _. Unit {0} };

    ghost lacks = { λ _ _. Unit {0} };

    fn read(&self, alloc: Global, name: &str, most: u64) -> Result<Vec<u8>, FileFault> {
        let mut bytes = match self.file(alloc, name) {
            Ok(Some(bytes)) => bytes,
            Ok(None) => return Err(FileFault::Missing),
            Err(_) => return Err(FileFault::NoMemory),
        };
        bytes.truncate(most as usize);
        Ok(bytes)
    }
}
