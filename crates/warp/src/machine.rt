//! The machine's files.

use commands::{FileFault, Files};
use std::alloc::Global;
use std::cell::RefCell;
use std::io::{self, ErrorKind, Read};
use std::{fs, rt};

/// The name of standard input.
pub const STANDARD_INPUT: &str = "-";

/// The files that the runtime opens, and standard input under the name `-`. Nothing is known of what they have.
#[derive(Drop)]
pub struct MachineFiles<'a, R> {
    rt: &'a R,
    // What was read, where it may be read once more: a pipe gives its bytes once, and a file may change.
    kept: Option<RefCell<Vec<Kept>>>,
}

// The first bytes of a file, at most so many.
#[derive(Drop)]
struct Kept {
    name: String,
    most: u64,
    bytes: Vec<u8>,
}

impl<'a, R: rt::Files + Input> MachineFiles<'a, R> {
    /// Files that are read once.
    pub fn new(rt: &'a R) -> MachineFiles<'a, R> {
        MachineFiles { rt, kept: None }
    }

    /// Files that have what they had, however often they are read.
    pub fn keeping(rt: &'a R, alloc: Global) -> MachineFiles<'a, R> {
        MachineFiles {
            rt,
            kept: Some(RefCell::new(Vec::new(alloc))),
        }
    }

    fn read_front(&self, alloc: Global, name: &str, most: u64) -> io::Result<Vec<u8>> {
        if let Some(bytes) = self.kept_front(alloc, name, most)? {
            return Ok(bytes);
        }
        let mut bytes = Vec::new(alloc);
        if name == STANDARD_INPUT {
            self.rt.reader().take(most).read_to_end(&mut bytes)?;
        } else {
            fs::open(self.rt, name)?.take(most).read_to_end(&mut bytes)?;
        }
        self.keep(alloc, name, most, &bytes)?;
        Ok(bytes)
    }

    // The bytes of a file, if they are kept.
    fn kept_front(&self, alloc: Global, name: &str, most: u64) -> io::Result<Option<Vec<u8>>> {
        let Some(kept) = &self.kept else {
            return Ok(None);
        };
        let Ok(files) = kept.try_borrow() else {
            return Ok(None);
        };
        for file in files.iter() {
            if file.name.as_str() == name && most <= file.most {
                return Ok(Some(file.bytes.as_slice().to_vec(alloc)?));
            }
        }
        Ok(None)
    }

    fn keep(&self, alloc: Global, name: &str, most: u64, bytes: &[u8]) -> io::Result<()> {
        let Some(kept) = &self.kept else {
            return Ok(());
        };
        if let Ok(mut files) = kept.try_borrow_mut() {
            files.push(Kept {
                name: String::from_str(alloc, name)?,
                most,
                bytes: bytes.to_vec(alloc)?,
            })?;
        }
        Ok(())
    }
}

impl<'a, R: rt::Files + Input> Files for MachineFiles<'a, R> {
    ghost has = { λ _ _ _. Unit {0} };

    ghost lacks = { λ _ _. Unit {0} };

    fn read(&self, alloc: Global, name: &str, most: u64) -> Result<Vec<u8>, FileFault> {
        let mut bytes = match self.read_front(alloc, name, most) {
            Ok(bytes) => bytes,
            Err(error) => return Err(fault_of(error.kind())),
        };
        bytes.truncate(most as usize);
        Ok(bytes)
    }
}

fn fault_of(kind: ErrorKind) -> FileFault {
    match kind {
        ErrorKind::OutOfMemory => FileFault::NoMemory,
        ErrorKind::NotFound => FileFault::Missing,
        ErrorKind::IsADirectory => FileFault::Folder,
        ErrorKind::PermissionDenied => FileFault::Denied,
        _ => FileFault::Failed,
    }
}
