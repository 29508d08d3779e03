//! Files that the program reads.
ghost use Rattle.std.specs.Prelude.{◌≡◌, ◌≢◌, ℕ, List, IfErr, IfOk};
ghost use Rattle.commands.specs.Reading.{IsReadOf};
ghost use Rattle.commands.specs.Reasons.{reason_of};

use std::alloc::Global;
use thiserror::Error;

/// Why a file wasn't read.
#[derive(Clone, Copy, Debug, PartialEq, Eq, Error)]
pub enum FileFault {
    #[error("out of memory")]
    NoMemory,
    #[error("no such file")]
    Missing,
    #[error("it is a folder")]
    Folder,
    #[error("it may not be read")]
    Denied,
    /// Opening or reading failed for another reason.
    #[error("it can't be read")]
    Failed,
}

impl FileFault {
    /// What people are told of it.
    pub fn reason(self) -> &'static str
        ensures { result.now ≡ reason_of self }
    {
        match self {
            FileFault::NoMemory => "out of memory",
            FileFault::Missing => "no such file",
            FileFault::Folder => "it is a folder",
            FileFault::Denied => "it may not be read",
            FileFault::Failed => "it can't be read",
        }
    }
}

/// Files by their names. The machine's are served by `main`, a test's lie in memory.
pub trait Files {
    /// Whether the file of this name has these bytes.
    ghost has: { Self → List ℕ → List ℕ → Type 0 };

    /// Whether the file of this name can't be read.
    ghost lacks: { Self → List ℕ → Type 0 };

    /// The first `most` bytes of a file, or all of them where there are fewer.
    fn read(&self, alloc: Global, name: &str, most: u64) -> Result<Vec<u8>, FileFault>
        ensures bytes { IfOk result (λ bytes. IsReadOf (has self.now name.now) most bytes.items) }
        ensures failed { IfErr result
            (λ fault. fault ≢ FileFault.NoMemory → lacks self.now name.now) };
}
