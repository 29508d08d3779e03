//! Who is told how far a hunt is.

/// Who is told of the seeds that were looked at. Nothing is claimed of it, and what a hunt answers doesn't depend on it.
pub trait Looks {
    /// One more seed was looked at. Workers call it at any time, each for itself.
    fn looked(&self);
}

/// Nobody is told.
#[derive(Clone, Copy)]
pub struct Unwatched;

impl Looks for Unwatched {
    fn looked(&self) {}
}
