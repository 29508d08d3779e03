//! Tuples that follow each other.
use smallvec::SmallVec;

/// So many tuples of an entry, from a place on.
#[derive(Clone, Copy, Default)]
pub struct Span {
    pub from: usize,
    pub count: usize,
}

/// Spans in order; up to eight take no memory.
pub(crate) type Spans = SmallVec<Span, 8>;

/// A span of the entry at a place.
#[derive(Clone, Copy, Default)]
pub struct Found {
    pub place: usize,
    pub from: usize,
    pub count: usize,
}

/// What was found in order; up to eight take no memory.
pub type Founds = SmallVec<Found, 8>;
