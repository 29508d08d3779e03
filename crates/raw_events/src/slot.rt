//! What a node holds.

// An item, and whether another node comes after it.
#[derive(Drop)]
pub struct Slot<T> {
    pub(crate) item: T,
    pub(crate) more: bool,
}
