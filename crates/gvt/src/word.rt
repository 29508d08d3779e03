//! A published word and its seats.
ghost use Rattle.std.specs.Prelude.{◌≡◌};

use crate::rule::{Greatest, Known};
use atomic_table::Table;
use std::alloc::Global;

/// A count that several threads raise and read without waiting for each other: the greatest that any of its seats has published, or 0.
#[derive(Drop)]
pub struct Published {
    pub(crate) table: Table<(), Known, (), Greatest, Global>,
    ghost one_word: { table.shared.table_id.words ≡ 1 },
}

/// The right to publish and to read, which one thread holds. It knows what was published with it and what was read with it last.
#[derive(Drop)]
pub struct Seat {
    pub(crate) place: atomic_table::Seat<(), Known>,
}
