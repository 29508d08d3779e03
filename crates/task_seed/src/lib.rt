//! The turns of the components of a composition, and their keys.
#![tactic(auto)]

pub mod any_turns;
pub mod clock;
pub mod laws;
pub mod lines;
pub mod seed_turns;
pub mod setup;
pub mod table;
pub mod table_turns;
pub mod turns;
pub mod walk;

pub use any_turns::AnyTurns;
pub use clock::Clock;
pub use seed_turns::{SeedTurns, SeedTurnsError};
pub use setup::{Setup, SetupError};
pub use table::{ReadTableError, Row, read_table};
pub use table_turns::{TableTurns, TableTurnsError};
pub use turns::{KeyedTurn, Turn, Turns};
pub use walk::Walk;
