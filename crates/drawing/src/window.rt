//! Which turns are drawn.
ghost use Rattle.std.specs.Prelude.{◌≤◌};

/// The most turns that are drawn: of more the first so many, and a line says so.
pub const MOST_TURNS: usize = 2_000;

/// The ticks of the turns that are drawn, both included.
#[derive(Clone, Copy, PartialEq, Eq)]
pub struct Window {
    pub from: u64,
    pub to: u64,
    pub ghost short: { to ≤ 4294967296 },
}
