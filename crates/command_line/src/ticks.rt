//! The ticks of a diagram.
ghost use Rattle.std.specs.Prelude.{◌≤◌};

/// The ticks of the turns that are drawn, both included.
#[derive(Clone, Copy)]
pub struct Ticks {
    /// The first tick, 0 to 4,294,967,296.
    pub from: u64,
    /// The last tick, 0 to 4,294,967,296; below the first, nothing is drawn.
    pub to: u64,
    pub ghost short: { to ≤ 4294967296 },
}
