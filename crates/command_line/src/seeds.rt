//! Ranges of seeds.
ghost use Rattle.std.specs.Prelude.{◌<◌};

/// A range of seeds, its ends included.
#[derive(Clone, Copy)]
pub struct Seeds {
    /// The first seed, which isn't above the last.
    pub first: u64,
    /// The last seed, 0 to 18,446,744,073,709,551,614.
    pub last: u64,
    pub ghost below: { last < 18446744073709551615 },
}
