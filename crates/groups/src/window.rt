//! How many own turns the components of a group may have done since their base.
ghost use Rattle.std.specs.Prelude.{◌≡◌, ◌≤◌};

/// A window: so many turns of its own each component of a group may have done since its base. Before one more the group waits until the
/// bound has risen and it has given up what is done below it.
#[derive(Clone, Copy, PartialEq, Eq)]
pub struct Window {
    pub(crate) turns: u32,
}

impl Window {
    /// A window of so many own turns, 1 to 65,535.
    pub fn new(turns: u32) -> Window
        requires { (1 ≤ turns) × (turns ≤ 65535) }
        ensures { result.turns ≡ turns }
    {
        Window { turns }
    }

    /// How many own turns it has.
    pub fn turns(self) -> u32
        ensures { result ≡ self.turns }
    {
        self.turns
    }
}
