//! How many own turns a component may have done since its base.
ghost use Rattle.std.specs.Prelude.{◌≡◌, ◌≤◌, true};
ghost use Rattle.exchange.specs.Windows.{same_window};

/// A window: so many turns of its own a component may have done since its base. Before one more it waits until the bound has risen and its
/// lease has met the exchange.
#[derive(Clone, Copy, PartialEq, Eq)]
pub struct Window {
    pub(crate) turns: u32,
}

impl Window {
    /// A window of so many own turns, 1 to 65,535.
    pub fn new(turns: u32) -> Window
        requires { (1 ≤ turns) × (turns ≤ 65535) }
        ensures { result.turns ≡ turns }
    {
        Window { turns }
    }

    /// How many own turns it has.
    pub fn turns(self) -> u32
        ensures { result ≡ self.turns }
    {
        self.turns
    }
}

// Whether both have the same window, or neither has one.
pub(crate) fn is_same_window(a: Option<Window>, b: Option<Window>) -> bool
    ensures answer { result ≡ same_window a b }
    ensures same { result ≡ true → a ≡ b }
{
    match (a, b) {
        (None, None) => true,
        (Some(first), Some(second)) => first.turns == second.turns,
        (None, Some(_)) => false,
        (Some(_), None) => false,
    }
}
