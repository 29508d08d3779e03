//! What stands between two neighbours.
ghost use Rattle.std.specs.Prelude.{◌≡◌};
ghost use Rattle.ioa_layout.specs.Gaps.{is_line, room_after};

/// The white space between two neighbours.
#[derive(Clone, Copy, PartialEq, Eq)]
pub(crate) enum Gap {
    Nothing,
    Space,
    /// Two blanks, before a comment behind its line.
    Margin,
    Line(Line),
}

/// The end of a line and the begin of another.
#[derive(Clone, Copy, PartialEq, Eq)]
pub(crate) struct Line {
    /// A blank line stands between the two.
    pub apart: bool,
    /// How many blanks stand at the front of the new line.
    pub indent: usize,
}

/// Lines have no more columns, where they can be broken.
pub(crate) const MOST_COLUMNS: usize = 100;

/// No line is indented further.
pub(crate) const MOST_INDENT: usize = 60;

impl Gap {
    /// How many columns are left behind the gap, where so many are before it.
    pub(crate) fn room_after(self, room: usize) -> usize
        ensures { result ≡ room_after self room }
    {
        match self {
            Gap::Nothing => room,
            Gap::Space => room.saturating_sub(1),
            Gap::Margin => room.saturating_sub(2),
            Gap::Line(line) => MOST_COLUMNS.saturating_sub(line.indent),
        }
    }

    /// It ends a line.
    pub(crate) fn is_line(self) -> bool
        ensures { result ≡ is_line self }
    {
        match self {
            Gap::Line(_) => true,
            _ => false,
        }
    }
}
