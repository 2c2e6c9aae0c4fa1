ghost use Rattle.std.specs.Prelude.{◌≡◌, ◌*◌, ◌≤◌, ◌↔◌, IsTrue, MatchOption, ◌<◌};

use elm_base::Name;
use sqlite_items::Items;

/// An Element: rows of chars, each of which is a cell.
#[derive(Drop)]
pub struct Cells {
    /// How many chars each row has.
    pub width: u32,
    /// How many rows there are.
    pub height: u32,
    /// The rows from top to bottom, in UTF-8.
    pub rows: Items<Name>,
}

/// Where the next item of a flow stands.
#[derive(Clone, Copy, Debug, PartialEq, Eq)]
pub enum Direction {
    Up,
    Down,
    Left,
    Right,
}

/// Where an Element stands in its container.
#[derive(Clone, Copy, Debug, PartialEq, Eq)]
pub enum Position {
    TopLeft,
    Middle,
    BottomRight,
}

/// How large an Element would be, in cells. It may be larger than an Element can be.
#[derive(Clone, Copy, Debug, PartialEq, Eq)]
pub struct Size {
    pub width: u64,
    pub height: u64,
}
