// Rectangles of page positions.
ghost use Rattle.std.specs.Prelude.{◌≡◌};
ghost use Rattle.cells.specs.Windows.{wide, high, spanned, granted};

// The columns from `left` and the rows from `top` on; the right column and the bottom row are left out.
#[derive(Clone, Copy, Default)]
pub struct Rectangle {
    pub left: u32,
    pub top: u32,
    pub right: u32,
    pub bottom: u32,
}

impl Rectangle {
    // How many columns it has: none where it is reversed.
    pub fn columns(self) -> u32
        ensures value { result ≡ wide self }
    {
        self.right.saturating_sub(self.left)
    }

    // How many rows it has, likewise.
    pub fn rows(self) -> u32
        ensures value { result ≡ high self }
    {
        self.bottom.saturating_sub(self.top)
    }

    // Whether a window of it passes: across, and then down.
    pub(crate) fn grants(self, window: Rectangle) -> bool
        ensures value { result ≡ granted self window }
    {
        spans(self.left, self.right, window.left, window.right)
            && spans(self.top, self.bottom, window.top, window.bottom)
    }
}

// What a window has to pass in one direction, of an area from `low` up to `top`.
fn spans(low: u32, top: u32, from: u32, to: u32) -> bool
    ensures value { result ≡ spanned low top from to }
{
    from <= top && from <= to && to <= top && low <= from
}

// A page position.
#[derive(Clone, Copy, PartialEq, Eq, Debug)]
pub struct Position {
    pub column: u32,
    pub row: u32,
}
