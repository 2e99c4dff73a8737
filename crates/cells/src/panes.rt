// A window of a canvas that has passed, and where its cells lie.
ghost use Rattle.std.specs.Prelude.{◌≡◌, ◌+◌, ◌*◌, ◌^◌, ◌<◌, ◌≤◌, min, nat_le, true};
ghost use Rattle.cells.specs.Windows.{wide, high, granted, index_at};

use crate::rectangles::Rectangle;
use std::ops::Range;

#[derive(Clone, Copy)]
pub struct Pane {
    pub area: Rectangle,
    pub window: Rectangle,
    ghost narrow: { wide area ≤ 1024 },
    ghost passes: { granted area window ≡ true },
}

impl Pane {
    // Whether the window has no column, and so no cell, however many rows it has: then no row is gone through.
    pub fn has_no_column(self) -> bool
        ensures value { result ≡ nat_le self.window.right self.window.left }
    {
        self.window.right <= self.window.left
    }

    // How many positions the window has.
    pub fn positions(self) -> usize
        ensures value { result ≡ wide self.window * high self.window }
        ensures bound { result < 2 ^ 43 }
    {
        self.window.columns() as usize * self.window.rows() as usize
    }

    // Where the cells of a row of the window lie in a memory of so many cells: all that are there, at most 1,024. Each
    // pass is a loop over the rows with this, and not one function with a closure for a row: of what a closure adds to
    // the totals that it captures a proof would know nothing. A row is a plain slice, whose length a pass bounds in its
    // `requires`: a struct that says so would have to be two, over a shared slice and over a mutable one.
    pub fn row_span(self, row: u32, length: usize) -> Range<usize>
        ensures from { result.start ≡ min (index_at self.area self.window.left row) length }
        ensures to { result.end ≡ min (index_at self.area self.window.left row + wide self.window) length }
    {
        let start = self.row_start(row);
        let end = start + self.window.columns() as usize;
        if end <= length {
            start..end
        } else {
            clipped(start, end, length)
        }
    }

    // Which cell lies at the left of a row of the window, for any row.
    fn row_start(self, row: u32) -> usize
        ensures value { result ≡ index_at self.area self.window.left row }
        ensures bound { result < 2 ^ 43 }
    {
        let area = self.area;
        let down = row.saturating_sub(area.top) as usize;
        let across = self.window.left.saturating_sub(area.left) as usize;
        down * area.columns() as usize + across
    }
}

// What a length leaves of a span. A function of its own, which is not compiled into `row_span`: the memory nearly always has
// all of a row's cells, and then the way to them is short, which counts where a row has few.
#[cold]
#[inline(never)]
fn clipped(start: usize, end: usize, length: usize) -> Range<usize>
    ensures from { result.start ≡ min start length }
    ensures to { result.end ≡ min end length }
{
    start.min(length)..end.min(length)
}
