// The pass that counts the finished cells of a window and adds up its levels.
ghost use Rattle.std.specs.Prelude.{◌≡◌, ◌≤◌, length};
ghost use Rattle.std.specs.List.{sum_by};
ghost use Rattle.cells.specs.Gathers.{total};
ghost use Rattle.cells.specs.Passes.{at_level, level_of};

use crate::ones::at_level;
use crate::panes::Pane;
use crate::stored::Cell;

// How many cells of a row stand at the level `full`, and the sum of the row's levels.
fn tally_row<C: Copy>(cells: &[Cell<C>], full: u16) -> (u32, u32)
    requires { length cells.now ≤ 1024 }
    ensures finished { result.0 ≡ sum_by (at_level full 0 0) cells.now }
    ensures levels { result.1 ≡ sum_by (level_of 0 0) cells.now }
{
    // Both in one pass: two chains would go through the cells twice.
    let mut finished: u32 = 0;
    let mut levels: u32 = 0;
    for cell in cells {
        finished += at_level(*cell, full);
        levels += cell.level as u32;
    }
    (finished, levels)
}

// How many cells of a window stand at the level `full`, and the sum of the window's levels.
pub fn tally_cells<C: Copy>(cells: &[Cell<C>], pane: Pane, full: u16) -> (u64, u64)
    ensures finished { result.0 ≡ total pane.area pane.window (at_level full) cells.now }
    ensures levels { result.1 ≡ total pane.area pane.window level_of cells.now }
{
    let mut finished: u64 = 0;
    let mut levels: u64 = 0;
    // Row by row, in a loop: see `Pane::row_span`.
    for row in pane.window.top..pane.window.bottom {
        let span = pane.row_span(row, cells.len());
        let (done, level) = tally_row(&cells[span.start..span.end], full);
        finished += done as u64;
        levels += level as u64;
    }
    (finished, levels)
}
