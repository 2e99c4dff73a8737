// The pass that wipes a window.
ghost use Rattle.std.specs.Prelude.{◌≡◌, ◌≤◌, length, map};
ghost use Rattle.std.specs.List.{sum_by};
ghost use Rattle.cells.specs.Gathers.{changed, total};
ghost use Rattle.cells.specs.Passes.{fresh, level_of};

use crate::ones::wipe_cell;
use crate::panes::Pane;
use crate::stored::Cell;

// Gives the cells of a row a colour and level 0, and answers the sum of their former levels.
fn wipe_row<C: Copy>(cells: &mut [Cell<C>], colour: C) -> u32
    requires { length cells.old ≤ 1024 }
    ensures answer { result ≡ sum_by (level_of 0 0) cells.old }
    ensures cells { cells.new ≡ map (fresh colour 0 0) cells.old }
{
    let mut levels: u32 = 0;
    for cell in cells.iter_mut() {
        levels += wipe_cell(cell, colour);
    }
    levels
}

// Gives the cells of a window a colour and level 0, and answers the sum of their former levels.
pub fn wipe_cells<C: Copy>(cells: &mut [Cell<C>], pane: Pane, colour: C) -> u64
    ensures answer { result ≡ total pane.area pane.window level_of cells.old }
    ensures cells { cells.new ≡ changed pane.area pane.window (fresh colour) cells.old }
{
    let mut levels: u64 = 0;
    // Row by row, in a loop: see `Pane::row_span`.
    for row in pane.window.top..pane.window.bottom {
        let span = pane.row_span(row, cells.len());
        levels += wipe_row(&mut cells[span.start..span.end], colour) as u64;
    }
    levels
}
