// The pass that lays an object on a window.
ghost use Rattle.std.specs.Prelude.{◌≡◌, ◌+◌, ◌^◌, ◌<◌, ◌≤◌, length};
ghost use Rattle.std.specs.List.{sum_by};
ghost use Rattle.cells.specs.Gathers.{changed, changed_from, total};
ghost use Rattle.cells.specs.Passes.{laid_cell, at_level, above_level};

use crate::ones::{above_level, at_level, lay_cell};
use crate::panes::Pane;
use crate::stored::Cell;
use raster::{Colour, Touching, TouchingRow};

// Lays the object `k` on the cells of a row, of which the first stands at the column `left`, and answers how many were
// raised and how many were passed over.
fn lay_row<C: Colour, R: TouchingRow<Colour = C>>(
    cells: &mut [Cell<C>],
    left: u32,
    k: u8,
    row: &R,
) -> (u32, u32)
    requires few { length cells.old ≤ 1024 }
    requires columns { left + length cells.old < 2 ^ 32 }
    ensures raised { result.0 ≡ sum_by (at_level k 0 0) cells.old }
    ensures passed { result.1 ≡ sum_by (above_level k 0 0) cells.old }
    ensures cells { cells.new ≡ changed_from (λ column. laid_cell C.Colour.blended k (R.TouchingRow.touch row.now) column (R.TouchingRow.number row.now)) left cells.old }
{
    let mut raised: u32 = 0;
    let mut passed: u32 = 0;
    for (i, cell) in cells.iter_mut().enumerate() {
        raised += at_level(*cell, k as u16);
        passed += above_level(*cell, k as u16);
        *cell = lay_cell(*cell, k, row, left + i as u32);
    }
    (raised, passed)
}

// Lays the object `k` on the cells of a window that stand at level `k`, and answers how many were raised and how many
// were passed over.
pub fn lay_cells<C: Colour, L: Touching<Colour = C>>(
    cells: &mut [Cell<C>],
    pane: Pane,
    k: u8,
    layer: &L,
) -> (u64, u64)
    ensures raised { result.0 ≡ total pane.area pane.window (at_level k) cells.old }
    ensures passed { result.1 ≡ total pane.area pane.window (above_level k) cells.old }
    ensures cells { cells.new ≡ changed pane.area pane.window (laid_cell C.Colour.blended k (L.Touching.touch layer.now)) cells.old }
{
    let mut raised: u64 = 0;
    let mut passed: u64 = 0;
    // Row by row, in a loop: see `Pane::row_span`.
    for row in pane.window.top..pane.window.bottom {
        let span = pane.row_span(row, cells.len());
        let line = layer.on_row(row);
        let (up, over) = lay_row(&mut cells[span.start..span.end], pane.window.left, k, &line);
        raised += up as u64;
        passed += over as u64;
    }
    (raised, passed)
}
