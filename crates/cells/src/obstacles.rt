// The pass that looks for what is in the way before an object is laid on a window.
ghost use Rattle.std.specs.Prelude.{◌≡◌};
ghost use Rattle.cells.specs.Gathers.{first, or_else};
ghost use Rattle.cells.specs.Passes.{out_of_turn, missing};

use crate::ones::{early_cell, missing_cell};
use crate::panes::Pane;
use crate::rectangles::Position;
use crate::refusals::Refusal;
use crate::stored::Cell;
use raster::Touching;

// Why the object `k` cannot be laid on a window: the first cell below level `k`, or else the first cell at level `k`
// whose touch is not there yet. An Option, as of any search: `lay_window` makes an error of what is found.
pub fn first_obstacle<C: Copy, L: Touching<Colour = C>>(
    cells: &[Cell<C>],
    pane: Pane,
    k: u8,
    layer: &L,
) -> Option<Refusal>
    ensures answer { result ≡ or_else (first pane.area pane.window (out_of_turn k) cells.now) (first pane.area pane.window (missing k (L.Touching.touch layer.now)) cells.now) }
{
    let mut early = None;
    let mut lacking = None;
    // Nested loops, of which both are left at the first cell below level `k`: see also `Pane::row_span`.
    'rows: for row in pane.window.top..pane.window.bottom {
        let span = pane.row_span(row, cells.len());
        let line = layer.on_row(row);
        for (i, cell) in cells[span.start..span.end].iter().enumerate() {
            let column = pane.window.left + i as u32;
            early = early_cell(*cell, k, Position { column, row });
            if early.is_some() {
                break 'rows;
            }
            lacking = lacking.or_else(|| missing_cell(*cell, k, &line, column));
        }
    }
    early.or(lacking)
}
