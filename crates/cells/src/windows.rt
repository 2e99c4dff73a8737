// The calls on a window of a canvas: each asks first whether the window passes, and leaves everything as it was where it is refused.
ghost use Rattle.std.specs.Prelude.{◌≡◌};
ghost use Rattle.cells.specs.Gathers.{changed, total};
ghost use Rattle.cells.specs.Outcomes.{in_the_way, lay_counts, laid_cells, wipe_answer, wiped_cells, shown_answer, shown_buffer};
ghost use Rattle.cells.specs.Passes.{at_level, fresh, level_of};

use crate::frames::Frame;
use crate::lays::lay_cells;
use crate::obstacles::first_obstacle;
use crate::rectangles::Rectangle;
use crate::refusals::Refusal;
use crate::shows::show_cells;
use crate::stored::Cell;
use crate::tallies::tally_cells;
use crate::wipes::wipe_cells;
use raster::{Colour, Touching};

// Lays the object `k` on a window.
pub fn lay_window<C: Colour, L: Touching<Colour = C>>(
    cells: &mut [Cell<C>],
    frame: Frame,
    window: Rectangle,
    k: u8,
    layer: &L,
) -> Result<(u64, u64), Refusal>
    ensures answer { result ≡ lay_counts k frame.area window cells.old (in_the_way k (L.Touching.touch layer.now) frame.area window cells.old) }
    ensures cells { cells.new ≡ laid_cells C.Colour.blended k (L.Touching.touch layer.now) frame.area window cells.old (in_the_way k (L.Touching.touch layer.now) frame.area window cells.old) }
{
    let pane = frame.pane(window)?;
    if pane.has_no_column() {
        return Ok((0, 0));
    }
    match first_obstacle(cells, pane, k, layer) {
        Some(refusal) => Err(refusal),
        None => Ok(lay_cells(cells, pane, k, layer)),
    }
}

// Wipes a window.
pub fn wipe_window<C: Copy>(
    cells: &mut [Cell<C>],
    frame: Frame,
    window: Rectangle,
    colour: C,
) -> Result<u64, Refusal>
    ensures answer { result ≡ wipe_answer frame.area window cells.old }
    ensures cells { cells.new ≡ wiped_cells colour frame.area window cells.old }
{
    let pane = frame.pane(window)?;
    if pane.has_no_column() {
        return Ok(0);
    }
    Ok(wipe_cells(cells, pane, colour))
}

// Shows a window in a buffer.
pub fn show_window<C: Colour>(
    cells: &[Cell<C>],
    frame: Frame,
    window: Rectangle,
    full: u16,
    buffer: &mut [u8],
) -> Result<u64, Refusal>
    ensures answer { result ≡ shown_answer C.Colour.BYTES full frame.area window cells.now buffer.old }
    ensures buffer { buffer.new ≡ shown_buffer C.Colour.shown C.Colour.BYTES frame.area window cells.now buffer.old }
{
    let pane = frame.pane(window)?;
    if pane.has_no_column() {
        return Ok(0);
    }
    show_cells(cells, pane, full, buffer)
}

// Gives every cell of a canvas a colour and level 0.
pub fn clear<C: Copy>(cells: &mut [Cell<C>], frame: Frame, colour: C)
    ensures cells { cells.new ≡ changed frame.area frame.area (fresh colour) cells.old }
{
    let _ = wipe_cells(cells, frame.whole(), colour);
}

// How many cells of a canvas stand at the level `full`, and the sum of all its levels.
pub fn tally<C: Copy>(cells: &[Cell<C>], frame: Frame, full: u16) -> (u64, u64)
    ensures finished { result.0 ≡ total frame.area frame.area (at_level full) cells.now }
    ensures levels { result.1 ≡ total frame.area frame.area level_of cells.now }
{
    tally_cells(cells, frame.whole(), full)
}
