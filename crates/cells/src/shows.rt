// The pass that shows a window.
ghost use Rattle.std.specs.Prelude.{◌≡◌, ◌+◌, ◌^◌, ◌<◌, ◌≤◌, length};
ghost use Rattle.raster.specs.Shown.{put};
ghost use Rattle.std.specs.List.{sum_by};
ghost use Rattle.cells.specs.Gathers.{total};
ghost use Rattle.cells.specs.Passes.{at_level};
ghost use Rattle.cells.specs.Shows.{shown_cells, shown_window, show_answer, show_buffer};

use crate::ones::at_level;
use crate::panes::Pane;
use crate::refusals::Refusal;
use crate::stored::Cell;
use raster::Colour;

// Writes the colours of some cells into the buffer from `to` on, and answers the place after them and how many of the
// cells stand at the level `full`.
fn show_row<C: Colour>(cells: &[Cell<C>], full: u16, buffer: &mut [u8], to: usize) -> (usize, u32)
    requires few { length cells.now ≤ 1024 }
    requires room { to + length (shown_cells C.Colour.shown cells.now) ≤ length buffer.old }
    ensures next { result.0 ≡ to + length (shown_cells C.Colour.shown cells.now) }
    ensures answer { result.1 ≡ sum_by (at_level full 0 0) cells.now }
    ensures buffer { buffer.new ≡ put buffer.old to (shown_cells C.Colour.shown cells.now) }
{
    // Each colour is given exactly its own bytes, and the cells are counted in 32 bits: so the compiler needs no check
    // within the loop, and can take several cells at once. The bytes are taken by index: an iterator over mutable
    // chunks, or `split_at_mut` on what is left, tells nothing after the loop of what was written.
    let size = C::BYTES;
    let mut finished: u32 = 0;
    for (i, cell) in cells.iter().enumerate() {
        let place = to + i * size;
        let _ = cell.colour.show(&mut buffer[place..place + size], 0);
        finished += at_level(*cell, full);
    }
    (to + cells.len() * size, finished)
}

// Writes the colours of a window, row after row, to the beginning of a buffer that has room for them, and answers how
// many of its cells stand at the level `full`.
fn write_cells<C: Colour>(cells: &[Cell<C>], pane: Pane, full: u16, buffer: &mut [u8]) -> u64
    requires { length (shown_window C.Colour.shown pane.area pane.window cells.now) ≤ length buffer.old }
    ensures answer { result ≡ total pane.area pane.window (at_level full) cells.now }
    ensures buffer { buffer.new ≡ put buffer.old 0 (shown_window C.Colour.shown pane.area pane.window cells.now) }
{
    let mut finished: u64 = 0;
    let mut to: usize = 0;
    // Row by row, in a loop: see `Pane::row_span`.
    for row in pane.window.top..pane.window.bottom {
        let span = pane.row_span(row, cells.len());
        let (next, done) = show_row(&cells[span.start..span.end], full, buffer, to);
        to = next;
        finished += done as u64;
    }
    finished
}

// Shows a window in a buffer, and answers how many of its cells stand at the level `full`; refused, with nothing
// written, where the buffer is too short.
pub fn show_cells<C: Colour>(
    cells: &[Cell<C>],
    pane: Pane,
    full: u16,
    buffer: &mut [u8],
) -> Result<u64, Refusal>
    ensures answer { result ≡ show_answer C.Colour.BYTES full pane.area pane.window cells.now buffer.old }
    ensures buffer { buffer.new ≡ show_buffer C.Colour.shown C.Colour.BYTES pane.area pane.window cells.now buffer.old }
{
    if buffer.len() < pane.positions() * C::BYTES {
        return Err(Refusal::Buffer);
    }
    Ok(write_cells(cells, pane, full, buffer))
}
