// The canvas and its calls.
ghost use Rattle.std.specs.Prelude.{◌≡◌, ◌+◌, true, ◌==◌};
ghost use Rattle.plan.specs.Page.{page_of};
ghost use Rattle.canvas.specs.Canvases.{view_of};
ghost use Rattle.canvas.specs.Cases.{WorkedCases};
ghost use Rattle.canvas.specs.Runs.{Run, Promise};
ghost use Rattle.canvas.specs.Sheets.{Sheet};
ghost use Rattle.canvas.specs.Views.{opened, lay_answer, laid, levels_wiped, wiped, finished_shown, shown_in, shown_from, finished, standing};

use crate::checks::prepare;
use crate::placements::place_of;
use cells::{Cell, Frame, Rectangle, Refusal, lay_window, show_window, tally, wipe_window};
use plan::lawful::Plan;
use raster::{Colour, Cover, Layer, Source};

// A rectangle of a page that is being drawn. The cells lie in the caller's memory. Clauses see it by `view_of`, and not by an
// `impl Model`, which would hide the field by which a caller learns that its memory is lent.
#[derive(Drop)]
pub struct Canvas<'a, C> {
    cells: &'a mut [Cell<C>],
    plan: Plan,
    frame: Frame,
}

impl<'a, C: Copy> Canvas<'a, C> {
    // A canvas on a rectangle of a page: each cell gets the page colour and level 0. Where `check` refuses, the canvas
    // is 0 by 0 at (0, 0) and no memory changes.
    pub fn open(
        plan: Plan,
        rectangle: Rectangle,
        memory: &'a mut [Cell<C>],
        colour: C,
    ) -> Canvas<'a, C>
        ensures lends { result.cells.ghost_name ≡ memory.entry.ghost_name }
        ensures plan { result.plan ≡ plan }
        ensures canvas { view_of result ≡ opened (page_of plan) rectangle memory.old colour }
    {
        let frame = prepare(&plan, rectangle, memory, colour);
        Canvas {
            cells: memory,
            plan,
            frame,
        }
    }
}

// Each call that keeps the canvas says that it still holds the caller's memory (`lends`). It is a clause, and no ghost field,
// since it compares the canvas before a call with the canvas after it.
impl<'a, C: Colour> Canvas<'a, C> {
    // Lays the object `k` on a window: each cell at level `k` takes its touch and gets level `k + 1`, and cells above
    // level `k` are passed over. Answers how many cells were raised and how many were passed over.
    pub fn lay<M: Source<Sample = Cover>, I: Source<Sample = C>>(
        &mut self,
        k: u32,
        window: Rectangle,
        mask: &M,
        image: &I,
    ) -> Result<(u64, u64), Refusal>
        ensures answer { result ≡ lay_answer (view_of self.old) k window (M.Source.meaning mask.now) (I.Source.meaning image.now) }
        ensures canvas { view_of self.new ≡ laid C.Colour.blended (view_of self.old) k window (M.Source.meaning mask.now) (I.Source.meaning image.now) }
        ensures lends { self.new.cells.ghost_name ≡ self.old.cells.ghost_name }
    {
        let place = place_of(&self.plan, k).ok_or(Refusal::Object)?;
        let frame = self.frame;
        let layer = Layer { place, mask, image };
        lay_window(self.cells, frame, window, k as u8, &layer)
    }

    // Gives the cells of a window the page colour and level 0, and answers the sum of their former levels.
    pub fn wipe(&mut self, window: Rectangle, colour: C) -> Result<u64, Refusal>
        ensures answer { result ≡ levels_wiped (view_of self.old) window }
        ensures canvas { view_of self.new ≡ wiped (view_of self.old) window colour }
        ensures lends { self.new.cells.ghost_name ≡ self.old.cells.ghost_name }
    {
        let frame = self.frame;
        wipe_window(self.cells, frame, window, colour)
    }

    // Writes the colours of a window, row after row, to the beginning of a buffer, and answers how many of its cells
    // are finished. Nothing in the canvas changes.
    pub fn show(&mut self, window: Rectangle, buffer: &mut [u8]) -> Result<u64, Refusal>
        ensures answer { result ≡ finished_shown C.Colour.BYTES (view_of self.old) window buffer.old }
        ensures buffer { buffer.new ≡ shown_in C.Colour.shown C.Colour.BYTES (view_of self.old) window buffer.old }
        ensures canvas { view_of self.new ≡ shown_from (view_of self.old) }
        ensures lends { self.new.cells.ghost_name ≡ self.old.cells.ghost_name }
    {
        let full = self.plan.count() as u16;
        let frame = self.frame;
        // Lent through a local: the check doesn't cover a shared slice that is lent straight from a field.
        let cells = &mut *self.cells;
        show_window(cells, frame, window, full, buffer)
    }

    // Whether the cells that lays reported raised are as many as the levels that wipes reported and those that stand in
    // all cells. Here stands what holds of every canvas, however it came about, and what the definitions say of a small
    // sheet: see `Promise` and `WorkedCases`. Nothing changes.
    pub fn balance(&mut self, raised: u64, removed: u64) -> bool
        ensures answer { result ≡ (raised == removed + standing (view_of self.old)) }
        ensures balanced { (sheet : Sheet C) → Run C.Colour.blended sheet (view_of self.old) raised removed → result ≡ true }
        ensures promise { Promise C.Colour.blended }
        ensures cases { WorkedCases }
        ensures canvas { view_of self.new ≡ view_of self.old }
        ensures lends { self.new.cells.ghost_name ≡ self.old.cells.ghost_name }
    {
        let frame = self.frame;
        // Lent through a local, as in `show`.
        let cells = &mut *self.cells;
        let (_, levels) = tally(cells, frame, 0);
        agrees(raised, removed, levels)
    }

    // Takes the canvas for good, and answers the number of finished cells and the sum of the levels. The cells stay in
    // the caller's memory as they were.
    pub fn close(self) -> (u64, u64)
        ensures finished { result.0 ≡ finished (view_of self.entry) }
        ensures levels { result.1 ≡ standing (view_of self.entry) }
        ensures cells { self.exit.0.now ≡ self.entry.cells.now }
    {
        let Canvas { cells, plan, frame } = self;
        let full = plan.count() as u16;
        tally(cells, frame, full)
    }
}

// Whether a number is the sum of two others.
fn agrees(sum: u64, one: u64, other: u64) -> bool
    ensures value { result ≡ (sum == one + other) }
{
    one <= sum && sum - one == other
}
