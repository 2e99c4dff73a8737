// A whole canvas drawn from the bottom up.
ghost use Rattle.std.specs.Prelude.{◌≡◌};
ghost use Rattle.plan.specs.Page.{page_of};
ghost use Rattle.canvas.specs.Canvases.{view_of};
ghost use Rattle.canvas.specs.Views.{opened, finished, shown_in};
ghost use Rattle.linked.specs.Stacks.{stacked};

use canvas::Canvas;
use cells::{Cell, Rectangle};
use plan::lawful::Plan;
use raster::{Colour, Cover, Source};

// The parameters of these functions are those of the canvas's calls that they make; a struct of them would be taken apart at
// once.

// Lays the first `count` objects on a window, one after another, all with the same mask and image. A lay that is refused
// changes nothing.
fn lay_stack<C: Colour, M: Source<Sample = Cover>, I: Source<Sample = C>>(
    canvas: &mut Canvas<'_, C>,
    count: u32,
    window: Rectangle,
    mask: &M,
    image: &I,
)
    ensures canvas { view_of canvas.new ≡ stacked C.Colour.blended (view_of canvas.old) count window (M.Source.meaning mask.now) (I.Source.meaning image.now) }
    ensures lends { canvas.new.cells.ghost_name ≡ canvas.old.cells.ghost_name }
{
    for k in 0..count {
        let _ = canvas.lay(k, window, mask, image);
    }
}

// Opens a canvas, lays the first `count` objects on all of it, shows all of it in a buffer that is long enough, and
// closes it. Answers the number of finished cells.
pub fn draw_stack<C: Colour, M: Source<Sample = Cover>, I: Source<Sample = C>>(
    plan: Plan,
    area: Rectangle,
    memory: &mut [Cell<C>],
    colour: C,
    count: u32,
    mask: &M,
    image: &I,
    buffer: &mut [u8],
) -> u64
    ensures answer { result ≡ finished (stacked C.Colour.blended (opened (page_of plan) area memory.old colour) count area (M.Source.meaning mask.now) (I.Source.meaning image.now)) }
    ensures cells { memory.new ≡ (stacked C.Colour.blended (opened (page_of plan) area memory.old colour) count area (M.Source.meaning mask.now) (I.Source.meaning image.now)).cells }
    ensures buffer { buffer.new ≡ shown_in C.Colour.shown C.Colour.BYTES (stacked C.Colour.blended (opened (page_of plan) area memory.old colour) count area (M.Source.meaning mask.now) (I.Source.meaning image.now)) area buffer.old }
{
    let mut canvas = Canvas::open(plan, area, memory, colour);
    lay_stack(&mut canvas, count, area, mask, image);
    let _ = canvas.show(area, buffer);
    let (finished, _) = canvas.close();
    finished
}
