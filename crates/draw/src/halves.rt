// A canvas drawn by two windows that meet.
ghost use Rattle.std.specs.Prelude.{◌≡◌};
ghost use Rattle.plan.specs.Page.{page_of};
ghost use Rattle.canvas.specs.Views.{standing, finished};
ghost use Rattle.draw.specs.Halves.{halves};

use canvas::Canvas;
use cells::{Cell, Rectangle};
use plan::lawful::Plan;
use raster::{Colour, Cover, Source};

// Opens a canvas, lays object 0 on what lies left of a column and then on what lies right of it, and closes the canvas.
// Answers the number of finished cells and the sum of the levels.
pub fn draw_halves<C: Colour, M: Source<Sample = Cover>, I: Source<Sample = C>>(
    plan: Plan,
    area: Rectangle,
    middle: u32,
    memory: &mut [Cell<C>],
    colour: C,
    mask: &M,
    image: &I,
) -> (u64, u64)
    ensures finished { result.0 ≡ finished (halves C.Colour.blended (page_of plan) area middle memory.old colour (M.Source.meaning mask.now) (I.Source.meaning image.now)) }
    ensures levels { result.1 ≡ standing (halves C.Colour.blended (page_of plan) area middle memory.old colour (M.Source.meaning mask.now) (I.Source.meaning image.now)) }
    ensures cells { memory.new ≡ (halves C.Colour.blended (page_of plan) area middle memory.old colour (M.Source.meaning mask.now) (I.Source.meaning image.now)).cells }
{
    let mut canvas = Canvas::open(plan, area, memory, colour);
    let left = Rectangle {
        left: area.left,
        top: area.top,
        right: middle,
        bottom: area.bottom,
    };
    let right = Rectangle {
        left: middle,
        top: area.top,
        right: area.right,
        bottom: area.bottom,
    };
    let _ = canvas.lay(0, left, mask, image);
    let _ = canvas.lay(0, right, mask, image);
    canvas.close()
}
