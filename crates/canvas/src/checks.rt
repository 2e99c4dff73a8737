// Which rectangles can be canvases.
ghost use Rattle.std.specs.Prelude.{◌≡◌, ◌*◌, length};
ghost use Rattle.plan.specs.Page.{page_of};
ghost use Rattle.canvas.specs.Views.{lawful, check_answer, area_by, memory_by};

use cells::{Cell, Frame, Rectangle, Refusal, clear};
use plan::lawful::Plan;

// Whether a rectangle is neither empty nor reversed, in the page, and within the limits of a canvas.
fn is_lawful(plan: &Plan, rectangle: Rectangle) -> bool
    ensures value { result ≡ lawful (page_of plan.now) rectangle }
{
    let header = plan.header();
    let Rectangle {
        left,
        top,
        right,
        bottom,
    } = rectangle;
    left < right
        && top < bottom
        && right <= header.pwidth
        && bottom <= header.pheight
        && right - left <= 1024
        && bottom - top <= 1024
        && (right - left) * (bottom - top) <= 65536
}

// The number of cells of a rectangle, if it can be a canvas and the memory has so many cells.
pub fn check_size(plan: &Plan, rectangle: Rectangle, memory: usize) -> Result<usize, Refusal>
    ensures answer { result ≡ check_answer (page_of plan.now) rectangle memory }
{
    if !is_lawful(plan, rectangle) {
        return Err(Refusal::Rectangle);
    }
    let cells = rectangle.columns() as usize * rectangle.rows() as usize;
    if memory < cells {
        return Err(Refusal::Memory);
    }
    Ok(cells)
}

// The number of cells that a canvas on a rectangle of a page has; refused where the rectangle cannot be a canvas, and
// then where the memory has too few cells.
pub fn check<C: Copy>(
    plan: &Plan,
    rectangle: Rectangle,
    memory: &[Cell<C>],
) -> Result<usize, Refusal>
    ensures answer { result ≡ check_answer (page_of plan.now) rectangle (length memory.now) }
{
    check_size(plan, rectangle, memory.len())
}

// The rectangle of a canvas that is opened.
fn frame_of(plan: &Plan, rectangle: Rectangle, memory: usize) -> Frame
    ensures area { result.area ≡ area_by rectangle (check_answer (page_of plan.now) rectangle memory) }
{
    match check_size(plan, rectangle, memory) {
        Ok(_) => Frame { area: rectangle },
        Err(_) => Frame {
            area: Rectangle::default(),
        },
    }
}

// Gives each cell of a canvas that is opened the page colour and level 0, and answers the canvas's rectangle.
pub fn prepare<C: Copy>(
    plan: &Plan,
    rectangle: Rectangle,
    memory: &mut [Cell<C>],
    colour: C,
) -> Frame
    ensures area { result.area ≡ area_by rectangle (check_answer (page_of plan.now) rectangle (length memory.old)) }
    ensures cells { memory.new ≡ memory_by colour rectangle memory.old (check_answer (page_of plan.now) rectangle (length memory.old)) }
{
    let frame = frame_of(plan, rectangle, memory.len());
    clear(memory, frame, colour);
    frame
}
