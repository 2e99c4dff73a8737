// Sheets of each kind of colour, drawn whole: the page is the first of a file, and every object has the same samples.
ghost use Rattle.std.specs.Prelude.{◌≡◌};
ghost use Rattle.plan.specs.Page.{page_of};
ghost use Rattle.raster.specs.Blends.{grey_shown, tint_shown, paper_shown};
ghost use Rattle.canvas.specs.Views.{finished, shown_in};
ghost use Rattle.linked.specs.Sheets.{first_page, corner, drawn_sheet, grey_sheet, tint_sheet, paper_sheet};

use crate::stacks::draw_stack;
use cells::{Cell, Rectangle};
use plan::lawful::Plan;
use raster::{Bits, Bytes, Colour, Cover, Grey, Paper, Source, Tint, Triples, Uniform};
use reader::read::read;

// The most cells that a canvas has.
const MOST: usize = 65536;

// The plan of the first page of a file, or the blank one where it cannot be read.
fn first_page(file: &[u8]) -> Plan
    ensures page { page_of result ≡ first_page file.now }
{
    let mut plan = Plan::blank();
    let _ = read(file, 0, &mut plan);
    plan
}

// A rectangle at the page's corner.
fn corner(wide: u16, high: u16) -> Rectangle
    ensures value { result ≡ corner wide high }
{
    Rectangle {
        left: 0,
        top: 0,
        right: u32::from(wide),
        bottom: u32::from(high),
    }
}

// Draws the first `count` objects of a file's first page, all with the same mask and image, on a canvas at the page's
// corner, and shows the canvas in a buffer that is long enough. Answers the number of finished cells. The memory is an
// array of its caller's, which knows the kind of colour: of an array of any kind it is not proved that its size fits.
fn draw_sheet<C: Colour, M: Source<Sample = Cover>, I: Source<Sample = C>>(
    file: &[u8],
    wide: u16,
    high: u16,
    memory: &mut [Cell<C>],
    colour: C,
    count: u32,
    mask: &M,
    image: &I,
    buffer: &mut [u8],
) -> u64
    ensures answer { result ≡ finished (drawn_sheet C.Colour.blended file.now wide high memory.old colour count (M.Source.meaning mask.now) (I.Source.meaning image.now)) }
    ensures buffer { buffer.new ≡ shown_in C.Colour.shown C.Colour.BYTES (drawn_sheet C.Colour.blended file.now wide high memory.old colour count (M.Source.meaning mask.now) (I.Source.meaning image.now)) (corner wide high) buffer.old }
{
    let plan = first_page(file);
    let area = corner(wide, high);
    draw_stack(plan, area, memory, colour, count, mask, image, buffer)
}

// One function for each kind of colour, since `linked_c` exports each under a name of C's, which has no generic functions.

// Draws the first `count` objects on white, each with byte covers and one grey; answers the finished cells.
pub fn draw_grey(
    file: &[u8],
    wide: u16,
    high: u16,
    count: u32,
    covers: &[u8],
    shade: u8,
    buffer: &mut [u8],
) -> u64
    ensures answer { result ≡ finished (grey_sheet file.now wide high count covers.now shade) }
    ensures buffer { buffer.new ≡ shown_in grey_shown 1 (grey_sheet file.now wide high count covers.now shade) (corner wide high) buffer.old }
{
    let mask = Bytes::<Cover>::new(wide, high, covers);
    let image = Uniform {
        width: wide,
        height: high,
        sample: Grey { shade },
    };
    let white = Grey { shade: 255 };
    let mut memory = [Cell {
        colour: white,
        level: 0,
    }; MOST];
    draw_sheet(
        file,
        wide,
        high,
        &mut memory,
        white,
        count,
        &mask,
        &image,
        buffer,
    )
}

// Draws the first `count` objects on white, each with byte covers and tints of three bytes; answers the finished cells.
pub fn draw_tint(
    file: &[u8],
    wide: u16,
    high: u16,
    count: u32,
    covers: &[u8],
    tints: &[u8],
    buffer: &mut [u8],
) -> u64
    ensures answer { result ≡ finished (tint_sheet file.now wide high count covers.now tints.now) }
    ensures buffer { buffer.new ≡ shown_in tint_shown 3 (tint_sheet file.now wide high count covers.now tints.now) (corner wide high) buffer.old }
{
    let mask = Bytes::<Cover>::new(wide, high, covers);
    let image = Triples::new(wide, high, tints);
    let white = Tint {
        red: 255,
        green: 255,
        blue: 255,
    };
    let mut memory = [Cell {
        colour: white,
        level: 0,
    }; MOST];
    draw_sheet(
        file,
        wide,
        high,
        &mut memory,
        white,
        count,
        &mask,
        &image,
        buffer,
    )
}

// Draws the first `count` objects on blank paper, each with bit covers and ink; answers the finished cells.
pub fn draw_paper(
    file: &[u8],
    wide: u16,
    high: u16,
    count: u32,
    covers: &[u8],
    buffer: &mut [u8],
) -> u64
    ensures answer { result ≡ finished (paper_sheet file.now wide high count covers.now) }
    ensures buffer { buffer.new ≡ shown_in paper_shown 1 (paper_sheet file.now wide high count covers.now) (corner wide high) buffer.old }
{
    let mask = Bits::new(wide, high, covers);
    let image = Uniform {
        width: wide,
        height: high,
        sample: Paper::Ink,
    };
    let blank = Paper::Blank;
    let mut memory = [Cell {
        colour: blank,
        level: 0,
    }; MOST];
    draw_sheet(
        file,
        wide,
        high,
        &mut memory,
        blank,
        count,
        &mask,
        &image,
        buffer,
    )
}
