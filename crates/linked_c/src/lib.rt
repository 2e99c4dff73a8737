// The exports of the crate linked, with C's calling convention, for programs in C or Rust that link the library, and for the benchmarks.
// Each stands here again, since a crate is a library or a static library.
#![tactic(auto)]

ghost use Rattle.std.specs.Prelude.{◌≡◌};
ghost use Rattle.reader.specs.Reading.{page_at};
ghost use Rattle.raster.specs.Blends.{grey_shown, tint_shown, paper_shown};
ghost use Rattle.canvas.specs.Views.{finished, shown_in};
ghost use Rattle.linked.specs.Sheets.{corner, grey_sheet, tint_sheet, paper_sheet};
ghost use Rattle.linked.specs.Verdict.{verdict};

// 0 where the page with a number can be read from the bytes of a file, and otherwise the number of the refusal: C has no Result.
#[unsafe(no_mangle)]
pub extern "C" fn page_verdict(file: &[u8], number: u64) -> u8
    ensures value { result ≡ verdict (page_at number file.now) }
{
    linked::page_verdict(file, number)
}

// Draws the first `count` objects on white, each with byte covers and one grey; answers the finished cells.
#[unsafe(no_mangle)]
pub extern "C" fn draw_grey(
    file: &[u8],
    wide: u16,
    high: u16,
    count: u32,
    covers: &[u8],
    shade: u8,
    buffer: &mut [u8],
) -> u64
    ensures answer { result ≡ finished (grey_sheet file.now wide high count covers.now shade) }
    ensures buffer { buffer.new ≡ shown_in grey_shown 1 (grey_sheet file.now wide high count covers.now shade) (corner wide high) buffer.old }
{
    linked::draw_grey(file, wide, high, count, covers, shade, buffer)
}

// Draws the first `count` objects on white, each with byte covers and tints of three bytes; answers the finished cells.
#[unsafe(no_mangle)]
pub extern "C" fn draw_tint(
    file: &[u8],
    wide: u16,
    high: u16,
    count: u32,
    covers: &[u8],
    tints: &[u8],
    buffer: &mut [u8],
) -> u64
    ensures answer { result ≡ finished (tint_sheet file.now wide high count covers.now tints.now) }
    ensures buffer { buffer.new ≡ shown_in tint_shown 3 (tint_sheet file.now wide high count covers.now tints.now) (corner wide high) buffer.old }
{
    linked::draw_tint(file, wide, high, count, covers, tints, buffer)
}

// Draws the first `count` objects on blank paper, each with bit covers and ink; answers the finished cells.
#[unsafe(no_mangle)]
pub extern "C" fn draw_paper(
    file: &[u8],
    wide: u16,
    high: u16,
    count: u32,
    covers: &[u8],
    buffer: &mut [u8],
) -> u64
    ensures answer { result ≡ finished (paper_sheet file.now wide high count covers.now) }
    ensures buffer { buffer.new ≡ shown_in paper_shown 1 (paper_sheet file.now wide high count covers.now) (corner wide high) buffer.old }
{
    linked::draw_paper(file, wide, high, count, covers, buffer)
}
