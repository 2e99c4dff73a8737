// A layout object's place on a row of the page, tied to the place and the row that it was worked out from.
ghost use Rattle.std.specs.Prelude.{◌≡◌};
ghost use Rattle.raster.specs.Scanlines.{scanline_of};

use crate::scanlines::{Scanline, scanline_of};
use crate::touches::Placement;

#[derive(Clone, Copy)]
pub(crate) struct Scan {
    pub place: Placement,
    pub row: u32,
    pub line: Scanline,
    ghost worked: { line ≡ scanline_of place row },
}

// A layout object's place on a row.
pub(crate) fn scan_row(place: Placement, row: u32) -> Scan
    ensures place { result.place ≡ place }
    ensures row { result.row ≡ row }
{
    let line = scanline_of(place, row as u64);
    Scan { place, row, line }
}
