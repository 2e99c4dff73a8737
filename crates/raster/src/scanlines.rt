// A layout object on one row of the page: what does not change along the row, worked out once.
ghost use Rattle.std.specs.Prelude.{◌≡◌};
ghost use Rattle.raster.specs.Scanlines.{source_row, scanline_of, right_edge, looked_along, touch_along};

use crate::covers::Cover;
use crate::sources::{Look, Source};
use crate::touches::{Placement, Touch};

// Where a source stands on a row of the page.
#[derive(Clone, Copy)]
pub(crate) struct SourceRow {
    // The page column of its first sample.
    pub left: u64,
    // Which of its rows this is; none where the page row lies above its first.
    pub row: Option<u64>,
}

// A layout object's part of a row of the page.
#[derive(Clone, Copy)]
pub(crate) struct Scanline {
    // The columns of the layout rectangle; the right one is left out. None where the row lies outside of the rectangle.
    pub left: u64,
    pub right: u64,
    // Where mask and image stand.
    pub mask: SourceRow,
    pub image: SourceRow,
}

// Where a source with its corner at (`left`, `top`) stands on a row.
fn source_row(left: u64, top: u64, row: u64) -> SourceRow
    ensures value { result ≡ source_row left top row }
{
    SourceRow {
        left,
        row: row.checked_sub(top),
    }
}

// The column after the last of the layout rectangle, or its first where the row lies outside of the rectangle.
fn right_edge(place: Placement, row: u64) -> u64
    ensures value { result ≡ right_edge place row }
{
    let left = place.lhoff as u64;
    let top = place.lvoff as u64;
    if top <= row && row < top + place.lheight as u64 {
        left + place.lwidth as u64
    } else {
        left
    }
}

// A layout object's part of a row.
pub(crate) fn scanline_of(place: Placement, row: u64) -> Scanline
    ensures value { result ≡ scanline_of place row }
{
    let left = place.lhoff as u64;
    let top = place.lvoff as u64;
    Scanline {
        left,
        right: right_edge(place, row),
        mask: source_row(
            left + place.mask_across as u64,
            top + place.mask_down as u64,
            row,
        ),
        image: source_row(
            left + place.image_across as u64,
            top + place.image_down as u64,
            row,
        ),
    }
}

// What a source that stands so on a row has at a column.
fn look_along<S: Source>(source: &S, at: SourceRow, column: u64) -> Look<S::Sample>
    ensures answer { result ≡ looked_along (S.Source.meaning source.now) at column }
{
    match at.row {
        Some(row) => {
            if at.left <= column {
                source.look(column - at.left, row)
            } else {
                Look::Outside
            }
        }
        None => Look::Outside,
    }
}

// The touch of a layout object at a column of a row.
pub(crate) fn touch_along<C: Copy, M: Source<Sample = Cover>, I: Source<Sample = C>>(
    line: Scanline,
    mask: &M,
    image: &I,
    column: u64,
) -> Touch<C>
    ensures answer { result ≡ touch_along line (M.Source.meaning mask.now) (I.Source.meaning image.now) column }
{
    if column < line.left || line.right <= column {
        return Touch::Bare;
    }
    let cover = match look_along(mask, line.mask, column) {
        Look::Outside => return Touch::Bare,
        Look::Missing => return Touch::MaskMissing,
        Look::Found(cover) => cover,
    };
    if cover.amount == 0 {
        return Touch::Bare;
    }
    match look_along(image, line.image, column) {
        Look::Outside => Touch::Bare,
        Look::Missing => Touch::ImageMissing,
        Look::Found(colour) => Touch::Dab(colour, cover),
    }
}
