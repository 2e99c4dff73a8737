// The touch of one layout object at a page position.
ghost use Rattle.std.specs.Prelude.{◌≡◌, ℕ};
ghost use Rattle.raster.specs.declared.touches.Touch.{Touch};
ghost use Rattle.raster.specs.Touches.{Alike, touch_at};

use crate::covers::Cover;
use crate::layers::Layer;
use crate::sources::Source;

// Where a layout object stands on the page, in page grid units: its rectangle, and where its mask and its image begin
// within it.
#[derive(Clone, Copy)]
pub struct Placement {
    // LHoff and LVoff, the rectangle's first column and first row.
    pub lhoff: u32,
    pub lvoff: u32,
    // LWidth and LHeight, how many columns and rows the rectangle has.
    pub lwidth: u32,
    pub lheight: u32,
    // OHoff and OVoff of the mask: how far its corner lies across and down from the rectangle's.
    pub mask_across: u32,
    pub mask_down: u32,
    // OHoff and OVoff of the image, likewise.
    pub image_across: u32,
    pub image_down: u32,
}

// What a layout object does to a page position.
#[derive(Clone, Copy, PartialEq, Eq, Debug)]
pub enum Touch<C> {
    // Nothing.
    Bare,
    // The mask's sample that decides is not there yet.
    MaskMissing,
    // The image's sample that is wanted is not there yet.
    ImageMissing,
    // The colour is laid over what stands there, with the cover.
    Dab(C, Cover),
}

// What touches the positions of a page: a layout object with its mask and its image.
pub trait Touching {
    // The kind of colour that it lays.
    type Colour: Copy;

    // What it is on one row.
    type Row: TouchingRow<Colour = Self::Colour> + Copy;

    // The touch at each column and row.
    ghost touch: { Self → ℕ → ℕ → Touch Self.Colour };

    // What is the same along a row is worked out here, once.
    fn on_row(&self, row: u32) -> Self::Row
        ensures number { Self.Row.number result ≡ row }
        ensures touch { Self.Row.touch result ≡ touch self.now };
}

// What touches the positions of a page, on one of its rows.
pub trait TouchingRow {
    // The kind of colour that it lays.
    type Colour: Copy;

    // Which row it is, and the touch at each column and row.
    ghost number: { Self → ℕ };

    ghost touch: { Self → ℕ → ℕ → Touch Self.Colour };

    // The row's number.
    fn number(&self) -> u32
        ensures { result ≡ number self.now };

    // The touch at a column of the row.
    fn touched(&self, column: u32) -> Touch<Self::Colour>
        ensures { result ≡ touch self.now column (number self.now) };
}

// The touch of a layout object at a page position: it depends on what mask and image mean, and on nothing else of them.
pub fn touched<C: Copy, M: Source<Sample = Cover>, I: Source<Sample = C>>(
    place: Placement,
    mask: &M,
    image: &I,
    column: u32,
    row: u32,
) -> Touch<C>
    ensures answer { result ≡ touch_at place (M.Source.meaning mask.now) (I.Source.meaning image.now) column row }
    ensures alike { Alike place (M.Source.meaning mask.now) (I.Source.meaning image.now) column row result }
{
    let layer = Layer { place, mask, image };
    layer.on_row(row).touched(column)
}
