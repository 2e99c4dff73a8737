// A layout object with its mask and its image, as something that touches a page.
ghost use Rattle.std.specs.Prelude.{◌≡◌};
ghost use Rattle.raster.specs.Touches.{Alike, touch_at};

use crate::covers::Cover;
use crate::scanlines::touch_along;
use crate::scans::{Scan, scan_row};
use crate::sources::Source;
use crate::touches::{Placement, Touch, Touching, TouchingRow};

// A layout object: where it stands, and the sources that its mask and its image are taken from.
#[derive_where(Clone, Copy)]
pub struct Layer<'a, M, I> {
    pub place: Placement,
    pub mask: &'a M,
    pub image: &'a I,
}

// A layout object on one row of the page.
#[derive_where(Clone, Copy)]
pub struct LayerRow<'a, M, I> {
    scan: Scan,
    mask: &'a M,
    image: &'a I,
}

impl<'a, M: Source<Sample = Cover>, I: Source> Touching for Layer<'a, M, I> {
    type Colour = I::Sample;

    type Row = LayerRow<'a, M, I>;

    ghost touch = { λ l. touch_at l.place (M.Source.meaning l.mask.now) (I.Source.meaning l.image.now) };

    fn on_row(&self, row: u32) -> LayerRow<'a, M, I> {
        LayerRow {
            scan: scan_row(self.place, row),
            mask: self.mask,
            image: self.image,
        }
    }
}

impl<'a, M: Source<Sample = Cover>, I: Source> TouchingRow for LayerRow<'a, M, I> {
    type Colour = I::Sample;

    ghost number = { λ l. l.scan.row };

    ghost touch = { λ l. touch_at l.scan.place (M.Source.meaning l.mask.now) (I.Source.meaning l.image.now) };

    fn number(&self) -> u32 {
        self.scan.row
    }

    // It depends on what mask and image mean, and on nothing else of them: each cell that a lay looks at goes through here.
    fn touched(&self, column: u32) -> Touch<I::Sample>
        ensures answer { result ≡ touch_at self.now.scan.place (M.Source.meaning self.now.mask.now) (I.Source.meaning self.now.image.now) column self.now.scan.row }
        ensures alike { Alike self.now.scan.place (M.Source.meaning self.now.mask.now) (I.Source.meaning self.now.image.now) column self.now.scan.row result }
    {
        touch_along(self.scan.line, self.mask, self.image, column as u64)
    }
}
