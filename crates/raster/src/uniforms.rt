// A source with one sample at every place.
ghost use Rattle.std.specs.Prelude.{◌≡◌, ℕ};
ghost use Rattle.raster.specs.Meanings.{uniform};

use crate::sources::{Look, Source};

// One sample, and the size that it has.
#[derive(Clone, Copy)]
pub struct Uniform<S> {
    pub width: u16,
    pub height: u16,
    pub sample: S,
}

impl<S: Copy> Source for Uniform<S> {
    type Sample = S;

    ghost meaning = { λ s. uniform s.width s.height s.sample };

    fn width(&self) -> u16 {
        self.width
    }

    fn height(&self) -> u16 {
        self.height
    }

    fn look(&self, column: u64, row: u64) -> Look<S> {
        if self.is_place(column, row) {
            Look::Found(self.sample)
        } else {
            Look::Outside
        }
    }
}
