// Papers: blank or ink, with nothing between.
ghost use Rattle.std.specs.Prelude.{◌≡◌};
ghost use Rattle.raster.specs.Blends.{paper_blended, paper_shown};
ghost use Rattle.std.proofs.Common.{rules};

use crate::colours::Colour;
use crate::covers::Cover;
use crate::shortages::Shortage;
use crate::shows::put;

// Blank, or ink, which show as 0 and 1.
#[derive(Clone, Copy, PartialEq, Eq, Debug)]
pub enum Paper {
    Blank = 0,
    Ink = 1,
}

// The least amount of a cover that shows what lies above.
const HALF: u8 = 128;

impl Colour for Paper {
    ghost blended = { paper_blended };

    ghost shown = { paper_shown };

    ghost BYTES = { 1 };

    const BYTES: usize = 1;

    ghost keeps = { Prim.search rules };

    ghost hides = { Prim.search rules };

    ghost sized = { Prim.search rules };

    ghost distinct = { Prim.search rules };

    ghost bounded = { Prim.search rules };

    fn blend(self, above: Paper, cover: Cover) -> Paper {
        if cover.amount >= HALF { above } else { self }
    }

    fn show(self, buffer: &mut [u8], at: usize) -> Result<usize, Shortage> {
        put(buffer, at, &[self as u8])
    }
}
