// Tints.
ghost use Rattle.std.specs.Prelude.{◌≡◌};
ghost use Rattle.raster.specs.Blends.{tint_blended, tint_shown};
ghost use Rattle.std.proofs.Common.{rules};

use crate::colours::Colour;
use crate::covers::Cover;
use crate::greys::blend_shade;
use crate::shortages::Shortage;
use crate::shows::put;

// Red, green and blue, each from 0 to 255.
#[derive(Clone, Copy, PartialEq, Eq, Debug)]
pub struct Tint {
    pub red: u8,
    pub green: u8,
    pub blue: u8,
}

impl Colour for Tint {
    ghost blended = { tint_blended };

    ghost shown = { tint_shown };

    ghost BYTES = { 3 };

    const BYTES: usize = 3;

    ghost keeps = { Prim.search rules };

    ghost hides = { Prim.search rules };

    ghost sized = { Prim.search rules };

    ghost distinct = { Prim.search rules };

    ghost bounded = { Prim.search rules };

    fn blend(self, above: Tint, cover: Cover) -> Tint {
        Tint {
            red: blend_shade(self.red, above.red, cover),
            green: blend_shade(self.green, above.green, cover),
            blue: blend_shade(self.blue, above.blue, cover),
        }
    }

    fn show(self, buffer: &mut [u8], at: usize) -> Result<usize, Shortage> {
        put(buffer, at, &[self.red, self.green, self.blue])
    }
}
