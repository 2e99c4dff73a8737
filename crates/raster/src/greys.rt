// Greys.
ghost use Rattle.std.specs.Prelude.{◌≡◌};
ghost use Rattle.raster.specs.Blends.{Nearest, blended_shade, exact, grey_blended, grey_shown};
ghost use Rattle.std.proofs.Common.{rules};

use crate::colours::Colour;
use crate::covers::{Cover, FULL};
use crate::shortages::Shortage;
use crate::shows::put;

// A grey from 0 to 255.
#[derive(Clone, Copy, PartialEq, Eq, Debug)]
pub struct Grey {
    pub shade: u8,
}

// The exact blend of two shades, times full cover.
fn exact_blend(below: u8, above: u8, amount: u8) -> u32
    ensures value { result ≡ exact below above (record { amount = amount }) }
{
    let full = FULL as u32;
    let amount = amount as u32;
    below as u32 * (full - amount) + above as u32 * amount
}

// The shade that stands after `above` is laid over `below`: the whole number nearest to the exact blend.
pub fn blend_shade(below: u8, above: u8, cover: Cover) -> u8
    ensures value { result ≡ blended_shade below above cover }
    ensures nearest { Nearest below above cover result }
{
    let full = FULL as u32;
    let amount = cover.amount;
    ((exact_blend(below, above, amount) + full / 2) / full) as u8
}

impl Colour for Grey {
    ghost blended = { grey_blended };

    ghost shown = { grey_shown };

    ghost BYTES = { 1 };

    const BYTES: usize = 1;

    ghost keeps = { Prim.search rules };

    ghost hides = { Prim.search rules };

    ghost sized = { Prim.search rules };

    ghost distinct = { Prim.search rules };

    ghost bounded = { Prim.search rules };

    fn blend(self, above: Grey, cover: Cover) -> Grey
        ensures value { result ≡ grey_blended self above cover }
        ensures nearest { Nearest self.shade above.shade cover result.shade }
    {
        Grey {
            shade: blend_shade(self.shade, above.shade, cover),
        }
    }

    fn show(self, buffer: &mut [u8], at: usize) -> Result<usize, Shortage> {
        put(buffer, at, &[self.shade])
    }
}
