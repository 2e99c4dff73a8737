// Covers: how much of what lies below a sample hides.
ghost use Rattle.std.specs.Prelude.{◌≡◌};
ghost use Rattle.raster.specs.Covers.{no_cover, full_cover};

// A whole number from 0, none, to `FULL`, full.
#[derive(Clone, Copy, PartialEq, Eq, Debug)]
pub struct Cover {
    pub amount: u8,
}

// The amount of full cover, which is also the number of steps from none to full.
pub const FULL: u8 = 255;

// The cover that leaves what lies below as it is.
pub fn no_cover() -> Cover
    ensures value { result ≡ no_cover }
{
    Cover { amount: 0 }
}

// The cover that hides all that lies below.
pub fn full_cover() -> Cover
    ensures value { result ≡ full_cover }
{
    Cover { amount: FULL }
}
