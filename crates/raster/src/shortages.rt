// Refusals for want of room or of bytes.
ghost use Rattle.std.specs.Prelude.{◌≡◌, length};
ghost use Rattle.raster.specs.Shortages.{number_of, checked};

use std::error::Error;
use std::fmt;

// What there is too little of.
#[derive(Clone, Copy, PartialEq, Eq, Debug)]
pub enum Shortage {
    // The buffer that colours are shown in has too little room.
    Buffer = 25,
    // A source was handed fewer bytes than its size needs.
    Samples = 26,
}

impl Shortage {
    // The number of the refusal.
    pub fn number(self) -> u8
        ensures value { result ≡ number_of self }
    {
        self as u8
    }
}

impl fmt::Display for Shortage {
    ghost use Rattle.std.specs.Prelude.{Some};
    ghost use Rattle.raster.specs.Shortages.{text_of};

    ghost output = { λ shortage. Some (text_of shortage) };

    fn fmt<W: fmt::Write>(&self, f: &mut fmt::Formatter<W>) -> fmt::Result {
        write!(f, "refused {}", self.number())
    }
}

impl Error for Shortage {}

// How many bytes are needed; refused where there are fewer.
pub(crate) fn enough(needed: usize, bytes: &[u8]) -> Result<usize, Shortage>
    ensures answer { result ≡ checked needed (length bytes.now) }
{
    if needed <= bytes.len() {
        Ok(needed)
    } else {
        Err(Shortage::Samples)
    }
}
