// Sources over the caller's bytes: one struct for every way in which samples lie in them.
ghost use Rattle.std.specs.Prelude.{◌≡◌, ℕ, ◌<◌, ◌≤◌, List, length, Some};
ghost use Rattle.raster.specs.Meanings.{Meaning};
ghost use Rattle.raster.specs.Samples.{from_enough};
ghost use Rattle.raster.specs.Shortages.{checked};

use crate::shortages::{Shortage, enough};
use crate::sources::{Look, Source};
use std::marker::PhantomData;

// A way in which samples lie in bytes: how many bytes a size takes. What the samples are is not asked here, so that a source
// over bytes is a type for samples of any type.
pub trait Packing {
    // How many bytes a width and a height need.
    ghost needed: { ℕ → ℕ → ℕ };

    // How many bytes a size needs.
    fn bytes_needed(width: u16, height: u16) -> usize
        ensures value { result ≡ needed width height };

    // A size of 0 by 0 needs no bytes.
    ghost empty: { needed 0 0 ≡ 0 };
}

// A packing of samples of a type, each of which is known.
pub trait Unpacking<S: Copy>: Packing {
    // What a width, a height and bytes mean.
    ghost rows: { ℕ → ℕ → List ℕ → Meaning S };

    // The sample at a place.
    fn sample(width: u16, height: u16, bytes: &[u8], column: u64, row: u64) -> S
        requires place { (column < width) × (row < height) }
        requires enough { Self.needed width height ≤ length bytes.now }
        ensures value { (rows width height bytes.now).sample column row ≡ Some result };

    // The meaning is as wide as it is made.
    ghost wide: { (width height : ℕ) (bytes : List ℕ) → (rows width height bytes).width ≡ width };

    // The meaning is as high as it is made.
    ghost high: { (width height : ℕ) (bytes : List ℕ) → (rows width height bytes).height ≡ height };
}

// Samples of a type in the caller's bytes, of which there are as many as the size needs.
#[derive(Drop)]
pub struct Packed<'a, P: Packing, S> {
    width: u16,
    height: u16,
    bytes: &'a [u8],
    packing: PhantomData<P>,
    sample: PhantomData<S>,
    ghost enough: { P.needed width height ≤ length bytes.now },
}

impl<'a, P: Packing, S> Packed<'a, P, S> {
    // How many bytes a size needs; refused where there are fewer.
    pub fn check(width: u16, height: u16, bytes: &[u8]) -> Result<usize, Shortage>
        ensures answer { result ≡ checked (P.needed width height) (length bytes.now) }
    {
        enough(P::bytes_needed(width, height), bytes)
    }
}

impl<'a, P: Unpacking<S>, S: Copy> Packed<'a, P, S> {
    // The source over these bytes, or one that is 0 by 0 where there are fewer than the size needs.
    pub fn new(width: u16, height: u16, bytes: &'a [u8]) -> Packed<'a, P, S>
        ensures value { P.rows result.width result.height result.bytes.now ≡ from_enough (P.needed width height) P.rows width height bytes.now }
    {
        let (width, height) = match Self::check(width, height, bytes) {
            Ok(_) => (width, height),
            Err(_) => (0, 0),
        };
        Packed {
            width,
            height,
            bytes,
            packing: PhantomData,
            sample: PhantomData,
        }
    }
}

impl<P: Unpacking<S>, S: Copy> Source for Packed<'_, P, S> {
    type Sample = S;

    ghost meaning = { λ s. P.rows s.width s.height s.bytes.now };

    fn width(&self) -> u16 {
        self.width
    }

    fn height(&self) -> u16 {
        self.height
    }

    fn look(&self, column: u64, row: u64) -> Look<S> {
        if self.is_place(column, row) {
            let sample = P::sample(self.width, self.height, self.bytes, column, row);
            Look::Found(sample)
        } else {
            Look::Outside
        }
    }
}
