// What a kind of colour is.
ghost use Rattle.std.specs.Prelude.{◌≡◌, ℕ, ◌<◌, ◌≤◌, List, length};
ghost use Rattle.raster.specs.declared.covers.Cover.{Cover};
ghost use Rattle.raster.specs.Covers.{no_cover, full_cover};
ghost use Rattle.raster.specs.Shown.{put_answer, put_buffer, AllBytes};

use crate::covers::Cover;
use crate::shortages::Shortage;

// A kind of colour: its colours, how one is blended over another, and the bytes that one shows as.
pub trait Colour: Copy {
    // What stands after a colour is laid over another: below, above and the cover of the one above.
    ghost blended: { Self → Self → Cover → Self };

    // The bytes that a colour shows as.
    ghost shown: { Self → List ℕ };

    // How many bytes each colour shows as: the constant below, as the laws and the contracts speak of it.
    ghost BYTES: { ℕ };

    const BYTES: usize;

    // This colour with `above` laid over it.
    fn blend(self, above: Self, cover: Cover) -> Self
        ensures value { result ≡ blended self above cover };

    // Writes the colour's bytes into `buffer` from `at` on, and answers the place after them; refused, with nothing
    // written, where they do not fit.
    fn show(self, buffer: &mut [u8], at: usize) -> Result<usize, Shortage>
        ensures answer { result ≡ put_answer buffer.old at (shown self) }
        ensures buffer { buffer.new ≡ put_buffer buffer.old at (shown self) }
        ensures bytes { AllBytes (shown self) };

    // The laws stand one by one, so that what a kind breaks is named. Each kind proves its own.

    // Cover 0 gives below.
    ghost keeps: { (below above : Self) → blended below above no_cover ≡ below };

    // Full cover gives above.
    ghost hides: { (below above : Self) → blended below above full_cover ≡ above };

    // Each colour shows as exactly that many bytes.
    ghost sized: { (colour : Self) → length (shown colour) ≡ BYTES };

    // Different colours show differently.
    ghost distinct: { (one other : Self) → shown one ≡ shown other → one ≡ other };

    // A colour shows as 1 to 255 bytes.
    ghost bounded: { (1 ≤ BYTES) × (BYTES ≤ 255) };
}
