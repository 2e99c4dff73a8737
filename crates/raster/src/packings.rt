// The ways in which samples lie in bytes: one byte to a sample, three bytes to a tint, one bit to a cover.
ghost use Rattle.std.specs.Prelude.{◌≡◌, ℕ, ◌+◌, ◌<◌, length};
ghost use Rattle.raster.specs.Samples.{bytes_needed, byte_rows, triples_needed, tint_at, triple_rows, row_bytes, bits_needed, bit_of, bit_rows, cover_of, grey_of};
ghost use Rattle.std.proofs.Common.{rules};

use crate::covers::{Cover, full_cover, no_cover};
use crate::greys::Grey;
use crate::packed::{Packed, Packing, Unpacking};
use crate::sources::place_number;
use crate::tints::Tint;

// A kind of sample that one byte makes.
pub trait OneByte: Copy {
    // The sample of a byte.
    ghost made: { ℕ → Self };

    // That sample. No `From<u8>` is asked for: what a type makes of a number need not be what it makes of a sample's byte.
    fn of_byte(byte: u8) -> Self
        ensures value { result ≡ made byte };
}

impl From<u8> for Cover {
    ghost from_gives = { λ byte cover. cover ≡ cover_of byte };

    fn from(byte: u8) -> Cover {
        Cover { amount: byte }
    }
}

impl OneByte for Cover {
    ghost made = { cover_of };

    fn of_byte(byte: u8) -> Cover {
        Cover::from(byte)
    }
}

impl From<u8> for Grey {
    ghost from_gives = { λ byte grey. grey ≡ grey_of byte };

    fn from(byte: u8) -> Grey {
        Grey { shade: byte }
    }
}

impl OneByte for Grey {
    ghost made = { grey_of };

    fn of_byte(byte: u8) -> Grey {
        Grey::from(byte)
    }
}

// One byte to a sample, row after row.
#[derive(Clone, Copy)]
pub struct ByteEach;

// A source over bytes, one to a sample.
pub type Bytes<'a, S> = Packed<'a, ByteEach, S>;

impl Packing for ByteEach {
    ghost needed = { bytes_needed };

    ghost empty = { Prim.search rules };

    fn bytes_needed(width: u16, height: u16) -> usize {
        usize::from(width) * usize::from(height)
    }
}

impl<S: OneByte> Unpacking<S> for ByteEach {
    ghost rows = { byte_rows S.OneByte.made };

    ghost wide = { Prim.search rules };

    ghost high = { Prim.search rules };

    fn sample(width: u16, _height: u16, bytes: &[u8], column: u64, row: u64) -> S {
        S::of_byte(bytes[place_number(u64::from(width), column, row)])
    }
}

// Three bytes to a tint, row after row.
#[derive(Clone, Copy)]
pub struct ThreeBytes;

// A source of tints over bytes, three to a tint.
pub type Triples<'a> = Packed<'a, ThreeBytes, Tint>;

// The tint of the three bytes from `at` on.
fn tint_at(bytes: &[u8], at: usize) -> Tint
    requires { at + 2 < length bytes.now }
    ensures value { result ≡ tint_at bytes.now at }
{
    Tint {
        red: bytes[at],
        green: bytes[at + 1],
        blue: bytes[at + 2],
    }
}

impl Packing for ThreeBytes {
    ghost needed = { triples_needed };

    ghost empty = { Prim.search rules };

    fn bytes_needed(width: u16, height: u16) -> usize {
        3 * (usize::from(width) * usize::from(height))
    }
}

impl Unpacking<Tint> for ThreeBytes {
    ghost rows = { triple_rows };

    ghost wide = { Prim.search rules };

    ghost high = { Prim.search rules };

    fn sample(width: u16, _height: u16, bytes: &[u8], column: u64, row: u64) -> Tint {
        tint_at(bytes, 3 * place_number(u64::from(width), column, row))
    }
}

// One bit to a cover, the most significant bit first, each row filled up to a whole byte.
#[derive(Clone, Copy)]
pub struct BitEach;

// A mask over bytes, one bit to a cover.
pub type Bits<'a> = Packed<'a, BitEach, Cover>;

// How many bytes a row takes.
fn row_bytes(width: u16) -> u64
    ensures value { result ≡ row_bytes width }
{
    u64::from(width).div_ceil(8)
}

// The cover that bit `column` of a row stands for, in the byte that has it.
fn bit_cover(byte: u8, column: u64) -> Cover
    ensures value { result ≡ bit_of byte column }
{
    if (byte >> (7 - column % 8)) % 2 == 1 {
        full_cover()
    } else {
        no_cover()
    }
}

impl Packing for BitEach {
    ghost needed = { bits_needed };

    ghost empty = { Prim.search rules };

    fn bytes_needed(width: u16, height: u16) -> usize {
        row_bytes(width) as usize * usize::from(height)
    }
}

impl Unpacking<Cover> for BitEach {
    ghost rows = { bit_rows };

    ghost wide = { Prim.search rules };

    ghost high = { Prim.search rules };

    fn sample(width: u16, _height: u16, bytes: &[u8], column: u64, row: u64) -> Cover {
        let at = place_number(row_bytes(width), column / 8, row);
        bit_cover(bytes[at], column)
    }
}
