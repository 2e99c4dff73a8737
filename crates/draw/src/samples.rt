// The samples of sources, and where they come from: the line itself, digits in it, or a file.
ghost use Rattle.std.specs.Prelude.{◌≤◌, length};

use crate::failures::Failure;
use anyhow::ensure;
use raster::{Bits, Bytes, Cover, Shortage, Triples};
use std::alloc::Global;
use std::fs;

// How samples lie in bytes: one or three bytes to a sample, or one bit, with rows filled up to whole bytes.
#[derive(Clone, Copy, PartialEq, Eq)]
pub enum Packing {
    Bytes,
    Bits,
    Triples,
}

// One sample for all of a source, or packed samples in bytes. `B` is the bytes, or what a line calls them.
#[derive(Drop)]
pub enum Samples<S, B> {
    Uniform(S),
    Packed(Packing, B),
}

impl<S: Copy> Samples<S, String> {
    // The same with the bytes that the line names, which are refused where they are too few for a size.
    pub(crate) fn loaded(
        &self,
        rt: &HostRuntime,
        width: u16,
        height: u16,
    ) -> Result<Samples<S, Vec<u8>>, Failure> {
        match self {
            Samples::Uniform(sample) => Ok(Samples::Uniform(*sample)),
            Samples::Packed(packing, name) => {
                let mut bytes = load(rt, name.as_str())?;
                let header = packing.header(bytes.as_slice(), width, height);
                drop(bytes.drain(..header));
                let _ = packing.check(bytes.as_slice(), width, height)?;
                Ok(Samples::Packed(*packing, bytes))
            }
        }
    }
}

impl Packing {
    // How many bytes a size needs; refused where there are fewer.
    fn check(self, bytes: &[u8], width: u16, height: u16) -> Result<usize, Shortage> {
        match self {
            Packing::Bytes => Bytes::<Cover>::check(width, height, bytes),
            Packing::Bits => Bits::check(width, height, bytes),
            Packing::Triples => Triples::check(width, height, bytes),
        }
    }

    // How many bytes the header of a Netpbm picture of such samples and of a size takes: 0 where there is none.
    fn header(self, bytes: &[u8], width: u16, height: u16) -> usize
        ensures bound { result ≤ length bytes.now }
    {
        let numbers = [u32::from(width), u32::from(height), 255];
        let samples = match self {
            Packing::Bytes => after_header(bytes, b"P5", &numbers),
            Packing::Bits => after_header(bytes, b"P4", &numbers[..2]),
            Packing::Triples => after_header(bytes, b"P6", &numbers),
        };
        samples.map_or(0, |samples| bytes.len().saturating_sub(samples.len()))
    }
}

// What stands after a header with these letters and these numbers, if there is one.
fn after_header<'a>(bytes: &'a [u8], letters: &[u8], numbers: &[u32]) -> Option<&'a [u8]> {
    let mut rest = bytes.strip_prefix(letters)?;
    for number in numbers {
        rest = after_number(rest, *number)?;
    }
    Some(rest)
}

// What stands after a number and the blank that ends it, if the bytes begin with that number. Blanks can stand before
// it, and a comment anywhere, also between two digits.
fn after_number(bytes: &[u8], wanted: u32) -> Option<&[u8]> {
    let mut number: Option<u32> = None;
    let mut rest = bytes.iter();
    while let Some(byte) = rest.next() {
        match *byte {
            b'#' => {
                let _ = rest.find(|byte| **byte == b'\n');
            }
            b'0'..=b'9' => {
                let digit = u32::from(*byte - b'0');
                let before = number.unwrap_or(0).saturating_mul(10);
                number = Some(before.saturating_add(digit));
            }
            b' ' | b'\t' | b'\r' | b'\n' => match number {
                Some(number) if number == wanted => return Some(rest.as_slice()),
                Some(_) => return None,
                None => {}
            },
            _ => return None,
        }
    }
    None
}

// The bytes that a word names: `hex:` and digits, or a file.
fn load(rt: &HostRuntime, name: &str) -> anyhow::Result<Vec<u8>> {
    match name.strip_prefix("hex:") {
        Some(digits) => from_digits(rt.alloc(), digits),
        None => Ok(fs::read(rt, name)?),
    }
}

// What a hexadecimal digit stands for, and 0 for any other byte.
fn value_of(digit: u8) -> u8 {
    match char::from(digit).to_digit(16) {
        Some(value) => value as u8,
        None => 0,
    }
}

// The bytes that pairs of hexadecimal digits stand for. The digits are gone through twice, first to see that they are
// digits: so no list of their values is kept, which would be as long as the line.
fn from_digits(alloc: Global, digits: &str) -> anyhow::Result<Vec<u8>> {
    ensure!(
        digits.bytes().all(|digit| digit.is_ascii_hexdigit()),
        "a hexadecimal digit is expected"
    );
    ensure!(
        digits.len() % 2 == 0,
        "an even number of hexadecimal digits is expected"
    );
    let bytes = digits.as_bytes().chunks(2).map(|pair| pair
        .iter()
        .fold(0, |byte, digit| byte << 4 | value_of(*digit)));
    Ok(bytes.collect(alloc)?)
}
