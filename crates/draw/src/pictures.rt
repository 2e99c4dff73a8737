// A window as a Netpbm picture.
use crate::colours::Kind;
use cells::Rectangle;
use std::alloc::{AllocError, Global};
use std::fs;

// The bits of a byte, the most significant first.
const BITS: [u8; 8] = [0x80, 0x40, 0x20, 0x10, 0x08, 0x04, 0x02, 0x01];

// Up to eight bytes of 0 and 1 as the first bits of a byte; the others are 0.
fn as_byte(bytes: &[u8]) -> u8 {
    bytes
        .iter()
        .zip(BITS)
        .filter(|(byte, _)| **byte & 1 == 1)
        .fold(0, |packed, (_, bit)| packed | bit)
}

// Rows of `wide` bytes of 0 and 1, each row as bits, the most significant first, filled up to a whole byte.
fn as_bits(alloc: Global, bytes: &[u8], wide: usize) -> Result<Vec<u8>, AllocError> {
    bytes
        .chunks(wide.max(1))
        .flat_map(|row| row.chunks(8))
        .map(as_byte)
        .collect(alloc)
}

// Writes the bytes that a window shows as a picture: P5 for grey, P6 for tint, P4 for paper, whose ink is 1.
pub(crate) fn save_picture(
    rt: &HostRuntime,
    file: &str,
    kind: Kind,
    window: Rectangle,
    shown: &[u8],
) -> anyhow::Result<()> {
    let alloc = rt.alloc();
    let (wide, high) = (window.columns(), window.rows());
    let header = match kind {
        Kind::Grey => format!(in alloc; "P5\n{wide} {high}\n255\n")?,
        Kind::Tint => format!(in alloc; "P6\n{wide} {high}\n255\n")?,
        Kind::Paper => format!(in alloc; "P4\n{wide} {high}\n")?,
    };
    let mut picture = header.into_bytes();
    match kind {
        Kind::Paper => {
            let bits = as_bits(alloc, shown, wide as usize)?;
            picture.extend_from_slice(bits.as_slice())?;
        }
        Kind::Grey | Kind::Tint => picture.extend_from_slice(shown)?,
    }
    fs::write(rt, file, picture.as_slice())?;
    Ok(())
}
