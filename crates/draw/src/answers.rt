// How rectangles and rows of bytes are printed.
use cells::Rectangle;
use std::fmt;

// A rectangle's left, top, right and bottom, parted by blanks.
#[derive(Drop)]
pub struct Sides(pub Rectangle);

impl fmt::Display for Sides {
    fn fmt<W: fmt::Write>(&self, f: &mut fmt::Formatter<W>) -> fmt::Result {
        let Rectangle {
            left,
            top,
            right,
            bottom,
        } = self.0;
        write!(f, "{left} {top} {right} {bottom}")
    }
}

// Bytes as numbers, parted by blanks.
#[derive(Drop)]
pub struct Numbers<'a>(pub &'a [u8]);

impl fmt::Display for Numbers<'_> {
    fn fmt<W: fmt::Write>(&self, f: &mut fmt::Formatter<W>) -> fmt::Result {
        let Some((first, others)) = self.0.split_first() else {
            return Ok(());
        };
        write!(f, "{first}")?;
        for byte in others {
            write!(f, " {byte}")?;
        }
        Ok(())
    }
}
