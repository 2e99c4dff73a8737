// Why a call on a canvas is refused.
ghost use Rattle.std.specs.Prelude.{◌≡◌};
ghost use Rattle.cells.specs.Refusals.{number_of};

use crate::rectangles::Position;
use std::error::Error;
use std::fmt;

#[derive(Clone, Copy, PartialEq, Eq, Debug)]
pub enum Refusal {
    // The rectangle is empty or reversed, leaves the page or breaks a limit of the canvas.
    Rectangle,
    // The memory has too few cells for the rectangle.
    Memory,
    // There is no object with that number.
    Object,
    // The window leaves the canvas or is reversed.
    Window,
    // The cell at the position has a level below the object's, which stands beside it.
    OutOfTurn(Position, u16),
    // The buffer is too short for the window's colours.
    Buffer,
    // The mask's sample for the position is not there yet.
    MaskMissing(Position),
    // The image's sample for the position is not there yet.
    ImageMissing(Position),
}

impl Refusal {
    // The number of the refusal, by a `match`, since `as` takes no enum whose variants have fields.
    pub fn number(self) -> u8
        ensures value { result ≡ number_of self }
    {
        match self {
            Refusal::Rectangle => 20,
            Refusal::Memory => 21,
            Refusal::Object => 22,
            Refusal::Window => 23,
            Refusal::OutOfTurn(_, _) => 24,
            Refusal::Buffer => 25,
            Refusal::MaskMissing(_) => 30,
            Refusal::ImageMissing(_) => 31,
        }
    }
}

impl fmt::Display for Refusal {
    ghost use Rattle.std.specs.Prelude.{Some};
    ghost use Rattle.cells.specs.Refusals.{text_of};

    ghost output = { λ refusal. Some (text_of refusal) };

    fn fmt<W: fmt::Write>(&self, f: &mut fmt::Formatter<W>) -> fmt::Result {
        let number = self.number();
        match self {
            Refusal::OutOfTurn(Position { column, row }, level) => {
                write!(f, "refused {number} at {column} {row} level {level}")
            }
            Refusal::MaskMissing(Position { column, row })
            | Refusal::ImageMissing(Position { column, row }) => {
                write!(f, "refused {number} at {column} {row}")
            }
            _ => write!(f, "refused {number}"),
        }
    }
}

impl Error for Refusal {}
