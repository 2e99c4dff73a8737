// Why a page is not written, and the number of each reason.
ghost use Rattle.std.specs.Prelude.{◌≡◌};
ghost use Rattle.writer.specs.Puts.{refused_number};

use std::error::Error;
use std::fmt;

#[derive(Clone, Copy, PartialEq, Eq, Debug)]
pub enum Refused {
    // The caller's buffer is shorter than what is to be written.
    BufferTooShort = 25,
}

impl Refused {
    // The refusal's number.
    pub fn number(self) -> u8
        ensures value { result ≡ refused_number self }
    {
        self as u8
    }
}

impl fmt::Display for Refused {
    ghost use Rattle.std.specs.Prelude.{Some};
    ghost use Rattle.writer.specs.Puts.{refused_text};

    ghost output = { λ refused. Some (refused_text refused) };

    fn fmt<W: fmt::Write>(&self, f: &mut fmt::Formatter<W>) -> fmt::Result {
        write!(f, "refused {}", self.number())
    }
}

impl Error for Refused {}
