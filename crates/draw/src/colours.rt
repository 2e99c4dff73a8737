// The kinds of colour that a session can draw in, and a colour of any of them.
use anyhow::bail;
use raster::{Grey, Paper, Tint};
use std::str::FromStr;

// The kind of colour that a canvas is drawn in.
#[derive(Clone, Copy, PartialEq, Eq)]
pub enum Kind {
    Grey,
    Tint,
    Paper,
}

impl FromStr for Kind {
    type Err = anyhow::Error;

    fn from_str(s: &str) -> anyhow::Result<Kind> {
        match s {
            "grey" => Ok(Kind::Grey),
            "tint" => Ok(Kind::Tint),
            "paper" => Ok(Kind::Paper),
            _ => bail!("grey, tint or paper is expected"),
        }
    }
}

// A colour of one of the kinds.
#[derive(Clone, Copy)]
pub enum AnyColour {
    Grey(Grey),
    Tint(Tint),
    Paper(Paper),
}

impl AnyColour {
    pub(crate) fn kind(self) -> Kind {
        match self {
            AnyColour::Grey(_) => Kind::Grey,
            AnyColour::Tint(_) => Kind::Tint,
            AnyColour::Paper(_) => Kind::Paper,
        }
    }

    // The colour's numbers, with 0 for those that its kind does not have.
    fn numbers(self) -> [u8; 3] {
        match self {
            AnyColour::Grey(Grey { shade }) => [shade, 0, 0],
            AnyColour::Tint(Tint { red, green, blue }) => [red, green, blue],
            AnyColour::Paper(Paper::Blank) => [0, 0, 0],
            AnyColour::Paper(Paper::Ink) => [1, 0, 0],
        }
    }
}

// The colour of a kind whose numbers are all 0.
impl From<Kind> for AnyColour {
    fn from(kind: Kind) -> AnyColour {
        match kind {
            Kind::Grey => AnyColour::Grey(Grey { shade: 0 }),
            Kind::Tint => AnyColour::Tint(Tint {
                red: 0,
                green: 0,
                blue: 0,
            }),
            Kind::Paper => AnyColour::Paper(Paper::Blank),
        }
    }
}

// The kind and the page colour can change while a canvas is open. The canvas keeps its kind, and takes the numbers of
// the page colour that it needs.
impl From<AnyColour> for Grey {
    fn from(colour: AnyColour) -> Grey {
        let [shade, _, _] = colour.numbers();
        Grey { shade }
    }
}

impl From<AnyColour> for Tint {
    fn from(colour: AnyColour) -> Tint {
        let [red, green, blue] = colour.numbers();
        Tint { red, green, blue }
    }
}

impl From<AnyColour> for Paper {
    fn from(colour: AnyColour) -> Paper {
        match colour.numbers() {
            [0, _, _] => Paper::Blank,
            _ => Paper::Ink,
        }
    }
}
