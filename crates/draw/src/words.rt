// A line's words as a command.
use crate::colours::{AnyColour, Kind};
use crate::commands::{Command, Described, Opening};
use crate::samples::{Packing, Samples};
use anyhow::{Context, anyhow, bail, ensure};
use cells::Rectangle;
use raster::{Cover, Grey, Paper, Tint};
use std::alloc::Global;
use std::str::{FromStr, SplitWhitespace};

// The most cells or bytes that a line can ask for.
const MOST: u64 = 4_294_967_296;

// The words of a line that are still to be read; `kind` is the kind of colour that is being drawn in.
#[derive(Drop)]
pub struct Words<'a> {
    alloc: Global,
    rest: SplitWhitespace<'a>,
    kind: Kind,
}

// What can be read from the next words of a line.
pub trait FromWords: Sized {
    fn from_words(words: &mut Words<'_>) -> anyhow::Result<Self>;
}

impl<'a> Words<'a> {
    pub(crate) fn new(alloc: Global, line: &'a str, kind: Kind) -> Words<'a> {
        Words {
            alloc,
            rest: line.split_whitespace(),
            kind,
        }
    }

    // The next word, or `None` at the line's end.
    pub(crate) fn next(&mut self) -> Option<&'a str> {
        self.rest.next()
    }

    // The next word, where the line cannot end.
    fn word(&mut self) -> anyhow::Result<&'a str> {
        self.next().context("the line ends too early")
    }

    // The next words as a value of a type.
    fn read<T: FromWords>(&mut self) -> anyhow::Result<T> {
        T::from_words(self)
    }

    // The next word as a number; `expected` says which are.
    fn number<T: FromStr>(&mut self, expected: &str) -> anyhow::Result<T>
    where
        T::Err: Drop,
    {
        match self.word()?.parse::<T>() {
            Ok(number) => Ok(number),
            Err(_) => bail!("{expected}"),
        }
    }

    // The command that begins with a word.
    pub(crate) fn command(&mut self, name: &str) -> anyhow::Result<Command> {
        Ok(match name {
            "page" => Command::Page(self.read()?, self.read()?),
            "kind" => Command::Colours(self.word()?.parse()?),
            "colour" => Command::PageColour(self.read()?),
            "mask" => Command::Mask(self.read()?),
            "image" => Command::Image(self.read()?),
            "arrive" => Command::Arrive(self.word()?.parse()?, self.read()?, self.read()?),
            "check" => Command::Check(self.read()?),
            "open" => Command::Open(self.read()?),
            "lay" => Command::Lay(self.read()?, self.read()?),
            "wipe" => Command::Wipe(self.read()?),
            "show" => Command::Show(self.read()?, self.read()?),
            "save" => Command::Save(self.read()?, self.read()?),
            "close" => Command::Close,
            _ => bail!("the line's first word is not known"),
        })
    }
}

// A number that stands alone.
impl FromWords for u32 {
    fn from_words(words: &mut Words<'_>) -> anyhow::Result<u32> {
        words.number("a whole number up to 4294967295 is expected")
    }
}

// A side of a source.
impl FromWords for u16 {
    fn from_words(words: &mut Words<'_>) -> anyhow::Result<u16> {
        words.number("a side from 0 to 65535 is expected")
    }
}

// A number of a colour or a cover.
impl FromWords for u8 {
    fn from_words(words: &mut Words<'_>) -> anyhow::Result<u8> {
        words.number("a number from 0 to 255 is expected")
    }
}

// A number of cells or bytes, where the line can end before it.
impl FromWords for Option<u64> {
    fn from_words(words: &mut Words<'_>) -> anyhow::Result<Option<u64>> {
        match words.next().map(|word| word.parse::<u64>()) {
            None => Ok(None),
            Some(Ok(amount)) if amount <= MOST => Ok(Some(amount)),
            Some(_) => bail!("a number up to 4294967296 is expected"),
        }
    }
}

// The name of a file.
impl FromWords for String {
    fn from_words(words: &mut Words<'_>) -> anyhow::Result<String> {
        Ok(String::from_str(words.alloc, words.word()?)?)
    }
}

impl FromWords for Rectangle {
    fn from_words(words: &mut Words<'_>) -> anyhow::Result<Rectangle> {
        Ok(Rectangle {
            left: words.read()?,
            top: words.read()?,
            right: words.read()?,
            bottom: words.read()?,
        })
    }
}

impl FromWords for Opening {
    fn from_words(words: &mut Words<'_>) -> anyhow::Result<Opening> {
        Ok(Opening {
            area: words.read()?,
            room: words.read()?,
        })
    }
}

impl FromWords for Cover {
    fn from_words(words: &mut Words<'_>) -> anyhow::Result<Cover> {
        Ok(Cover {
            amount: words.read()?,
        })
    }
}

// A colour of the kind that is being drawn in.
impl FromWords for AnyColour {
    fn from_words(words: &mut Words<'_>) -> anyhow::Result<AnyColour> {
        match words.kind {
            Kind::Grey => Ok(AnyColour::Grey(Grey {
                shade: words.read()?,
            })),
            Kind::Tint => Ok(AnyColour::Tint(Tint {
                red: words.read()?,
                green: words.read()?,
                blue: words.read()?,
            })),
            Kind::Paper => match words.read::<u8>()? {
                0 => Ok(AnyColour::Paper(Paper::Blank)),
                1 => Ok(AnyColour::Paper(Paper::Ink)),
                _ => bail!("paper is 0 or 1"),
            },
        }
    }
}

// `None` for a source that is uniform.
impl FromWords for Option<Packing> {
    fn from_words(words: &mut Words<'_>) -> anyhow::Result<Option<Packing>> {
        match words.word()? {
            "uniform" => Ok(None),
            "bytes" => Ok(Some(Packing::Bytes)),
            "bits" => Ok(Some(Packing::Bits)),
            "triples" => Ok(Some(Packing::Triples)),
            _ => bail!("uniform, bytes, bits or triples is expected"),
        }
    }
}

// The samples of a mask or of an image.
trait Sample: FromWords {
    // Whether samples can be packed so, where the session draws in colours of a kind.
    fn fits(packing: Packing, kind: Kind) -> bool;
}

impl Sample for Cover {
    fn fits(packing: Packing, _kind: Kind) -> bool {
        packing != Packing::Triples
    }
}

impl Sample for AnyColour {
    fn fits(packing: Packing, kind: Kind) -> bool {
        match kind {
            Kind::Grey => packing == Packing::Bytes,
            Kind::Tint => packing == Packing::Triples,
            Kind::Paper => false,
        }
    }
}

impl<S: Sample> FromWords for Described<S> {
    fn from_words(words: &mut Words<'_>) -> anyhow::Result<Described<S>> {
        let object = words.read()?;
        let packing: Option<Packing> = words.read()?;
        ensure!(
            packing.is_none_or(|packing| S::fits(packing, words.kind)),
            "a source of that form does not serve here"
        );
        Ok(Described {
            object,
            width: words.read()?,
            height: words.read()?,
            samples: match packing {
                None => Samples::Uniform(words.read()?),
                Some(packing) => Samples::Packed(packing, words.read()?),
            },
        })
    }
}
