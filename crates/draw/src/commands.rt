// What a session's lines ask for.
use crate::colours::{AnyColour, Kind};
use crate::failures::Failure;
use crate::samples::Samples;
use anyhow::{anyhow, bail};
use cells::Rectangle;
use raster::Cover;
use std::str::FromStr;

// Whether a source is a mask or an image.
#[derive(Clone, Copy)]
pub enum Role {
    Mask,
    Image,
}

impl FromStr for Role {
    type Err = anyhow::Error;

    fn from_str(s: &str) -> anyhow::Result<Role> {
        match s {
            "mask" => Ok(Role::Mask),
            "image" => Ok(Role::Image),
            _ => bail!("mask or image is expected"),
        }
    }
}

// The source that a line gives for an object: packed samples are in the file, or in the digits, that it names.
#[derive(Drop)]
pub struct Described<S> {
    pub object: u32,
    pub width: u16,
    pub height: u16,
    pub samples: Samples<S, String>,
}

// What a canvas is opened with: a rectangle of the page, and how many cells of memory, if the line says it.
#[derive(Clone, Copy)]
pub struct Opening {
    pub area: Rectangle,
    pub room: Option<u64>,
}

// One line of a session.
#[derive(Drop)]
pub enum Command {
    Page(String, u32),
    Colours(Kind),
    PageColour(AnyColour),
    Mask(Described<Cover>),
    Image(Described<AnyColour>),
    Arrive(Role, u32, u32),
    Check(Opening),
    Open(Opening),
    Lay(u32, Rectangle),
    Wipe(Rectangle),
    Show(Rectangle, Option<u64>),
    Save(Rectangle, String),
    Close,
}

// A command with its line's number and words.
#[derive(Drop)]
pub struct Line {
    pub number: u64,
    pub words: String,
    pub command: Command,
}

// The error of a line, with its number.
pub(crate) fn at_line(number: u64, error: anyhow::Error) -> anyhow::Error {
    anyhow!("line {number}: {error}")
}

impl Line {
    // What the line's error says.
    pub(crate) fn error(&self, error: anyhow::Error) -> anyhow::Error {
        at_line(self.number, error)
    }

    // Prints that the line is refused if it is, and the session goes on. An error gets the line's number.
    pub(crate) fn end(&self, rt: &HostRuntime, done: Result<(), Failure>) -> anyhow::Result<()> {
        match done {
            Ok(()) => Ok(()),
            Err(Failure::Refused(refused)) => {
                let words = self.words.as_str();
                println!(rt; "{words}: {refused}").map_err(|error| self.error(error.into()))
            }
            Err(Failure::Error(error)) => Err(self.error(error)),
        }
    }
}
