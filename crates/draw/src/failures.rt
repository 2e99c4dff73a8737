// Why a line does not do what it asks for.
use cells::Refusal;
use raster::Shortage;
use std::alloc::AllocFailed;
use std::{fmt, io};

// What was refused: a call on a canvas, a page of a file, or a source.
#[derive(Clone, Copy)]
pub enum Refused {
    Call(Refusal),
    Page(reader::read::Refusal),
    Source(Shortage),
}

impl fmt::Display for Refused {
    fn fmt<W: fmt::Write>(&self, f: &mut fmt::Formatter<W>) -> fmt::Result {
        match self {
            Refused::Call(refusal) => write!(f, "{refusal}"),
            Refused::Page(refusal) => write!(f, "{refusal}"),
            Refused::Source(shortage) => write!(f, "{shortage}"),
        }
    }
}

// A refusal is printed, and the session goes on; an error ends it.
#[derive(Drop)]
pub enum Failure {
    Refused(Refused),
    Error(anyhow::Error),
}

impl From<Refusal> for Failure {
    fn from(refusal: Refusal) -> Failure {
        Failure::Refused(Refused::Call(refusal))
    }
}

impl From<reader::read::Refusal> for Failure {
    fn from(refusal: reader::read::Refusal) -> Failure {
        Failure::Refused(Refused::Page(refusal))
    }
}

impl From<Shortage> for Failure {
    fn from(shortage: Shortage) -> Failure {
        Failure::Refused(Refused::Source(shortage))
    }
}

impl From<anyhow::Error> for Failure {
    fn from(error: anyhow::Error) -> Failure {
        Failure::Error(error)
    }
}

impl From<io::Error> for Failure {
    fn from(error: io::Error) -> Failure {
        Failure::Error(error.into())
    }
}

impl<T: Drop> From<AllocFailed<T>> for Failure {
    fn from(error: AllocFailed<T>) -> Failure {
        Failure::Error(error.into())
    }
}
