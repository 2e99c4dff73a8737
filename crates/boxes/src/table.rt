// The table of box types: what each is called, where it stands, and how often.
ghost use Rattle.std.specs.Prelude.{◌≡◌};
ghost use Rattle.boxes.specs.Table.{layer_of, entry_of, place_tests, reached};
ghost use Rattle.boxes.specs.Tests.{judged};

use crate::codes::{LHDR, LOBJ, OBJC, OHDR, PAGE, PHDR, RES, RESD};
use crate::reason::Reason;

// A container of boxes: the file or a superbox.
#[derive(Clone, Copy, PartialEq, Eq, Debug)]
pub enum Place {
    File,
    Page,
    Resolution,
    LayoutObject,
    Object,
}

impl Place {
    // The layer that a refusal carries. A page and its resolution have one, so it is not the variant's own number.
    pub fn layer(self) -> u8
        ensures value { result ≡ layer_of self }
    {
        match self {
            Place::File => 0,
            Place::Page => 1,
            Place::Resolution => 1,
            Place::LayoutObject => 2,
            Place::Object => 3,
        }
    }
}

// A type of the table.
#[derive(Clone, Copy, PartialEq, Eq)]
pub enum Kind {
    Page,
    PageHeader,
    Resolution,
    DisplayResolution,
    LayoutObject,
    LayoutHeader,
    Object,
    ObjectHeader,
}

// A line of the table: the type's code and kind, the container that it stands in, how many there are at least and at most, where `None` is
// any number, and whether it is the container's first box.
#[derive(Clone, Copy)]
pub struct Entry {
    pub code: u32,
    pub kind: Kind,
    pub inside: Place,
    pub least: u8,
    pub most: Option<u8>,
    pub first: bool,
}

pub const TABLE: [Entry; 8] = [
    Entry {
        code: PAGE,
        kind: Kind::Page,
        inside: Place::File,
        least: 0,
        most: None,
        first: false,
    },
    Entry {
        code: PHDR,
        kind: Kind::PageHeader,
        inside: Place::Page,
        least: 1,
        most: Some(1),
        first: true,
    },
    Entry {
        code: RES,
        kind: Kind::Resolution,
        inside: Place::Page,
        least: 1,
        most: Some(1),
        first: false,
    },
    Entry {
        code: RESD,
        kind: Kind::DisplayResolution,
        inside: Place::Resolution,
        least: 1,
        most: Some(1),
        first: false,
    },
    Entry {
        code: LOBJ,
        kind: Kind::LayoutObject,
        inside: Place::Page,
        least: 0,
        most: Some(64),
        first: false,
    },
    Entry {
        code: LHDR,
        kind: Kind::LayoutHeader,
        inside: Place::LayoutObject,
        least: 1,
        most: Some(1),
        first: true,
    },
    Entry {
        code: OBJC,
        kind: Kind::Object,
        inside: Place::LayoutObject,
        least: 1,
        most: Some(2),
        first: false,
    },
    Entry {
        code: OHDR,
        kind: Kind::ObjectHeader,
        inside: Place::Object,
        least: 1,
        most: Some(1),
        first: true,
    },
];

// The line of a type code, or `None` where the table has no such type and its box is skipped. By a `match`: with
// `TABLE.iter().find(..).copied()`, which was tried and proved, reading a whole file took a quarter longer.
pub fn entry_of(code: u32) -> Option<Entry>
    ensures value { result ≡ entry_of code }
{
    match code {
        PAGE => Some(TABLE[0]),
        PHDR => Some(TABLE[1]),
        RES => Some(TABLE[2]),
        RESD => Some(TABLE[3]),
        LOBJ => Some(TABLE[4]),
        LHDR => Some(TABLE[5]),
        OBJC => Some(TABLE[6]),
        OHDR => Some(TABLE[7]),
        _ => None,
    }
}

// Whether a box stands where its type may, or what is wrong: `seen` boxes of its type stand in the container already, and `first` says that
// no box at all does.
pub fn misplaced(place: Place, entry: Entry, seen: u8, first: bool) -> Result<(), Reason>
    ensures value { result ≡ judged (place_tests place entry seen first) tt }
{
    let full = is_reached(entry.most, seen);
    if entry.kind == Kind::LayoutObject && full {
        return Err(Reason::TooManyObjects);
    }
    if entry.inside != place {
        return Err(Reason::Misplaced);
    }
    if full {
        return Err(Reason::Misplaced);
    }
    if entry.first && !first {
        return Err(Reason::Misplaced);
    }
    Ok(())
}

// Whether a number of boxes is as many as there may be.
fn is_reached(most: Option<u8>, seen: u8) -> bool
    ensures value { result ≡ reached most seen }
{
    most.is_some_and(|limit| limit <= seen)
}
