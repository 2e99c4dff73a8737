// The built-in blank plan, and what a plan says.
ghost use Rattle.std.specs.Prelude.{◌≡◌, ◌<◌, ◌≤◌, length};
ghost use Rattle.std.specs.List.{slice_get};
ghost use Rattle.plan.specs.Headers.{style_number, type_number};
ghost use Rattle.plan.specs.Laws.{blank_row};
ghost use Rattle.plan.specs.Page.{page_of, blank_page};

use crate::headers::ObjectType;
use crate::lawful::Plan;
use crate::layout::{Layout, Object, Objects, Row};
use crate::page::{PageHeader, Resolution};

impl Plan {
    // A lawful plan to begin with: a page of one point, with no layout object.
    pub fn blank() -> Plan
        ensures plan { page_of result ≡ blank_page }
    {
        Plan {
            header: PageHeader {
                pageid: 0,
                pheight: 1,
                pwidth: 1,
                or: 0,
                pcolor: 0,
                collection: None,
            },
            resolution: Resolution {
                vrdn: 1,
                vrdd: 1,
                hrdn: 1,
                hrdd: 1,
                vrde: 0,
                hrde: 0,
            },
            rows: [blank_row(); 64],
            count: 0,
        }
    }

    // The page header's fields.
    pub fn header(&self) -> PageHeader
        ensures value { result ≡ (page_of self.now).header }
        ensures sized { (0 < result.pheight) × (0 < result.pwidth) }
    {
        self.header
    }

    // The display resolution.
    pub fn resolution(&self) -> Resolution
        ensures value { result ≡ (page_of self.now).resolution }
    {
        self.resolution
    }

    // The number of rows.
    pub fn count(&self) -> usize
        ensures value { result ≡ length (page_of self.now).rows }
        ensures bound { result ≤ 64 }
    {
        self.count
    }

    // The rows, one for each layout object in the order of the file.
    pub fn rows(&self) -> &[Row]
        ensures value { result.now ≡ (page_of self.now).rows }
    {
        &self.rows[..self.count]
    }

    // The row of a layout object, numbered from 0, or `None` where there is none.
    pub fn row(&self, number: usize) -> Option<Row>
        ensures value { result ≡ slice_get (page_of self.now).rows number }
    {
        self.rows().get(number).copied()
    }
}

// The row of a place of the array that holds no layout object.
pub fn blank_row() -> Row
    ensures value { result ≡ blank_row }
{
    Row {
        layout: Layout::default(),
        objects: Objects::Mask(Object::default()),
    }
}

impl Objects {
    // The number of the Style. A match, since `as` takes no enum whose variants have fields.
    pub fn style(self) -> u16
        ensures value { result ≡ style_number self }
    {
        match self {
            Objects::Separate { .. } => 0,
            Objects::Both(_) => 1,
            Objects::Image(_) => 2,
            Objects::Mask(_) => 3,
        }
    }
}

impl ObjectType {
    // The number of the ObjType.
    pub fn number(self) -> u16
        ensures value { result ≡ type_number self }
    {
        self as u16
    }
}
