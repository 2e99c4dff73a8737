// The four header boxes, read from their contents: first the size is looked at, then the values.
ghost use Rattle.std.specs.Prelude.{◌≡◌, true, IfOk};
ghost use Rattle.boxes.specs.Tests.{judged};
ghost use Rattle.plan.specs.Laws.{sized_page, whole_resolution};
ghost use Rattle.plan.specs.Headers.{collection_of, page_head_of, page_header_tests, resolution_of, resolution_tests, layout_head_of, layout_header_tests, object_head_of, object_header_tests, style_judged, type_judged};

use crate::layout::{Layout, Object};
use crate::page::{Collection, PageHeader, Resolution};
use boxes::field::{read8, read16, read32, read64};
use boxes::reason::Reason;

// What a phdr box says.
#[derive(Clone, Copy)]
pub struct PageHead {
    pub header: PageHeader,
    pub nlobj: u16,
}

// Which objects a layout object has: the values of Style from 0 to 3.
#[derive(Clone, Copy)]
pub enum Style {
    Separate,
    Both,
    Image,
    Mask,
}

impl TryFrom<u16> for Style {
    type Error = Reason;

    ghost try_from_gives = { λ number answer. answer ≡ style_judged number };

    // The style of a number, of which the format has four.
    fn try_from(number: u16) -> Result<Style, Reason> {
        match number {
            0 => Ok(Style::Separate),
            1 => Ok(Style::Both),
            2 => Ok(Style::Image),
            3 => Ok(Style::Mask),
            _ => Err(Reason::IllegalValue),
        }
    }
}

// What a lhdr box says.
#[derive(Clone, Copy)]
pub struct LayoutHead {
    pub layout: Layout,
    pub style: Style,
}

// What an object is: the values of ObjType from 0 to 2.
#[derive(Clone, Copy, PartialEq, Eq)]
pub enum ObjectType {
    Mask = 0,
    Image = 1,
    Both = 2,
}

impl TryFrom<u16> for ObjectType {
    type Error = Reason;

    ghost try_from_gives = { λ number answer. answer ≡ type_judged number };

    // The type of a number, of which the format has three.
    fn try_from(number: u16) -> Result<ObjectType, Reason> {
        match number {
            0 => Ok(ObjectType::Mask),
            1 => Ok(ObjectType::Image),
            2 => Ok(ObjectType::Both),
            _ => Err(Reason::IllegalValue),
        }
    }
}

// What an ohdr box says.
#[derive(Clone, Copy)]
pub struct ObjectHead {
    pub objtype: ObjectType,
    pub object: Object,
}

// The contents of a phdr box.
pub fn read_page_header(contents: &[u8]) -> Result<PageHead, Reason>
    ensures answer { result ≡ judged (page_header_tests contents.now) (page_head_of contents.now) }
    ensures sized { IfOk result (λ h. sized_page h.header ≡ true) }
{
    let collection = match contents.len() {
        16 => None,
        30 => Some(read_collection(contents)),
        _ => return Err(Reason::WrongSize),
    };
    let pheight = read32(contents, 4);
    let pwidth = read32(contents, 8);
    if pheight == 0 || pwidth == 0 {
        return Err(Reason::IllegalValue);
    }
    Ok(PageHead {
        header: PageHeader {
            pageid: read16(contents, 0),
            pheight,
            pwidth,
            or: read16(contents, 12),
            pcolor: read16(contents, 14),
            collection,
        },
        nlobj: read16(contents, 2),
    })
}

// The last three fields of a phdr box of 30 bytes.
fn read_collection(contents: &[u8]) -> Collection
    ensures value { result ≡ collection_of contents.now }
{
    Collection {
        pcoff: read64(contents, 16),
        pclen: read32(contents, 24),
        pcdr: read16(contents, 28),
    }
}

// The contents of a resd box.
pub fn read_resolution(contents: &[u8]) -> Result<Resolution, Reason>
    ensures answer { result ≡ judged (resolution_tests contents.now) (resolution_of contents.now) }
    ensures whole { IfOk result (λ x. whole_resolution x ≡ true) }
{
    if contents.len() != 10 {
        return Err(Reason::WrongSize);
    }
    let vrdn = read16(contents, 0);
    let vrdd = read16(contents, 2);
    let hrdn = read16(contents, 4);
    let hrdd = read16(contents, 6);
    if vrdn == 0 || vrdd == 0 || hrdn == 0 || hrdd == 0 {
        return Err(Reason::IllegalValue);
    }
    Ok(Resolution {
        vrdn,
        vrdd,
        hrdn,
        hrdd,
        vrde: read8(contents, 8).cast_signed(),
        hrde: read8(contents, 9).cast_signed(),
    })
}

// The contents of a lhdr box.
pub fn read_layout_header(contents: &[u8]) -> Result<LayoutHead, Reason>
    ensures answer { result ≡ judged (layout_header_tests contents.now) (layout_head_of contents.now) }
{
    if contents.len() != 20 {
        return Err(Reason::WrongSize);
    }
    let style = Style::try_from(read16(contents, 18))?;
    Ok(LayoutHead {
        layout: Layout {
            lobjid: read16(contents, 0),
            lheight: read32(contents, 2),
            lwidth: read32(contents, 6),
            lvoff: read32(contents, 10),
            lhoff: read32(contents, 14),
        },
        style,
    })
}

// The contents of an ohdr box.
pub fn read_object_header(contents: &[u8]) -> Result<ObjectHead, Reason>
    ensures answer { result ≡ judged (object_header_tests contents.now) (object_head_of contents.now) }
{
    if contents.len() != 28 {
        return Err(Reason::WrongSize);
    }
    let objtype = ObjectType::try_from(read16(contents, 2))?;
    let nocodestream = match read16(contents, 4) {
        0 => false,
        1 => true,
        _ => return Err(Reason::IllegalValue),
    };
    Ok(ObjectHead {
        objtype,
        object: Object {
            objid: read16(contents, 0),
            nocodestream,
            ovoff: read32(contents, 6),
            ohoff: read32(contents, 10),
            off: read64(contents, 14),
            len: read32(contents, 22),
            dr: read16(contents, 26),
        },
    })
}
