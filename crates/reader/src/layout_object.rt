// A layout object: a superbox with a lhdr box and one or two objects.
ghost use Rattle.std.specs.Prelude.{◌≡◌, true, false, IfOk, IfSome};
ghost use Rattle.boxes.specs.Tests.{judged};
ghost use Rattle.plan.specs.Headers.{layout_head_of};
ghost use Rattle.plan.specs.Laws.{has_id};
ghost use Rattle.reader.specs.Objects.{LayoutState, layout_rules, layout_state, lone_fits, pair_fits, fits, row_of, held_more, held_count, head_tests, new_among};

use crate::container::Container;
use crate::lone::Lone;
use crate::parts::FoundBox;
use crate::walk::{locate, read_superbox};
use boxes::fault::Fault;
use boxes::reason::Reason;
use boxes::table::{Kind, Place};
use plan::headers::{LayoutHead, ObjectHead, ObjectType, Style, read_layout_header};
use plan::layout::{Objects, Row};

// The objects of a layout object so far, in file order. There are two at most, so an enum holds them in fixed memory and names each case.
#[derive(Clone, Copy)]
pub(crate) enum Held {
    Empty,
    One(ObjectHead),
    Two(ObjectHead, ObjectHead),
}

impl Held {
    // How many there are.
    fn count(self) -> u8
        ensures value { result ≡ held_count self }
    {
        match self {
            Held::Empty => 0,
            Held::One(_) => 1,
            Held::Two(_, _) => 2,
        }
    }

    // One more, of which there are two at most.
    fn with(self, head: ObjectHead) -> Held
        ensures value { result ≡ held_more self head }
    {
        match self {
            Held::Empty => Held::One(head),
            Held::One(first) => Held::Two(first, head),
            Held::Two(first, second) => Held::Two(first, second),
        }
    }

    // The objects under a style, where they fit it.
    fn under(self, style: Style) -> Option<Objects>
        ensures value { result ≡ fits style self }
    {
        match self {
            Held::Empty => None,
            Held::One(only) => lone_under(style, only),
            Held::Two(first, second) => pair_under(style, first, second),
        }
    }
}

// A lone object under a style, where its type is the style's.
fn lone_under(style: Style, only: ObjectHead) -> Option<Objects>
    ensures value { result ≡ lone_fits style only }
{
    match style {
        Style::Separate => None,
        Style::Both if only.objtype == ObjectType::Both => Some(Objects::Both(only.object)),
        Style::Image if only.objtype == ObjectType::Image => Some(Objects::Image(only.object)),
        Style::Mask if only.objtype == ObjectType::Mask => Some(Objects::Mask(only.object)),
        _ => None,
    }
}

// Two objects under a style: a mask and an image, either first, and the style that separates them.
fn pair_under(style: Style, first: ObjectHead, second: ObjectHead) -> Option<Objects>
    ensures value { result ≡ pair_fits style first second }
{
    let Style::Separate = style else {
        return None;
    };
    match (first.objtype, second.objtype) {
        (ObjectType::Mask, ObjectType::Image) => Some(Objects::Separate {
            mask: first.object,
            image: second.object,
        }),
        (ObjectType::Image, ObjectType::Mask) => Some(Objects::Separate {
            mask: second.object,
            image: first.object,
        }),
        _ => None,
    }
}

// Whether some row has an identifier.
fn has_id(rows: &[Row], id: u16) -> bool
    ensures value { result ≡ has_id id rows.now }
{
    rows.iter().any(|row| row.layout.lobjid == id)
}

// What has been read of a layout object, after the layout objects of the rows `earlier`, of which none has its identifier.
#[derive(Drop)]
pub(crate) struct LayoutDraft<'a> {
    pub(crate) earlier: &'a [Row],
    pub(crate) head: Option<LayoutHead>,
    pub(crate) held: Held,
    ghost new: { new_among earlier.now head ≡ true },
}

impl LayoutDraft<'_> {
    // What a lhdr box says, where no earlier layout object has its identifier.
    fn read_head(&self, contents: &[u8]) -> Result<LayoutHead, Reason>
        ensures value { result ≡ judged (head_tests (layout_state self.now.earlier.now self.now.head self.now.held) contents.now) (layout_head_of contents.now) }
        ensures new { IfOk result (λ head. has_id head.layout.lobjid self.now.earlier.now ≡ false) }
    {
        let head = read_layout_header(contents)?;
        if has_id(self.earlier, head.layout.lobjid) {
            return Err(Reason::RepeatedIdentifier);
        }
        Ok(head)
    }

    // The row, where style and objects fit.
    pub(crate) fn row(&self) -> Option<Row>
        ensures value { result ≡ row_of self.now.head self.now.held }
        ensures new { IfSome result (λ row. has_id row.layout.lobjid self.now.earlier.now ≡ false) }
    {
        let head = self.head?;
        let objects = self.held.under(head.style)?;
        Some(Row {
            layout: head.layout,
            objects,
        })
    }
}

impl Container for LayoutDraft<'_> {
    ghost State = { LayoutState };

    ghost rules = { layout_rules };

    ghost state = { λ s. layout_state s.earlier.now s.head s.held };

    fn place(&self) -> Place {
        Place::LayoutObject
    }

    fn count(&self, kind: Kind) -> u8 {
        match kind {
            Kind::LayoutHeader => u8::from(self.head.is_some()),
            Kind::Object => self.held.count(),
            _ => 0,
        }
    }

    fn take(&mut self, kind: Kind, found: FoundBox) -> Result<(), Fault> {
        match kind {
            Kind::LayoutHeader => {
                let head = self.read_head(found.contents.bytes);
                self.head = Some(locate(head, Place::LayoutObject, found.at)?);
            }
            Kind::Object => {
                let mut object = Lone { head: None };
                read_superbox(&mut object, found)?;
                if let Some(head) = object.head {
                    self.held = self.held.with(head);
                }
            }
            _ => {}
        }
        Ok(())
    }

    fn closing(&self) -> Result<(), Reason> {
        self.row().ok_or(Reason::StyleMismatch)?;
        Ok(())
    }
}
