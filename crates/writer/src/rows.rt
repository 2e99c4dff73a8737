// The layout objects of a page: how many bytes they have, and their lobj boxes in the order of the rows.
ghost use Rattle.std.specs.Prelude.{◌≡◌, ◌≤◌, length};
ghost use Rattle.std.specs.List.{flat_map};
ghost use Rattle.plan.specs.Page.{page_of};
ghost use Rattle.writer.specs.Puts.{HasRoom, Puts};
ghost use Rattle.writer.specs.Written.{lobj, objcs};

use crate::buffer::Cursor;
use boxes::codes::LOBJ;
use plan::headers::ObjectType;
use plan::lawful::Plan;
use plan::layout::{Objects, Row};

// How many bytes the objc boxes of a layout object have.
fn objects_size(objects: Objects) -> u32
    ensures value { result ≡ length (objcs objects) }
    ensures bound { result ≤ 88 }
{
    match objects {
        Objects::Separate { .. } => 88,
        Objects::Both(_) | Objects::Image(_) | Objects::Mask(_) => 44,
    }
}

// How many bytes the lobj box of a row has: its header, the lhdr box of 28 bytes, and the objc boxes.
#[tactic(auto, unfolding(crate::specs::Written::lobj))]
fn row_size(row: Row) -> u32
    ensures value { result ≡ length (lobj row) }
    ensures bound { result ≤ 124 }
{
    8 + 28 + objects_size(row.objects)
}

// How many bytes the lobj boxes of a plan have.
pub(crate) fn rows_size(plan: &Plan) -> u32
    ensures value { result ≡ length (flat_map lobj (page_of plan.now).rows) }
    ensures bound { result ≤ 7936 }
{
    let mut size = 0;
    for row in plan.rows() {
        size += row_size(*row);
    }
    size
}

impl Cursor<'_> {
    // The objc boxes of a layout object, the mask before the image.
    fn put_objects(&mut self, objects: Objects)
        requires { HasRoom self.old (objcs objects) }
        ensures { Puts self.old self.new (objcs objects) }
    {
        match objects {
            Objects::Separate { mask, image } => {
                self.put_object(mask, ObjectType::Mask);
                self.put_object(image, ObjectType::Image);
            }
            Objects::Both(object) => self.put_object(object, ObjectType::Both),
            Objects::Image(object) => self.put_object(object, ObjectType::Image),
            Objects::Mask(object) => self.put_object(object, ObjectType::Mask),
        }
    }

    // The lobj box of a row.
    #[tactic(auto, unfolding(crate::specs::Written::lobj))]
    fn put_row(&mut self, row: Row)
        requires { HasRoom self.old (lobj row) }
        ensures { Puts self.old self.new (lobj row) }
    {
        self.put_box_header(row_size(row), LOBJ);
        self.put_layout_header(row);
        self.put_objects(row.objects);
    }

    // The lobj boxes of rows, in their order.
    pub(crate) fn put_rows(&mut self, rows: &[Row])
        requires { HasRoom self.old (flat_map lobj rows.now) }
        ensures { Puts self.old self.new (flat_map lobj rows.now) }
    {
        for row in rows {
            self.put_row(*row);
        }
    }
}
