// The headers, each with the boxes around it that hold nothing else: lengths, codes, and the fields in the format's order.
ghost use Rattle.std.specs.Prelude.{◌≡◌, ◌+◌, ◌≤◌, ◌++◌, length};
ghost use Rattle.boxes.specs.Field.{digits};
ghost use Rattle.plan.specs.Headers.{style_number};
ghost use Rattle.writer.specs.Puts.{HasRoom, Puts};
ghost use Rattle.writer.specs.Written.{collection_bytes, phdr, res, lhdr, objc};

use crate::buffer::Cursor;
use crate::fields::Field;
use boxes::codes::{LHDR, OBJC, OHDR, PHDR, RES, RESD};
use plan::headers::ObjectType;
use plan::layout::{Object, Row};
use plan::page::{Collection, PageHeader, Resolution};

// How many bytes the phdr box of a page has.
pub(crate) fn page_header_size(header: PageHeader) -> u32
    ensures value { result ≡ 24 + length (collection_bytes header.collection) }
    ensures bound { result ≤ 38 }
{
    match header.collection {
        Some(_) => 38,
        None => 24,
    }
}

impl Cursor<'_> {
    // The header of a box: the length of the whole, and the type's code.
    pub(crate) fn put_box_header(&mut self, size: u32, code: u32)
        requires { HasRoom self.old (digits 4 size ++ digits 4 code) }
        ensures { Puts self.old self.new (digits 4 size ++ digits 4 code) }
    {
        self.put_fields(&[Field::Four(size), Field::Four(code)]);
    }

    // The phdr box of a page with a number of layout objects.
    pub(crate) fn put_page_header(&mut self, header: PageHeader, nlobj: u16)
        requires { HasRoom self.old (phdr header nlobj) }
        ensures { Puts self.old self.new (phdr header nlobj) }
    {
        self.put_fields(&[
            Field::Four(page_header_size(header)),
            Field::Four(PHDR),
            Field::Two(header.pageid),
            Field::Two(nlobj),
            Field::Four(header.pheight),
            Field::Four(header.pwidth),
            Field::Two(header.or),
            Field::Two(header.pcolor),
        ]);
        self.put_collection(header.collection);
    }

    // The last three fields of a phdr box, where the page belongs to a collection.
    #[tactic(auto, using(crate::proofs::Puts::puts_none))]
    fn put_collection(&mut self, collection: Option<Collection>)
        requires { HasRoom self.old (collection_bytes collection) }
        ensures { Puts self.old self.new (collection_bytes collection) }
    {
        if let Some(known) = collection {
            self.put_fields(&[
                Field::Eight(known.pcoff),
                Field::Four(known.pclen),
                Field::Two(known.pcdr),
            ]);
        }
    }

    // The res box of a page, around its resd box.
    pub(crate) fn put_resolution(&mut self, resolution: Resolution)
        requires { HasRoom self.old (res resolution) }
        ensures { Puts self.old self.new (res resolution) }
    {
        self.put_fields(&[
            Field::Four(26),
            Field::Four(RES),
            Field::Four(18),
            Field::Four(RESD),
            Field::Two(resolution.vrdn),
            Field::Two(resolution.vrdd),
            Field::Two(resolution.hrdn),
            Field::Two(resolution.hrdd),
            Field::One(resolution.vrde.cast_unsigned()),
            Field::One(resolution.hrde.cast_unsigned()),
        ]);
    }

    // The lhdr box of a layout object, with the style that its objects say.
    pub(crate) fn put_layout_header(&mut self, row: Row)
        requires { HasRoom self.old (lhdr row.layout (style_number row.objects)) }
        ensures { Puts self.old self.new (lhdr row.layout (style_number row.objects)) }
    {
        let layout = row.layout;
        self.put_fields(&[
            Field::Four(28),
            Field::Four(LHDR),
            Field::Two(layout.lobjid),
            Field::Four(layout.lheight),
            Field::Four(layout.lwidth),
            Field::Four(layout.lvoff),
            Field::Four(layout.lhoff),
            Field::Two(row.objects.style()),
        ]);
    }

    // The objc box of an object, around its ohdr box.
    pub(crate) fn put_object(&mut self, object: Object, objtype: ObjectType)
        requires { HasRoom self.old (objc object objtype) }
        ensures { Puts self.old self.new (objc object objtype) }
    {
        self.put_fields(&[
            Field::Four(44),
            Field::Four(OBJC),
            Field::Four(36),
            Field::Four(OHDR),
            Field::Two(object.objid),
            Field::Two(objtype.number()),
            Field::Two(u16::from(object.nocodestream)),
            Field::Four(object.ovoff),
            Field::Four(object.ohoff),
            Field::Eight(object.off),
            Field::Four(object.len),
            Field::Two(object.dr),
        ]);
    }
}
