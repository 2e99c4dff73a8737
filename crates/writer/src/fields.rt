// The fields of a box, written one after the other.
ghost use Rattle.writer.specs.Fields.{field_bytes, fields_bytes};
ghost use Rattle.writer.specs.Puts.{HasRoom, Puts};

use crate::buffer::Cursor;

// A number, with a case for each width that a field can have, so that fields of several widths stand in one list.
#[derive(Clone, Copy)]
pub(crate) enum Field {
    One(u8),
    Two(u16),
    Four(u32),
    Eight(u64),
}

impl Cursor<'_> {
    // Writes one field.
    fn put_field(&mut self, field: Field)
        requires { HasRoom self.old (field_bytes field) }
        ensures { Puts self.old self.new (field_bytes field) }
    {
        // Four arms, since the number has another type in each.
        match field {
            Field::One(number) => self.put(&number.to_be_bytes()),
            Field::Two(number) => self.put(&number.to_be_bytes()),
            Field::Four(number) => self.put(&number.to_be_bytes()),
            Field::Eight(number) => self.put(&number.to_be_bytes()),
        }
    }

    // Writes fields in their order.
    pub(crate) fn put_fields(&mut self, fields: &[Field])
        requires { HasRoom self.old (fields_bytes fields.now) }
        ensures { Puts self.old self.new (fields_bytes fields.now) }
    {
        for field in fields {
            self.put_field(*field);
        }
    }
}
