// A plan, written as one page box.
ghost use Rattle.std.specs.Prelude.{◌≡◌, ◌≤◌, length, take, IfOk};
ghost use Rattle.plan.specs.Page.{page_of};
ghost use Rattle.writer.specs.Puts.{HasRoom, Puts, write_answer, write_buffer};
ghost use Rattle.writer.specs.Written.{written, page_size};

use crate::buffer::Cursor;
use crate::headers::page_header_size;
use crate::refused::Refused;
use crate::rows::rows_size;
use boxes::codes::PAGE;
use plan::lawful::Plan;

// A buffer of this many bytes is never too short: it holds a page with a page collection and 64 layout objects of two objects each.
pub const MOST_BYTES: usize = 8008;

// How many bytes the written form of a plan has.
pub fn written_size(plan: &Plan) -> usize
    ensures value { result ≡ length (written (page_of plan.now)) }
    ensures bound { result ≤ MOST_BYTES }
{
    page_size(plan) as usize
}

// The same as the page box's length says it: its header, the phdr box, the res box of 26 bytes and the lobj boxes.
#[tactic(auto, unfolding(crate::specs::Written::written))]
fn page_size(plan: &Plan) -> u32
    ensures value { result ≡ length (written (page_of plan.now)) }
    ensures parts { result ≡ page_size (page_of plan.now) }
    ensures bound { result ≤ MOST_BYTES }
{
    8 + page_header_size(plan.header) + 26 + rows_size(plan)
}

// Writes the plan at the front of the buffer as one page box in the written form, and answers how many bytes that is.
// The rest of the buffer stays as it was. Refused where the buffer is too short, with all of it as it was.
#[tactic(auto, using(crate::proofs::Puts::front_written))]
pub fn write(plan: &Plan, out: &mut [u8]) -> Result<usize, Refused>
    ensures answer { result ≡ write_answer out.old (written (page_of plan.now)) }
    ensures buffer { out.new ≡ write_buffer out.old (written (page_of plan.now)) }
    ensures front { IfOk result (λ n. (n ≤ length out.new) × (take n out.new ≡ written (page_of plan.now))) }
{
    let size = page_size(plan);
    if out.len() < size as usize {
        return Err(Refused::BufferTooShort);
    }
    let mut cursor = Cursor::new(out);
    cursor.put_page(plan, size);
    Ok(size as usize)
}

impl Cursor<'_> {
    // The page box of a plan, whose length is known.
    #[tactic(auto, unfolding(crate::specs::Written::written))]
    fn put_page(&mut self, plan: &Plan, size: u32)
        requires size { size ≡ length (written (page_of plan.now)) }
        requires room { HasRoom self.old (written (page_of plan.now)) }
        ensures { Puts self.old self.new (written (page_of plan.now)) }
    {
        self.put_box_header(size, PAGE);
        self.put_page_header(plan.header, plan.count() as u16);
        self.put_resolution(plan.resolution);
        self.put_rows(plan.rows());
    }
}
