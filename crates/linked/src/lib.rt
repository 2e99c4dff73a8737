// Whether a page can be read, and whole sheets drawn, in functions on numbers and bytes alone: the crate linked_c exports them to
// programs in C or Rust.
#![tactic(auto)]

mod sheets;
mod stacks;

ghost use Rattle.std.specs.Prelude.{◌≡◌};
ghost use Rattle.reader.specs.Reading.{page_at};
ghost use Rattle.linked.specs.Verdict.{verdict};

use plan::lawful::Plan;
use reader::read::read;
pub use sheets::{draw_grey, draw_paper, draw_tint};

// 0 where the page with a number can be read from the bytes of a file, and otherwise the number of the refusal: C has no Result.
pub fn page_verdict(file: &[u8], number: u64) -> u8
    ensures value { result ≡ verdict (page_at number file.now) }
{
    let mut plan = Plan::blank();
    read(file, number, &mut plan).map_or_else(|refusal| refusal.number(), |()| 0)
}
