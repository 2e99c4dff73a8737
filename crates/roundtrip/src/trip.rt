// A plan that is written and read back.
ghost use Rattle.std.specs.Prelude.{◌≡◌};
ghost use Rattle.plan.specs.Page.{page_of};
ghost use Rattle.writer.specs.Puts.{write_answer, write_buffer};
ghost use Rattle.writer.specs.Written.{written};
ghost use Rattle.roundtrip.specs.RoundTrip.{RoundTrip, read_back};

use crate::bounds::plan_fits;
use plan::lawful::Plan;
use reader::read::read;
use writer::refused::Refused;
use writer::writing::write;

// Writes a plan at the front of a buffer, as `write` does, and reads it back from there into another plan, which is then equal to it.
// Refused where the buffer is too short; the buffer and the other plan are then as they were.
#[tactic(auto, using(crate::proofs::Plans::same_plan))]
pub fn write_back(plan: &Plan, out: &mut [u8], again: &mut Plan) -> Result<usize, Refused>
    ensures answer { result ≡ write_answer out.old (written (page_of plan.now)) }
    ensures buffer { out.new ≡ write_buffer out.old (written (page_of plan.now)) }
    ensures plan { again.new ≡ read_back out.old plan.now again.old }
    ensures trip { RoundTrip plan.now }
{
    trips(plan);
    let size = write(plan, out)?;
    read(&out[..size], 0, again).unwrap();
    Ok(size)
}

// Every plan makes the round trip, since each of its fields fits its width.
fn trips(plan: &Plan)
    ensures trip { RoundTrip plan.now }
{
    plan_fits(plan);
}
