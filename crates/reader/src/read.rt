// Reading a page's plan.
ghost use Rattle.std.specs.Prelude.{◌≡◌};
ghost use Rattle.plan.specs.Page.{page_of};
ghost use Rattle.reader.specs.Laws.{FaultsLieInTheFile, RowsAreCounted, SkippedBoxesChangeNothing};
ghost use Rattle.reader.specs.Reading.{refusal_number, page_at, read_answer, read_page};

use crate::parts::Part;
use crate::search::Search;
use crate::walk::walk;
use boxes::fault::Fault;
use plan::lawful::Plan;
use std::error::Error;
use std::fmt;

// Why a read is refused.
#[derive(Clone, Copy, PartialEq, Eq, Debug)]
pub enum Refusal {
    // The file has a fault.
    Faulty(Fault),
    // The file has no page with that number.
    NoSuchPage,
}

impl Refusal {
    // The refusal's number, by a `match`, since `as` takes no enum whose variants have fields.
    pub fn number(self) -> u8
        ensures value { result ≡ refusal_number self }
    {
        match self {
            Refusal::Faulty(fault) => fault.number(),
            Refusal::NoSuchPage => 10,
        }
    }
}

impl fmt::Display for Refusal {
    ghost use Rattle.std.specs.Prelude.{Some};
    ghost use Rattle.reader.specs.Reading.{refusal_text};

    ghost output = { λ refusal. Some (refusal_text refusal) };

    fn fmt<W: fmt::Write>(&self, f: &mut fmt::Formatter<W>) -> fmt::Result {
        let number = self.number();
        match self {
            Refusal::Faulty(fault) => {
                let layer = fault.layer();
                let offset = fault.offset;
                write!(f, "refused {number} layer {layer} offset {offset}")
            }
            Refusal::NoSuchPage => write!(f, "refused {number}"),
        }
    }
}

impl Error for Refusal {}

// Reads the plan of the page with a number, counted from 0 among the page boxes, from the bytes of a file. Every page of the file is
// read, and the first fault decides; a refusal leaves the caller's plan as it was. The laws are of every read.
pub fn read(file: &[u8], number: u64, plan: &mut Plan) -> Result<(), Refusal>
    ensures answer { result ≡ read_answer (page_at number file.now) }
    ensures plan { page_of plan.new ≡ read_page (page_at number file.now) (page_of plan.old) }
    ensures laws { FaultsLieInTheFile × RowsAreCounted × SkippedBoxesChangeNothing }
{
    read_page(file, number, plan)
}

// The read itself.
fn read_page(file: &[u8], number: u64, plan: &mut Plan) -> Result<(), Refusal>
    ensures answer { result ≡ read_answer (page_at number file.now) }
    ensures plan { page_of plan.new ≡ read_page (page_at number file.now) (page_of plan.old) }
{
    let mut search = Search::<Plan> {
        left: Some(number),
        found: None,
    };
    walk(&mut search, Part::whole(file)).map_err(Refusal::Faulty)?;
    *plan = search.found.ok_or(Refusal::NoSuchPage)?;
    Ok(())
}
