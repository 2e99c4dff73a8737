// Where a page box lies in a file.
ghost use Rattle.std.specs.Prelude.{◌≡◌};
ghost use Rattle.reader.specs.Spans.{FinderState, finder_state, finder_rules, span_at};

use crate::container::Container;
use crate::parts::{FoundBox, Part};
use crate::search::Search;
use crate::walk::walk;
use boxes::fault::Fault;
use boxes::reason::Reason;
use boxes::table::{Kind, Place};

// A box in a file: the offset of its header, and its whole size.
#[derive(Clone, Copy, PartialEq, Eq, Debug)]
pub struct Span {
    pub offset: usize,
    pub size: usize,
}

impl Container for Search<Span> {
    ghost State = { FinderState };

    ghost rules = { finder_rules };

    ghost state = { λ s. finder_state s.left s.found };

    fn place(&self) -> Place {
        Place::File
    }

    fn count(&self, _kind: Kind) -> u8 {
        0
    }

    fn take(&mut self, kind: Kind, found: FoundBox) -> Result<(), Fault> {
        if kind == Kind::Page && self.pass() {
            let FoundBox { at, contents } = found;
            self.found = Some(Span {
                offset: at,
                size: contents.start.saturating_sub(at) + contents.bytes.len(),
            });
        }
        Ok(())
    }

    fn closing(&self) -> Result<(), Reason> {
        Ok(())
    }
}

// Where the page box with a number lies, counted from 0 among the page boxes; `None` where there is none, or the top level has a fault.
pub fn find_page(file: &[u8], number: u64) -> Option<Span>
    ensures answer { result ≡ span_at number file.now }
{
    let mut search = Search {
        left: Some(number),
        found: None,
    };
    walk(&mut search, Part::whole(file)).ok()?;
    search.found
}
