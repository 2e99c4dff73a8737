// The file: any number of page boxes, of which one is wanted, for its plan.
ghost use Rattle.std.specs.Prelude.{◌≡◌, option_map};
ghost use Rattle.reader.specs.Pages.{FileState, file_state, file_rules, page_from};
ghost use Rattle.plan.specs.Page.{page_of};

use crate::container::Container;
use crate::page::PageDraft;
use crate::parts::FoundBox;
use crate::search::Search;
use crate::walk::read_superbox;
use boxes::fault::Fault;
use boxes::reason::Reason;
use boxes::table::{Kind, Place};
use plan::lawful::Plan;

impl Search<Plan> {
    // Keeps the plan of the page that is wanted. It is a function of its own, since a function clears the room of a plan at
    // its start, and of most pages no plan is made.
    fn keep(&mut self, page: &PageDraft)
        ensures left { self.new.left ≡ self.old.left }
        ensures found { option_map page_of self.new.found ≡ page_from page.now }
    {
        self.found = page.plan();
    }
}

// The search for a box's place answers three of the questions alike. One impl for both would build the plan of each page that it
// passes, and not of the wanted one alone; and a trait's default could not know the rules that its answer has to meet.
impl Container for Search<Plan> {
    ghost State = { FileState };

    ghost rules = { file_rules };

    ghost state = { λ s. file_state s.left (option_map page_of s.found) };

    fn place(&self) -> Place {
        Place::File
    }

    fn count(&self, _kind: Kind) -> u8 {
        0
    }

    fn take(&mut self, kind: Kind, found: FoundBox) -> Result<(), Fault> {
        if kind == Kind::Page {
            let mut page = PageDraft::new();
            read_superbox(&mut page, found)?;
            if self.pass() {
                self.keep(&page);
            }
        }
        Ok(())
    }

    fn closing(&self) -> Result<(), Reason> {
        Ok(())
    }
}
