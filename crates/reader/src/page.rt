// A page: a superbox with a phdr box, a res box and up to 64 layout objects.
ghost use Rattle.std.specs.Prelude.{◌≡◌, false, option_map, IfOk, IfSome};
ghost use Rattle.plan.specs.Laws.{has_id};
ghost use Rattle.plan.specs.Page.{page_of};
ghost use Rattle.reader.specs.Pages.{PageState, new_page, page_rules, page_from, with_row, row_read, header_into, resolution_into, layout_into};
ghost use Rattle.reader.specs.Walk.{outcome};

use crate::container::Container;
use crate::layout_object::{Held, LayoutDraft};
use crate::lone::Lone;
use crate::parts::FoundBox;
use crate::walk::{locate, read_superbox};
use boxes::fault::Fault;
use boxes::reason::Reason;
use boxes::table::{Kind, Place};
use plan::headers::{PageHead, read_page_header};
use plan::lawful::Plan;
use plan::layout::Row;
use plan::page::Resolution;
use plan::views::blank_row;
use std::marker::Model;

// The row of a layout object after those of the rows `earlier`.
fn read_row(earlier: &[Row], found: FoundBox) -> Result<Option<Row>, Fault>
    ensures value { result ≡ row_read earlier.now found.entry.at found.entry.contents.start found.entry.contents.bytes.now }
    ensures new { IfOk result (λ row. IfSome row (λ row. has_id row.layout.lobjid earlier.now ≡ false)) }
{
    let mut draft = LayoutDraft {
        earlier,
        head: None,
        held: Held::Empty,
    };
    read_superbox(&mut draft, found)?;
    Ok(draft.row())
}

// What has been read of a page. Its rows are an array with a count, in fixed memory, since they become the plan's as they stand.
#[derive(Drop)]
pub(crate) struct PageDraft {
    head: Option<PageHead>,
    resolution: Option<Resolution>,
    rows: [Row; 64],
    used: usize,
}

impl Model for PageDraft {
    ghost use Rattle.std.specs.Prelude.{take};
    ghost use Rattle.reader.specs.Drafts.{IsLawful};
    ghost use Rattle.reader.specs.Pages.{PageState, page_state};

    ghost Value = { PageState };

    ghost view = { λ s. page_state s.head s.resolution (take s.used s.rows) };

    ghost invariant = { λ s. IsLawful s.head s.resolution s.used s.rows };
}

impl PageDraft {
    // A page that has no box yet.
    pub(crate) fn new() -> PageDraft
        ensures value { result ≡ new_page }
    {
        PageDraft {
            head: None,
            resolution: None,
            rows: [blank_row(); 64],
            used: 0,
        }
    }

    // The rows so far.
    fn rows(&self) -> &[Row]
        ensures value { result.now ≡ self.now.rows }
    {
        &self.rows[..self.used]
    }

    // One row more, where there is room. Its identifier is new.
    fn push(&mut self, row: Row)
        requires { has_id row.layout.lobjid self.old.rows ≡ false }
        ensures after { self.new ≡ with_row self.old (Some row) }
    {
        let used = self.used;
        if used < 64 {
            self.rows[used] = row;
            self.used = used + 1;
        }
    }

    // Takes a phdr box.
    fn take_header(&mut self, found: FoundBox) -> Result<(), Fault>
        ensures after { outcome result self.new ≡ header_into self.old found.entry.at found.entry.contents.bytes.now }
    {
        let head = read_page_header(found.contents.bytes);
        self.head = Some(locate(head, Place::Page, found.at)?);
        Ok(())
    }

    // Takes a res box.
    fn take_resolution(&mut self, found: FoundBox) -> Result<(), Fault>
        ensures after { outcome result self.new ≡ resolution_into self.old found.entry.at found.entry.contents.start found.entry.contents.bytes.now }
    {
        let mut draft = Lone { head: None };
        read_superbox(&mut draft, found)?;
        self.resolution = draft.head;
        Ok(())
    }

    // Takes a layout object.
    fn take_layout_object(&mut self, found: FoundBox) -> Result<(), Fault>
        ensures after { outcome result self.new ≡ layout_into self.old found.entry.at found.entry.contents.start found.entry.contents.bytes.now }
    {
        if let Some(row) = read_row(self.rows(), found)? {
            self.push(row);
        }
        Ok(())
    }

    // The plan that a whole page says.
    pub(crate) fn plan(&self) -> Option<Plan>
        ensures plan { option_map page_of result ≡ page_from self.now }
    {
        let header = self.head?.header;
        let resolution = self.resolution?;
        let rows = self.rows;
        Some(Plan {
            header,
            resolution,
            rows,
            count: self.used,
        })
    }
}

impl Container for PageDraft {
    ghost State = { PageState };

    ghost rules = { page_rules };

    ghost state = { λ s. s };

    fn place(&self) -> Place {
        Place::Page
    }

    fn count(&self, kind: Kind) -> u8 {
        match kind {
            Kind::PageHeader => u8::from(self.head.is_some()),
            Kind::Resolution => u8::from(self.resolution.is_some()),
            Kind::LayoutObject => self.used as u8,
            _ => 0,
        }
    }

    fn take(&mut self, kind: Kind, found: FoundBox) -> Result<(), Fault> {
        match kind {
            Kind::PageHeader => self.take_header(found),
            Kind::Resolution => self.take_resolution(found),
            Kind::LayoutObject => self.take_layout_object(found),
            _ => Ok(()),
        }
    }

    fn closing(&self) -> Result<(), Reason> {
        match self.head {
            Some(head) if usize::from(head.nlobj) != self.used => Err(Reason::Miscounted),
            _ => Ok(()),
        }
    }
}
