// The plan of a page. Every value of the type is lawful: the fields that may not be 0 are not, there are at most 64 rows, their identifiers
// are distinct, and the places of the array past the last row are blank, so that two plans that say the same are equal.
ghost use Rattle.std.specs.Prelude.{◌≡◌, ◌≤◌, true, length};
ghost use Rattle.plan.specs.Laws.{sized_page, whole_resolution, BlankFrom, distinct_below};

use crate::layout::Row;
use crate::page::{PageHeader, Resolution};

// The rows are an array with their count beside it: no heap is used here, and the library's vector of a fixed size is not `Copy`, as a plan is.
#[derive(Clone, Copy)]
pub struct Plan {
    pub header: PageHeader,
    pub resolution: Resolution,
    pub rows: [Row; 64],
    pub count: usize,
    ghost sized: { sized_page header ≡ true },
    ghost whole: { whole_resolution resolution ≡ true },
    ghost few: { count ≤ 64 },
    ghost places: { length rows ≡ 64 },
    ghost distinct: { distinct_below count rows ≡ true },
    ghost blank: { BlankFrom count rows },
}
