// The widths of a plan's fields. That a number fits its type is known of what a function takes by value, so `headers_fit` and `row_fits` take
// fields, do nothing with them, and ensure that they fit.
ghost use Rattle.plan.specs.Page.{page_of};
ghost use Rattle.roundtrip.specs.Fits.{HeaderFits, ResolutionFits, RowFits, PageFits};

use plan::lawful::Plan;
use plan::layout::Row;
use plan::page::{PageHeader, Resolution};

// Every field of a plan fits its width.
pub fn plan_fits(plan: &Plan)
    ensures fits { PageFits (page_of plan.now) }
{
    headers_fit(plan.header, plan.resolution);
    for row in plan.rows() {
        row_fits(*row);
    }
}

// The fields of a page header and of a resolution.
fn headers_fit(header: PageHeader, resolution: Resolution)
    ensures header { HeaderFits header }
    ensures resolution { ResolutionFits resolution }
{}

// The fields of a layout object and of its objects.
fn row_fits(row: Row)
    ensures fits { RowFits row }
{}
