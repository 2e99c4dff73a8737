// A canvas: a rectangle of a page, drawn window by window while samples still come in.
#![tactic(auto)]

mod canvases;
mod cases;
mod checks;
mod placements;

pub use canvases::Canvas;
pub use cases::small_sheet_cells;
pub use checks::check;
pub use placements::placement;
