// The cells of a canvas: where they lie, what each call does to one of them, and the passes over a window.
#![tactic(auto)]

mod frames;
mod lays;
mod obstacles;
mod ones;
mod panes;
mod rectangles;
mod refusals;
mod shows;
mod stored;
mod tallies;
mod windows;
mod wipes;

pub use frames::Frame;
pub use rectangles::{Position, Rectangle};
pub use refusals::Refusal;
pub use stored::Cell;
pub use windows::{clear, lay_window, show_window, tally, wipe_window};
