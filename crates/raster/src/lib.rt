// Colours and how they are blended and shown, sources of samples of which some are not there yet, and the touch of a
// layout object at a page position.
#![tactic(auto)]

mod arrivals;
mod colours;
mod covers;
mod greys;
mod layers;
mod packed;
mod packings;
mod papers;
mod scanlines;
mod scans;
mod shortages;
mod shows;
mod sources;
#[cfg(test)]
mod tests;
mod tints;
mod touches;
mod uniforms;

pub use arrivals::{Arrival, flattened};
pub use colours::Colour;
pub use covers::{Cover, FULL, full_cover, no_cover};
pub use greys::{Grey, blend_shade};
pub use layers::{Layer, LayerRow};
pub use packings::{Bits, Bytes, OneByte, Triples};
pub use papers::Paper;
pub use shortages::Shortage;
pub use sources::{Look, Source};
pub use tints::Tint;
pub use touches::{Placement, Touch, Touching, TouchingRow, touched};
pub use uniforms::Uniform;
