// A page's plan, written as the bytes of one page box.
#![tactic(auto)]

mod buffer;
mod fields;
mod headers;
pub mod refused;
mod rows;
pub mod writing;
