// The plan of a page, read from the bytes of a JPM file.
#![tactic(auto)]

mod container;
mod file;
mod heads;
mod layout_object;
mod lone;
mod page;
mod parts;
pub mod read;
mod search;
pub mod span;
mod walk;
