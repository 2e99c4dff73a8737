// What a page says of its layout: the page header, the resolution, and a row for each layout object.
#![tactic(auto)]

pub mod headers;
pub mod lawful;
pub mod layout;
pub mod page;
pub mod views;
