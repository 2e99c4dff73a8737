// The framing of a JPM file: what a box header says, and whether the box fits where it stands.
#![tactic(auto)]

pub mod codes;
pub mod fault;
pub mod field;
pub mod frame;
pub mod reason;
pub mod table;
