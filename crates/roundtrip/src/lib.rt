// A plan that is written and read back.
#![tactic(auto)]

pub mod bounds;
#[cfg(test)]
mod tests;
pub mod trip;
