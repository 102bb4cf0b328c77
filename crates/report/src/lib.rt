//! The lines of a report, written into the caller's bytes.
#![tactic(auto)]

mod lines;
#[cfg(test)]
mod tests;

pub use lines::Line;
