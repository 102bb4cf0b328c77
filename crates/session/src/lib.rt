//! Sessions: lists of calls, and what a run of one leaves.
#![tactic(auto)]

mod call;
mod runs;

pub use call::Call;
pub use runs::{replay, run};
