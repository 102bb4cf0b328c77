//! Every minimal explanation of a goal, and of its negation.
#![tactic(auto)]

mod atoms;
mod board;
mod choices;
mod duals;
mod lists;
mod marks;
mod question;
mod theorems;
mod work;

pub use board::Board;
pub use lists::Lengths;
pub use question::{WORKSPACE, explain};
pub use theorems::{answers_are_minimal_explanations, boards_come_out};
