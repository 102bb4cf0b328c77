//! Models of boards.
#![tactic(auto)]

mod alternative;
mod calls;
mod equality;
mod judge;
mod literal;
mod model;
mod refusal;
mod rule;
mod supposing;
mod suppositions;
mod theorems;

pub use alternative::Alternative;
pub use literal::{Kind, Literal};
pub use model::Model;
pub use refusal::Refusal;
pub use rule::Rule;
pub use supposing::{Supposing, suppose};
pub use suppositions::Suppositions;
pub use theorems::{
    equal_values_are_the_same, held_rules_say_it_all, journal_determines_the_session,
    rules_are_layered,
};

#[cfg(test)]
mod tests;
