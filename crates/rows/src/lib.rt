//! Rows, and lists of elements of which none is below another.
#![tactic(auto)]

mod antichain;
mod lent;
mod list;
mod ordered;
mod row;
mod run;
#[cfg(test)]
mod tests;
mod theorems;

pub use antichain::Antichain;
pub use lent::Lent;
pub use list::{Full, covers, fill_from, put};
pub use ordered::Ordered;
pub use row::{PLACES, Row};
pub use run::{minimal_rows, put_all, put_each};
pub use theorems::equal_rows_are_the_same;
