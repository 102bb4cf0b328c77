//! Cards: a model as bytes, record by record.
#![tactic(auto)]

mod contents;
mod fault;
mod loading;
mod reader;
mod storing;

pub use contents::{Contents, walk};
pub use fault::Fault;
pub use loading::load;
pub use reader::{Reader, Record, raw_weight};
pub use storing::store;

#[cfg(test)]
mod tests;
