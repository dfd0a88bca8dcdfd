//! The checker of certificates. It doesn't search. Besides what `edge_walks` names, these are
//! shared with the search: definitions and laws, the types of problems and orders, truth tables,
//! certificates as text.
#![tactic(auto)]

mod decision;
mod edges;
mod head;
mod values;
mod verdict;

pub use decision::{check, check_alone};
pub use verdict::{Reason, Verdict};
