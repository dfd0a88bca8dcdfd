//! Class numbers of subfunctions, and the variables that classes depend on: definitions, and laws
//! for the crates that number classes, each in its own way.
#![tactic(auto)]

pub mod laws;
mod masks;
mod ranks;
mod values;

pub use masks::{count_with, join_mask};
pub use ranks::rank_of;
pub use values::{no_dependence, number_of_value, value_numbers};
