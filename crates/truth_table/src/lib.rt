//! Truth tables of covers, their cofactors, plain counts of levels, and diagrams made from them.
#![tactic(auto)]

mod diagrams;
mod fixed_variables;
mod kept_points;
mod level_classes;
mod levels;
mod packed_values;
mod row;
mod tables;
mod term_points;

pub use diagrams::{DiagramMemory, make_diagram, reduced_diagram};
pub use levels::NumberedNode;
pub use row::Row;
pub use tables::Tables;
pub use term_points::cover_words;
