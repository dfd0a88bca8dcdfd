//! The search for problems whose truth tables are small. The calling thread goes over all sets of
//! variables, one after the other, and finds the subfunctions over each, and from these its cell.
//! Its bound exceeds all costs, so nothing is pruned. Over up to three variables a subfunction is
//! kept as its truth table, over more as its class number. All tables lie in memory that is taken
//! once.
#![tactic(auto)]

mod all_widths;
mod cells;
mod classes;
mod instance;
mod search;
mod tables;
mod values;
mod width_counts;

pub use all_widths::widths_of_all_sets;
pub use instance::SmallSearch;
pub use search::{Workspace, are_few, find_optimum, is_small, solve, write_optimum};
