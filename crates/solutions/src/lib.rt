//! What is read off the cells of all sets: the first order of the fewest nodes, the sets and costs
//! that its certificate lists, and how many widths the cells took. Of the orders of the fewest
//! nodes the first is the lexicographically smallest, top first.
#![tactic(auto)]

mod all_cells;
mod listed_sets;
mod optima;
mod reading;
mod solution;
mod width_counts;

pub use all_cells::AllCells;
pub use optima::{optimum_of, solution_of};
pub use reading::read_optimum;
pub use solution::Solution;
pub use width_counts::count_widths;
