//! The variable orders of the fewest nodes, found layer by layer over the sets of variables by
//! several workers.
#![tactic(auto)]

// The solver: the layers one after another, by workers or by the calling thread.
mod alone;
mod crews;
mod guesses;
mod layer_needs;
mod layers;
mod look_ahead;
mod preparation;
mod row_finders;
mod solver;

pub use compaction::{Preparation, renaming_of};
pub use layer_core::{Instance, needs_of_layer};
pub use layer_work::{LayerContext, WorkerResult, images_of_layer, work_layer};
pub use preparation::{SearchStart, prepare};
pub use solutions::Solution;
pub use solver::{count_widths, find_optimum, find_optimum_alone, solve, solve_alone};
pub use symmetries::Renaming;
