//! All orders at once: how many there are, their fewest and their most nodes, and the laws by which
//! these follow from the widths of all sets of variables.
#![tactic(auto)]

// The laws of all orders and their sizes, each the contract of a function with an empty body.
pub mod laws;

// The figures of all orders.
mod figures;

// How many orders have each cost.
mod cost_counts;

// For each set, the costs of its orders that can matter.
mod limits;

// How many orders of a set's variables have each cost.
mod set_counts;

// The counts of the sets of a layer.
mod layer_counts;

// How many of all orders have each size, and how many have fewer nodes than a given one.
mod below;
mod sizes;

pub use below::orders_below;
pub use cost_counts::CostCounts;
pub use figures::{Figures, figures_of_orders};
pub use layer_counts::{ByWorkers, CallingThread, Counter};
pub use sizes::sizes_of_orders;
