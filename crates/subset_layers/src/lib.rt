//! Layers of the sets of variables, divided into blocks, the costs of a layer, and the cell of a
//! set from the costs of the layer before.
#![tactic(auto)]

mod costs;
mod layers;
mod recurrence;
mod selection;

pub use costs::{Cell, Costs};
pub use layers::{Block, Layer};
pub use recurrence::{clipped_cell, lawful_cell};
