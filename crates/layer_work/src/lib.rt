//! A worker's part of a layer (the sets of one size): what it reads, and the cells of the blocks
//! that it claims at the layer's board. The calling thread can compute all cells of a layer alone.
#![tactic(auto)]

mod alone;
mod cells;
mod context;
mod images;
mod worker;

pub use alone::cells_alone;
pub use context::LayerContext;
pub use images::images_of_layer;
pub use worker::{WorkerResult, work_layer};
