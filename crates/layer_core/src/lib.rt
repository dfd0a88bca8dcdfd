//! A layer, the sets of one size: the problem instance, the widths that its cells take, and the
//! state machine by which workers claim the layer's blocks in turn, and post and read the cells of
//! its sets.
#![tactic(auto)]

// What a search is for, and the cells of a layer.
mod cells;
mod instance;
mod needs;
mod results;

// The machine.
mod events;
pub mod laws;
mod machine;

pub use events::{Event, Reply};
pub use instance::Instance;
pub use machine::Core;
pub use needs::{SetNeeds, asked_members, needs_of_layer};
pub use results::CellResult;
