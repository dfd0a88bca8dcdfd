//! The board of a layer: shared words on which threads claim the layer's blocks and post its cells.
#![tactic(auto)]

mod atomic_steps;
mod boards;
mod cell_words;
mod closed;
pub mod laws;
mod seats;
mod views;

pub use atomic_steps::BoardRule;
pub use boards::{Board, PostRefused};
pub use closed::{CloseError, ClosedBoard};
pub use seats::{BoardSeat, Claim};
pub use views::{Brief, Knowledge};
