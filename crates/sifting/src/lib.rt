//! Swaps of adjacent levels, and sifting, on the levels of a reduced diagram.
#![tactic(auto)]

mod build;
mod convergence;
pub mod laws;
mod levels;
mod manager;
mod node_table;
mod sift;

pub use manager::Manager;
pub use sift::Sifted;
