//! The 64-bit words of a store of nodes, and what the ids of nodes denote.
#![tactic(auto)]

pub mod laws;
mod operation;
mod words;

pub use operation::Operation;
pub use words::{NodeParts, entry_key, node_parts, node_word, probe, start};
