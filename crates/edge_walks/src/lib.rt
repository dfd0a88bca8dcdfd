//! The walk of the checker over all sets, which finds the first of given edges that fails. An edge
//! leads from a set to the set with one more variable. It fails if the value of the larger set
//! exceeds that of the smaller one by more than the width of this variable over the smaller set.
#![tactic(auto)]

mod class_table;
mod fewer_edges;
mod lower_classes;
mod parallel;
mod position;
mod repeats;
mod small_sources;
mod top_tables;
mod upper_halves;
mod walk;

pub use parallel::{CallingThread, ThreadPool, Walker, first_failure};
pub use position::{Edge, Edges};
