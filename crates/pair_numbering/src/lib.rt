//! Numbers of the pairs of a class table's entries that differ in one variable: equal for equal
//! pairs and no others. With them come the masks of numbers: the variables that their functions
//! depend on.
#![tactic(auto)]

mod cells;
mod entries;
mod index;
mod keys;
mod lower_classes;
mod masks;
mod memory;
mod numbers;
mod slots;

pub use entries::EntryPairs;
pub use index::index_entries;
pub use keys::{PairKeys, label_pairs};
pub use masks::{MaskedPairs, join_masks};
pub use memory::PairMemory;
pub use numbers::{MaskedNumbers, NumberedPairs, are_in_order, number_with_masks};
