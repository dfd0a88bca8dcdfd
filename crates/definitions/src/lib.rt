//! What orders, Boolean functions, decision diagrams, their sizes and certificates are: the
//! definitions, their laws as lemmas, and the plain types that the definitions speak of.
#![tactic(auto)]

// Variables, sets of variables, product terms and truth tables in words.
pub mod packed;
mod problem;
mod terms;
mod variables;

// Nodes, sets that certificates list, what prunes a search, hashes, and why orders and pairs are
// refused.
mod faults;
mod hashes;
mod limits;
mod listed_cells;
mod refs;

pub use faults::{BadOrder, PairsFault};
pub use hashes::HASH_MULTIPLIER;
pub use limits::{Limit, LowerBound};
pub use listed_cells::ListedCell;
pub use problem::Problem;
pub use refs::{Node, Ref};
pub use terms::Term;
pub use variables::{Mask, VarIx, WidthRow, Workers, contains, next_member};
