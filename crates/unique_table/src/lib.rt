//! A store of decision nodes that threads share, with a unique table and an operation cache.
#![tactic(auto)]

// The store: its plan, its sessions and what they do, and how it begins and ends.
mod close;
mod create;
mod plan;
mod session;
mod store;

// The diagram of a closed store: the nodes that its roots reach.
mod node_copies;
mod page_numbers;
mod reached_nodes;

// The words in which the store is kept, their invariant, and the kinds of atomic steps on them.
mod atomic_steps;
pub mod laws;
mod words;

pub use atomic_steps::Words;
pub use close::{CloseFault, ClosedStore};
pub use node_words::{NodeParts, Operation};
pub use plan::{PieceKind, Pieces, Plan, TERM_SHARES, TermList};
pub use session::{NodeId, Session, Stake, View};
pub use store::{Store, StoreFull};
