//! Class tables of single sets, and the widths over them, one at a time: what the solver computes
//! for whole blocks at once, in the plainest form. Widths may be counted in working memory that is
//! made once.
#![tactic(auto)]

mod chains;
mod classes;
mod indexed_pairs;
mod scratch;

pub use classes::Classes;
pub use scratch::Scratch;
