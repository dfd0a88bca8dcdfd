//! Variables in which functions are symmetric: what may be exchanged without a change of any
//! function, and what follows of widths.
#![tactic(auto)]

mod exchanges;
mod images;
pub mod laws;
mod marks;
mod matching;
mod orbits;
mod pairs;
mod points;
mod renaming;
mod words;

pub use exchanges::{Exchange, exchanges_of};
pub use orbits::{Image, Orbits};
pub use pairs::pairs_to_keep;
pub use renaming::Renaming;
