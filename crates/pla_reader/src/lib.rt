//! PLA descriptions (espresso(5), logical types f and fd) as covers.
#![tactic(auto)]

mod cover;
mod errors;
pub mod laws;
mod lines;
mod names;
mod places;
mod progress;
mod reader;
mod statements;
mod terms;

pub use cover::Cover;
pub use errors::{LineFault, PlaError};
pub use places::{Names, TextPlace, name_places};
pub use reader::{MOST_BYTES, read_bytes, read_cover};
