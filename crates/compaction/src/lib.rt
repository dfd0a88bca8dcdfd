//! The solver's class tables, which tell which subfunctions over a set of variables are equal, and
//! the widths that are counted in them.
#![tactic(auto)]

mod add_variable;
mod all_rows;
mod blocks;
mod found_rows;
mod high_bytes;
mod high_walk;
mod image_rows;
mod low_choice;
mod preparation;
mod request;
mod requests;
mod rows;
mod shared_tables;
mod strips;
mod tally;
mod values;

pub use all_rows::{widths_of_all_sets, widths_of_all_sets_by_workers};
pub use blocks::{BlockWidths, block_widths};
pub use low_choice::renaming_of;
pub use preparation::Preparation;
pub use requests::Requests;
pub use tally::Tally;
