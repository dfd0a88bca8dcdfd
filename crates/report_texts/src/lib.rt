//! What runs write, and what is said of runs: the texts of reports and counts, the definitions that
//! a run's contract cites, and what holds of all runs. Nothing of the search.
#![tactic(auto)]

pub mod laws;

// The texts, and writing them.
mod counts;
mod order_texts;
mod output;
mod texts;

pub use counts::counts_of;
pub use order_texts::{OrdersReport, orders_text, sizes_text};
pub use output::{RunTexts, write_texts};
pub use texts::{Report, report_text};
