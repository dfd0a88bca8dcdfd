//! The command lines of minorder and ordercheck, read by clap.
#![tactic(auto)]

mod arguments;
mod line;
mod ordercheck_line;
mod usage;

pub use line::{Line, Output, RunPlan};
pub use ordercheck_line::CheckLine;
pub use usage::Usage;
