//! What minorder does with its files: answers, runs, and its command line.
#![tactic(auto)]

// The program, from words to a status.
mod program;

// Runs over readers and writers.
mod runs;

// Answers.
mod all_orders;
mod answers;
mod best;
mod diagrams;
mod search;
mod search_input;

pub use command_line::{Output, RunPlan};
pub use program::minorder;
pub use report_texts::laws;
pub use runs::run;
