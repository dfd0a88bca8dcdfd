//! What ordercheck does with its files: checks of certificates, verdicts, and its command line.
#![tactic(auto)]

// The program, from words to a status.
mod program;

// Checks over readers and a writer.
mod check_run;
pub mod laws;

// The lines of verdicts.
mod verdict_texts;

pub use check_run::run_check;
pub use program::ordercheck;
