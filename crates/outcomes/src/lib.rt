//! What both programs share: how they end, their faults, statuses and messages, and what their
//! words are.
#![tactic(auto)]

mod fault_lines;
mod messages;
mod outcome;

pub use fault_lines::Program;
pub use messages::{
    OccupiedStreams, occupy_closed_streams, texts_of, words_of_program, write_fault, write_usage,
};
pub use outcome::{Fault, Outcome};
