//! Readers and writers that count their failed calls, read to the end and written whole.
#![tactic(auto)]

mod counters;
mod whole;

pub use counters::{CountedRead, CountedWrite, Counting};
pub use whole::{Refused, read_all, write_whole};
