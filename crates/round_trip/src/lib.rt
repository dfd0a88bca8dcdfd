//! What holds of both programs together. Each law is the contract of a function that does nothing.
#![tactic(auto)]

pub mod laws;
