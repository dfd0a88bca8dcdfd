//! Tests of runs and checks over devices that fail.
#![tactic(auto)]

#[cfg(test)]
mod devices;
#[cfg(test)]
mod runs;
#[cfg(test)]
mod verdicts;
