//! Tests of the checker of certificates: the largest ones, the solver's, and a checker written
//! apart.
#![tactic(auto)]

#[cfg(test)]
mod plain;
#[cfg(test)]
mod sixteen;
#[cfg(test)]
mod solved;
