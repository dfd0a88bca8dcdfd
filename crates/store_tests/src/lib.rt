//! Worked cases of stores, of their cache, and of building diagrams in them.
#![tactic(auto)]

#[cfg(test)]
mod builds;
#[cfg(test)]
mod closed_stores;
#[cfg(test)]
mod fresh;
#[cfg(test)]
mod full_stores;
#[cfg(test)]
mod recalls;
