//! A cache of results of operations, in a store's own words. A new entry replaces the older one in
//! its place.
#![tactic(auto)]

mod cache;

pub use cache::{recall, remember};
