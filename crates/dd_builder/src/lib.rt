//! Reduced diagrams built by several workers, and operations on functions of a store.
#![tactic(auto)]

mod builders;
mod cover_terms;
mod errors;
mod laws;
mod operations;
mod parts;
mod roots;
mod tables;
mod workers;

pub use builders::{
    build, build_from, build_tables, cover_store, from_cover, from_tables, tables_store,
};
pub use errors::BuildError;
pub use laws::subfunctions_are_few;
pub use operations::apply;
