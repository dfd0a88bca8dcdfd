use unique_table::Session;

/// Why a build in a store gives no diagram.
#[derive(Drop)]
pub enum BuildError {
    /// All node places are taken, as this session knows.
    StoreFull(Session),
    /// A worker or the calling thread was refused memory.
    OutOfMemory,
}
