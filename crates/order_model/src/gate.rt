/// What each worker calls before it hands in a result. `minorder` passes `NoGate`; other gates hold
/// workers there, as tests do.
pub trait Gate: Sync {
    /// Worker number `worker`, counted from 1, calls this when it has the result for `item`: the
    /// mask of a set in a search, the number of a part of an output, from 0, in building a diagram.
    fn between(&self, worker: u8, item: u32);
}

/// A gate that does nothing.
#[derive(Clone, Copy, Debug)]
pub struct NoGate;

impl Gate for NoGate {
    fn between(&self, _worker: u8, _item: u32) {}
}
