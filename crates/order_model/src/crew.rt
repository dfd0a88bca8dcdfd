ghost use Rattle.std.specs.Prelude.{◌≡◌};

use definitions::Workers;

/// The workers of a run: the runtime that starts their threads, their number, and their gate.
#[derive(Drop)]
pub struct Crew<'a, R, G> {
    pub rt: &'a R,
    pub workers: Workers,
    /// What each worker calls before it hands in a result.
    pub gate: &'a G,
}

impl<'a, R, G> Crew<'a, R, G> {
    /// A crew whose threads `rt` starts.
    pub fn new(rt: &'a R, workers: Workers, gate: &'a G) -> Crew<'a, R, G>
        ensures starts { result.rt.now ≡ rt.now }
        ensures workers { result.workers ≡ workers }
        ensures gate { result.gate.now ≡ gate.now }
    {
        Crew { rt, workers, gate }
    }
}
