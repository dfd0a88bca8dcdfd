//! Who finds rows of widths: the calling thread, or several workers.

ghost use Rattle.std.specs.Prelude.{◌≡◌};

use crate::look_ahead::LookAhead;
use compaction::Preparation;
use order_model::Crew;
use std::alloc::{AllocError, Global};
use std::thread::Threads;

/// Who finds rows of widths.
pub(crate) trait RowFinder {
    // What a call requires.
    ghost ready: { Self → Type 0 };

    /// Finds the rows that `ahead` requests, and adds them to `prepared`.
    fn find_rows(
        &self,
        alloc: Global,
        prepared: &mut Preparation<'_>,
        ahead: &LookAhead,
    ) -> Result<(), AllocError>
        requires { ready self.now }
        ensures problem { prepared.new.problem ≡ prepared.old.problem }
        ensures renamed { prepared.new.renamed ≡ prepared.old.renamed };
}

/// The calling thread.
#[derive(Drop)]
pub(crate) struct CallingThread;

impl RowFinder for CallingThread {
    ghost ready = { λ _. Unit {0} };

    fn find_rows(
        &self,
        alloc: Global,
        prepared: &mut Preparation<'_>,
        ahead: &LookAhead,
    ) -> Result<(), AllocError> {
        prepared.find_alone(alloc, &ahead.requests, ahead.end)
    }
}

impl<'a, R: Threads + Sync, G> RowFinder for Crew<'a, R, G> {
    ghost use Rattle.std.specs.Thread.{IsSync};

    ghost ready = { λ _. IsSync R.row };

    fn find_rows(
        &self,
        alloc: Global,
        prepared: &mut Preparation<'_>,
        ahead: &LookAhead,
    ) -> Result<(), AllocError> {
        prepared.find(self.rt, alloc, &ahead.requests, ahead.end, self.workers)
    }
}
