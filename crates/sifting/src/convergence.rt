//! A tight bound for a search: sifting until nothing is gained, from an order and from it reversed.

ghost use Rattle.std.specs.Prelude.{◌≡◌, ◌≤◌, ◌⊎◌, IfOk, IfSome};

use crate::manager::Manager;
use crate::sift::{Sifted, raise};
use order_model::Workers;
use std::alloc::{AllocError, Global};
use std::thread;
use std::thread::Threads;

/// The most passes that `repeat` makes, which are seldom needed.
const MOST_PASSES: u32 = 16;

/// With fewer inputs, a search takes no longer than sifting again.
const LEAST_INPUTS: usize = 13;

/// Two sizes are near if they differ by at most a part of so many of the second one. The sizes of
/// random functions are near under all orders.
const NEAR_PART: u32 = 64;

/// Whether `size` and `other` differ by at most a sixty-fourth of `other`.
fn is_near(size: u32, other: u32) -> bool {
    size.abs_diff(other) <= other / NEAR_PART
}

impl Manager {
    /// Reverses the order as far as its pairs allow: from the top of the old order, each variable
    /// is moved up as far as it may.
    fn turned_over(self, alloc: Global) -> Result<Manager, AllocError>
        ensures functions { IfOk result (λ m. m.problem ≡ self.problem) }
        ensures pairs { IfOk result (λ m. m.pairs ≡ self.pairs) }
    {
        let start = self.order().try_clone(alloc)?;
        let mut manager = self;
        for x in start.variables() {
            let place = manager.order().place_of(*x);
            let (raised, _) = raise(alloc, manager, place)?;
            manager = raised;
        }
        Ok(manager)
    }
}

impl Sifted {
    ghost use Rattle.sifting.specs.Managed.{IsNoLarger};

    /// Sifts until a pass leaves the size as it is, in at most 16 passes.
    fn repeat(self, alloc: Global) -> Result<Sifted, AllocError>
        ensures { IfOk result (IsNoLarger self) }
    {
        let mut sifted = self;
        for _ in 0..MOST_PASSES {
            let size = sifted.size();
            sifted = sifted.into_manager().sift(alloc)?;
            if sifted.size() == size {
                break;
            }
        }
        Ok(sifted)
    }

    /// A copy of the diagram with this order reversed as far as the pairs allow. None if the two
    /// sizes are near.
    fn other_start(&self, alloc: Global) -> Result<Option<Manager>, AllocError>
        ensures { IfOk result (λ o. IfSome o (λ m. (m.problem ≡ self.now.problem)
            × (m.pairs ≡ self.now.pairs))) }
    {
        let other = self.manager().try_clone(alloc)?.turned_over(alloc)?;
        if is_near(other.size(), self.size()) {
            Ok(None)
        } else {
            Ok(Some(other))
        }
    }

    /// Whichever has the smaller size; this order if the sizes are equal.
    fn or_smaller(self, other: Sifted) -> Sifted
        ensures size { result.size ≤ self.size }
        ensures either { (result ≡ self) ⊎ (result ≡ other) }
    {
        if other.size() < self.size() {
            other
        } else {
            self
        }
    }

    /// Sifts from this order and from it reversed as far as its pairs allow, each until a pass
    /// leaves the size as it is, in at most 17 passes, and returns the smaller result. Returns this
    /// order unchanged if the two starts differ in size by at most a sixty-fourth.
    pub fn sifted_to_convergence(self, alloc: Global) -> Result<Sifted, AllocError>
        ensures { IfOk result (IsNoLarger self) }
    {
        let Some(other) = self.other_start(alloc)? else {
            return Ok(self);
        };
        let here = self.repeat(alloc)?;
        let there = other.sift(alloc)?.repeat(alloc)?;
        Ok(here.or_smaller(there))
    }

    /// The order whose size bounds the search: this order if it has fewer than 13 variables, else
    /// the result of `sifted_to_convergence`.
    pub fn search_bound(self, alloc: Global) -> Result<Sifted, AllocError>
        ensures { IfOk result (IsNoLarger self) }
    {
        if self.order().len() < LEAST_INPUTS {
            return Ok(self);
        }
        self.sifted_to_convergence(alloc)
    }

    /// The order whose size bounds the search, as by `search_bound`. With two workers or more each
    /// start is sifted by a thread of its own.
    pub fn search_bound_by_threads<R: Threads + Sync>(
        self,
        rt: &R,
        alloc: Global,
        workers: Workers,
    ) -> Result<Sifted, AllocError>
        ensures { IfOk result (IsNoLarger self) }
    {
        if workers.count() == 1 || self.order().len() < LEAST_INPUTS {
            return self.search_bound(alloc);
        }
        let Some(other) = self.other_start(alloc)? else {
            return Ok(self);
        };
        let (there, here) = thread::join(
            rt,
            move || -> Result<Sifted, AllocError>
                ensures { IfOk result (λ s. (s.problem ≡ other.problem)
                    × (s.pairs ≡ other.pairs)) }
            { other.sift(alloc)?.repeat(alloc) },
            move || -> Result<Sifted, AllocError>
                ensures { IfOk result (IsNoLarger self) }
            { self.repeat(alloc) },
        );
        Ok(here?.or_smaller(there?))
    }
}
