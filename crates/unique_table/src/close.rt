ghost use Rattle.std.specs.Prelude.{◌≡◌, ◌^◌, ◌<◌, ◌≤◌, length, slice_index, IfOk, IfErr, OnOk, map};
ghost use Rattle.std.specs.Slots.{slots_len};
ghost use Rattle.std.specs.List.{range_with_len};
ghost use Rattle.definitions.specs.Diagrams.{Represents, IsReduced};
ghost use Rattle.definitions.specs.Problems.{functions};
ghost use Rattle.unique_table.specs.Plans.{order_of, levels_of};
ghost use Rattle.unique_table.specs.Closing.{HasAllRoots, LacksRoot, root_id, root_word, roots_count};

use crate::reached_nodes::reached_nodes;
use crate::store::Store;
use atomic_table::Closed;
use order_model::{Diagram, Order};
use std::alloc::Global;
use std::marker::Model;
use std::snapshot::Snapshot;

/// Why a store gives no diagram.
#[derive(Clone, Copy, Debug, PartialEq, Eq)]
pub enum CloseFault {
    /// The root of this output, the least such one, wasn't published.
    MissingRoot(u8),
    /// An allocation was refused.
    OutOfMemory,
}

/// A closed store: its last words, which no session changes any more.
pub struct ClosedStore {
    pub(crate) closed: Closed<(), Global>,
    /// How many words are node places: the first ones.
    pub(crate) places: usize,
    /// The index of the word of output 0's root. Those of the other outputs follow.
    pub(crate) first: usize,
    pub(crate) roots: u8,
    pub(crate) order: Order,
    /// The store that was closed, for contracts.
    pub(crate) store: Snapshot<Store>,
}

impl Model for ClosedStore {
    ghost use Rattle.unique_table.specs.Closing.{ClosedStoreOf};

    ghost Value = { ClosedStoreOf };

    ghost use Rattle.unique_table.specs.Closed.{closed_store, IsClosedStore};

    ghost view = { closed_store };

    ghost invariant = { IsClosedStore };
}

impl Drop for ClosedStore {
    fn drop(self) {
        let (closed, _) = self.take_apart();
        closed.free();
    }
}

impl ClosedStore {
    /// Makes the reduced diagram of the store's functions. Err gives the closed store back, with
    /// the reason.
    pub fn diagram(self, alloc: Global) -> Result<Diagram, (ClosedStore, CloseFault)>
        ensures roots { OnOk result (HasAllRoots self) }
        ensures order { IfOk result (λ d. d.order ≡ order_of self.plan) }
        ensures diagram { IfOk result
            (λ d. Represents (levels_of self.plan) (functions self.plan.problem.value)
            (order_of self.plan) d.graph) }
        ensures reduced { IfOk result (λ d. IsReduced d.graph) }
        ensures kept { IfErr result (λ e. e.0 ≡ self) }
        ensures missing { IfErr result (λ e. LacksRoot self e.1) }
    {
        let ids = match self.root_ids(alloc) {
            Ok(ids) => ids,
            Err(fault) => return Err((self, fault)),
        };
        let order = self.order.variables();
        let made = reached_nodes(alloc, &self.closed, self.places, order, ids.as_slice());
        let Ok(reached) = made else {
            return Err((self, CloseFault::OutOfMemory));
        };
        let (closed, order) = self.take_apart();
        closed.free();
        Ok(Diagram::new(order, reached.nodes, reached.roots))
    }

    /// Takes out the words, which are not freed, and the order.
    fn take_apart(self) -> (Closed<(), Global>, Order)
        ensures slots { slots_len result.0.slots ≡ 0 }
        ensures order { result.1 ≡ order_of self.plan }
    {
        let ClosedStore {
            closed,
            places: _,
            first: _,
            roots: _,
            order,
            store: _,
        } = self;
        (closed, order)
    }

    /// The ids of the outputs' roots, or why there are none.
    fn root_ids(&self, alloc: Global) -> Result<Vec<u32>, CloseFault>
        ensures roots { OnOk result (HasAllRoots self.now) }
        ensures ids { IfOk result
            (λ v. v.items ≡ map (root_id self.now) (range_with_len 0 (roots_count self.now.plan))) }
        ensures missing { IfErr result (LacksRoot self.now) }
    {
        let Ok(mut ids) = Vec::with_capacity(alloc, usize::from(self.roots)) else {
            return Err(CloseFault::OutOfMemory);
        };
        for output in 0..self.roots {
            let word = self.root_word(output);
            if word == 0 {
                return Err(CloseFault::MissingRoot(output));
            }
            let Ok(()) = ids.push((word - 1) as u32) else {
                return Err(CloseFault::OutOfMemory);
            };
        }
        Ok(ids)
    }

    /// The word of output `output`'s root: its id plus 1, or 0 if it was not published.
    fn root_word(&self, output: u8) -> u64
        requires { output < roots_count self.now.plan }
        ensures is { result ≡ root_word self.now output }
        ensures small { result ≤ 2 ^ 32 }
    {
        self.closed.word(self.first + usize::from(output))
    }
}
