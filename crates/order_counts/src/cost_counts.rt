//! How many orders have each cost.

ghost use Rattle.std.specs.Prelude.{◌≡◌, ℕ, ◌+◌, ◌*◌, ◌^◌, ◌<◌, ◌≤◌, length, get_or};
ghost use Rattle.order_counts.specs.Figures.{raised};
ghost use Rattle.order_counts.specs.Sizes.{Covers, counts_at};

use std::alloc::Global;

/// How many orders have each cost. None has a cost below `least` or beyond the last entry.
#[derive(Drop)]
pub struct CostCounts {
    /// The cost of the first entry.
    pub least: u32,
    /// Entry i: how many orders have cost `least` + i.
    pub orders: Vec<u64>,
}

/// Some costs, one after the other.
#[derive(Clone, Copy)]
pub(crate) struct Span {
    /// The first of them.
    pub start: u32,
    /// The first cost after them. There are none if it isn't above `start`.
    pub end: u32,
}

impl Span {
    /// The least span that has the costs of `self`, and those of `counts` with `width` added.
    pub(crate) fn cover(self, counts: &CostCounts, width: u32) -> Span
        requires { counts.now.least + length counts.now.orders.items + width < 2 ^ 32 }
        ensures covers { Covers result counts.now width }
        ensures keeps { (s : CostCounts) (w : ℕ) → Covers self s w → Covers result s w }
    {
        if counts.orders.is_empty() {
            return self;
        }
        let start = counts.least + width;
        Span {
            start: self.start.min(start),
            end: self.end.max(start + counts.orders.len() as u32),
        }
    }
}

/// Adds `more` to the first entries of `counts`.
fn add_counts(counts: &mut [u64], more: &[u64])
    requires long { length more.now ≤ length counts.old }
    requires fits { (i : ℕ) → i < length more.now → get_or counts.old i 0 + get_or more.now i 0 < 2 ^ 64 }
    ensures long { length counts.new ≡ length counts.old }
    ensures added { (i : ℕ) → get_or counts.new i 0 ≡ get_or counts.old i 0 + get_or more.now i 0 }
{
    for i in 0..more.len() {
        counts[i] += more[i];
    }
}

impl CostCounts {
    /// No orders.
    pub(crate) fn none(alloc: Global) -> CostCounts
        ensures least { result.least ≡ 0 }
        ensures none { length result.orders.items ≡ 0 }
    {
        CostCounts {
            least: 0,
            orders: Vec::new(alloc),
        }
    }

    /// Adds the orders of `below` with one more variable on top, whose level has `width` nodes, at
    /// the costs that `self` has entries for.
    pub(crate) fn add(&mut self, below: &CostCounts, width: u32)
        requires start { 0 < length below.now.orders.items → self.old.least ≤ below.now.least + width }
        requires small { below.now.least + length below.now.orders.items + width < 2 ^ 32 }
        requires fits { (c : ℕ) → self.old.least ≤ c → c < self.old.least + length self.old.orders.items →
            counts_at self.old c + raised (counts_at below.now) width c < 2 ^ 64 }
        ensures least { self.new.least ≡ self.old.least }
        ensures long { length self.new.orders.items ≡ length self.old.orders.items }
        ensures added { (c : ℕ) → self.old.least ≤ c → c < self.old.least + length self.old.orders.items →
            counts_at self.new c ≡ counts_at self.old c + raised (counts_at below.now) width c }
    {
        if below.orders.is_empty() {
            return;
        }
        let start = (below.least + width - self.least) as usize;
        if start < self.orders.len() {
            let (_, entries) = self.orders.split_at_mut(start);
            let count = entries.len().min(below.orders.len());
            add_counts(entries, &below.orders[..count]);
        }
    }
}
