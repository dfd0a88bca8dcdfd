//! The input of a search for a small problem.

ghost use Rattle.std.specs.Prelude.{◌≡◌, ◌<◌, ◌≤◌, [], length, IfOk, IsTrue};
ghost use Rattle.definitions.specs.Orders.{members};
ghost use Rattle.definitions.specs.Pairs.{is_lawful};
ghost use Rattle.definitions.specs.Problems.{outputs_of, packed_tables, table_at, table_in, words_per_table as size_of};
ghost use Rattle.small_search.specs.Searches.{ArePacked, IsPlainSearch, plain_instance};

use order_model::packed::{block, words_per_table};
use order_model::{Mask, Pairs, Problem};
use std::marker::Model;

/// A bound that exceeds the cost of each lawful set: such a cost is at most 16 widths of at most
/// 2^20 each, and at most 16 nodes are counted above the set.
pub(crate) const NO_BOUND: u32 = 1 << 25;

/// The truth tables of some functions, packed in words of 64 points, one after the other, and the
/// pairs that an order must keep. The bits behind a table's last point don't count.
#[derive(Drop)]
pub struct SmallSearch<'a> {
    inputs: u8,
    outputs: u8,
    words: &'a [u64],
    pairs: &'a Pairs,
}

impl<'a> Model for SmallSearch<'a> {
    ghost use Rattle.definitions.specs.Problems.{packed_tables};
    ghost use Rattle.layer_core.specs.Instances.{InstanceOf};
    ghost use Rattle.small_search.specs.Searches.{HoldsSearch, plain_instance};

    ghost Value = { InstanceOf };

    ghost view = { λ s. plain_instance (packed_tables s.inputs s.outputs s.words.now) s.pairs.now };

    ghost invariant = { λ s. HoldsSearch s.inputs s.outputs s.words.now s.pairs.now };
}

impl<'a> SmallSearch<'a> {
    /// `words` has the truth tables of `outputs` functions of `inputs` variables.
    pub fn new(inputs: u8, outputs: u8, words: &'a [u64], pairs: &'a Pairs) -> SmallSearch<'a>
        requires packed { ArePacked inputs outputs words.now }
        requires pairs { pairs.now.inputs ≡ inputs }
        ensures { result ≡ plain_instance (packed_tables inputs outputs words.now) pairs.now }
    {
        prove!(pairs.inputs() <= 16);
        SmallSearch {
            inputs,
            outputs,
            words,
            pairs,
        }
    }

    /// The search for the functions of `problem` among the orders that keep `pairs`.
    pub(crate) fn of_problem(problem: &'a Problem, pairs: &'a Pairs) -> SmallSearch<'a>
        requires { pairs.now.inputs ≡ problem.now.inputs }
        ensures { result ≡ plain_instance problem.now pairs.now }
    {
        prove!(problem.inputs() <= 16);
        prove!(problem.outputs() <= 16);
        SmallSearch::new(
            problem.inputs(),
            problem.outputs(),
            problem.all_words(),
            pairs,
        )
    }

    /// The number of variables.
    #[inline(always)]
    pub(crate) fn inputs(&self) -> u8
        ensures value { result ≡ self.now.problem.inputs }
        ensures some { 1 ≤ result }
        ensures few { result ≤ 16 }
        ensures plain { IsPlainSearch self.now }
    {
        self.inputs
    }

    /// The number of functions.
    #[inline(always)]
    pub(crate) fn outputs(&self) -> u8
        ensures value { result ≡ outputs_of self.now.problem }
        ensures few { result ≤ 16 }
    {
        self.outputs
    }

    /// The packed truth table of function `output`, counted from 0.
    pub(crate) fn words(&self, output: u8) -> &[u64]
        requires { output < outputs_of self.now.problem }
        ensures long { length result.now ≡ size_of self.now.problem.inputs }
        ensures table { table_in self.now.problem.inputs result.now ≡ table_at self.now.problem output }
    {
        block(self.words, words_per_table(self.inputs), output as usize)
    }

    /// Whether there are no pairs that an order must keep.
    pub(crate) fn has_no_pairs(&self) -> bool
        ensures { IsTrue result → self.now.pairs.pairs ≡ [] }
    {
        self.pairs.count() == 0
    }

    /// Whether `set` is lawful: for each pair (a, b), if it has a it has b.
    #[inline(always)]
    pub(crate) fn lawful(&self, set: Mask) -> bool
        ensures { result ≡ is_lawful self.now.pairs.pairs
            (members self.now.problem.inputs set) }
    {
        self.pairs.lawful(set)
    }
}
