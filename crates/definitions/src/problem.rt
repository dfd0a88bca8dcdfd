ghost use Rattle.std.specs.Prelude.{◌≡◌, ◌+◌, ◌<◌, ◌≤◌, ◌^◌, false, true, length, set, replicate, IfOk};
ghost use Rattle.definitions.specs.Problems.{TruthTables, IsClean, IsPacked, functions, outputs_of, packed_tables, table_at, table_in, value_at, words_per_table as size_of};
ghost use Rattle.std.specs.List.{list_any, filter};
ghost use Rattle.definitions.specs.Functions.{depends, from_table};
ghost use Rattle.definitions.specs.Orders.{mask_of, variables};
ghost use Rattle.definitions.specs.Widths.{essential_mask};

use crate::packed::{bit_of, block, depends_on, words_per_table};
use crate::variables::{Mask, VarIx};
use std::alloc::{AllocError, Global};
use std::marker::Model;

/// The truth tables of 1 to 16 functions of 1 to 16 variables. Bit i of a point is variable i.
#[derive(Debug, Drop)]
pub struct Problem {
    inputs: u8,
    outputs: u8,
    /// The packed truth tables, one after the other, each of `words_per_table(inputs)` words.
    words: Vec<u64>,
}

impl Model for Problem {
    ghost Value = { TruthTables };

    ghost view = { λ p. packed_tables p.inputs p.outputs p.words.items };

    ghost invariant = { λ p. IsPacked p.inputs p.outputs p.words.items };
}

impl Problem {
    /// The problem of n variables and m functions whose values are all 0.
    pub fn new(alloc: Global, n: u8, m: u8) -> Result<Problem, AllocError>
        requires some_inputs { 1 ≤ n }
        requires few_inputs { n ≤ 16 }
        requires some_outputs { 1 ≤ m }
        requires few_outputs { m ≤ 16 }
        ensures inputs { IfOk result (λ p. p.inputs ≡ n) }
        ensures tables { IfOk result (λ p. p.tables ≡ replicate m (replicate (2 ^ n) false)) }
    {
        let len = m as usize * words_per_table(n);
        let words = vec![in alloc; 0u64; len]?;
        Ok(Problem {
            inputs: n,
            outputs: m,
            words,
        })
    }

    /// The problem whose packed truth tables stand one after the other in `words`. With fewer than
    /// 6 variables each has one word, whose bits from `2^inputs` on are 0.
    pub fn from_words(inputs: u8, outputs: u8, words: Vec<u64>) -> Problem
        requires { IsPacked inputs outputs words.items }
        ensures { result ≡ packed_tables inputs outputs words.items }
    {
        Problem {
            inputs,
            outputs,
            words,
        }
    }

    /// The number of variables, 1 to 16.
    pub fn inputs(&self) -> u8
        ensures value { result ≡ self.now.inputs }
        ensures some { 1 ≤ result }
        ensures few { result ≤ 16 }
    {
        self.inputs
    }

    /// The number of functions, 1 to 16.
    pub fn outputs(&self) -> u8
        ensures value { result ≡ outputs_of self.now }
        ensures some { 1 ≤ result }
        ensures few { result ≤ 16 }
    {
        self.outputs
    }

    /// The value at `point` of function `output`, counted from 0.
    pub fn value(&self, output: u8, point: u32) -> bool
        requires output { output < outputs_of self.now }
        requires point { point < 2 ^ self.now.inputs }
        ensures { result ≡ value_at self.now output point }
    {
        bit_of(self.words(output), point as usize)
    }

    /// Sets function `output`, counted from 0, to 1 at `point`.
    pub fn set(&mut self, output: u8, point: u32)
        requires output { output < outputs_of self.old }
        requires point { point < 2 ^ self.old.inputs }
        ensures inputs { self.new.inputs ≡ self.old.inputs }
        ensures tables { self.new.tables ≡ set self.old.tables output
            (set (table_at self.old output) point true) }
    {
        let place = output as usize * words_per_table(self.inputs) + point as usize / 64;
        self.words[place] |= 1 << (point % 64);
    }

    /// The packed truth table of function `output`, counted from 0. With n variables, n below 6, it
    /// is one word, whose bits from `2^n` on are 0.
    pub fn words(&self, output: u8) -> &[u64]
        requires { output < outputs_of self.now }
        ensures long { length result.now ≡ size_of self.now.inputs }
        ensures table { table_in self.now.inputs result.now ≡ table_at self.now output }
        ensures clean { IsClean self.now.inputs result.now }
    {
        block(&self.words, words_per_table(self.inputs), output as usize)
    }

    /// The packed truth tables of all functions, one after the other.
    pub fn all_words(&self) -> &[u64]
        ensures packed { IsPacked self.now.inputs (outputs_of self.now) result.now }
        ensures tables { packed_tables self.now.inputs (outputs_of self.now) result.now ≡ self.now }
    {
        &self.words
    }

    /// The variables on which some function depends.
    pub fn essential(&self) -> Mask
        ensures { result ≡ essential_mask self.now.inputs (functions self.now) }
    {
        let mut mask: Mask = 0;
        for x in 0..self.inputs() {
            if self.has_dependence(x) {
                mask |= 1 << x;
            }
        }
        mask
    }

    /// Whether some function depends on x.
    fn has_dependence(&self, x: VarIx) -> bool
        requires { x < self.now.inputs }
        ensures { result ≡ list_any (λ f. depends self.now.inputs f x) (functions self.now) }
    {
        for output in 0..self.outputs() {
            if depends_on(self.inputs(), self.words(output), x) {
                return true;
            }
        }
        false
    }

    /// The variables on which function `output`, counted from 0, depends.
    pub fn support(&self, output: u8) -> Mask
        requires { output < outputs_of self.now }
        ensures { result ≡ mask_of (filter
            (depends self.now.inputs (from_table (table_at self.now output)))
            (variables self.now.inputs)) }
    {
        let words = self.words(output);
        let mut found: Mask = 0;
        for x in 0..self.inputs() {
            if depends_on(self.inputs(), words, x) {
                found |= 1 << x;
            }
        }
        found
    }
}
