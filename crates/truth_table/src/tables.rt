ghost use Rattle.std.specs.Prelude.{◌≡◌, ◌*◌, ◌<◌, ◌≤◌, ◌^◌, length, map, IfOk, OnOk};
ghost use Rattle.definitions.specs.Functions.{from_table, table};
ghost use Rattle.definitions.specs.Levels.{level_counts};
ghost use Rattle.definitions.specs.Orders.{IsOrder, members};
ghost use Rattle.definitions.specs.Problems.{functions, outputs_of, packed_tables, table_at, value_at, words_per_table};
ghost use Rattle.definitions.specs.Products.{product_functions};
ghost use Rattle.truth_table.specs.Assignments.{AreValuesUnder};
ghost use Rattle.truth_table.specs.Restrictions.{fixed};
ghost use Rattle.std.specs.List.{All};

use crate::fixed_variables::fix_variable;
use crate::kept_points::kept_points;
use crate::level_classes::merge;
use crate::packed_values::write_packed_values;
use crate::row::Row;
use crate::term_points::{packed_words, points_mask};
use order_model::{Mask, Order, Problem, VarIx, contains};
use pla_reader::Cover;
use std::alloc::{AllocError, Global};
use std::marker::Model;
use std::thread::Threads;

/// The truth tables of 1 to 16 functions of 1 to 16 variables, such as the outputs of a cover.
#[derive(Debug, Drop)]
pub struct Tables {
    problem: Problem,
}

impl Model for Tables {
    ghost use Rattle.definitions.specs.Problems.{TruthTables};

    ghost Value = { TruthTables };

    ghost view = { λ t. t.problem };
}

impl Tables {
    /// The truth tables of a cover's outputs, in their order. The threads of `rt` share the work.
    pub fn of_cover<R: Threads + Sync>(
        rt: &R,
        alloc: Global,
        cover: &Cover,
    ) -> Result<Tables, AllocError>
        ensures inputs { IfOk result (λ t. t.inputs ≡ cover.now.inputs) }
        ensures tables { IfOk result
            (λ t. t.tables ≡ map (table cover.now.inputs)
            (product_functions cover.now.outputs cover.now.products)) }
    {
        let n = cover.inputs();
        let m = cover.outputs();
        let words = packed_words(rt, alloc, n, m, cover.terms())?;
        Ok(Tables {
            problem: Problem::from_words(n, m, words),
        })
    }

    /// The truth tables of m functions of n variables, packed one after the other in `words`. Bits
    /// past a table's last point are ignored.
    pub fn of_words(alloc: Global, n: u8, m: u8, words: &[u64]) -> Result<Tables, AllocError>
        requires some_inputs { 1 ≤ n }
        requires few_inputs { n ≤ 16 }
        requires some_outputs { 1 ≤ m }
        requires few_outputs { m ≤ 16 }
        requires long { length words.now ≡ m * words_per_table n }
        ensures { IfOk result (λ t. t ≡ packed_tables n m words.now) }
    {
        let kept = kept_points(alloc, words, points_mask(n))?;
        Ok(Tables {
            problem: Problem::from_words(n, m, kept),
        })
    }

    /// These truth tables as a `Problem`.
    pub fn problem(&self) -> &Problem
        ensures { result.now ≡ self.now }
    {
        &self.problem
    }

    /// The value of output `output`, counted from 0, at `point`.
    pub fn value(&self, output: u8, point: u32) -> bool
        requires output { output < outputs_of self.now }
        requires point { point < 2 ^ self.now.inputs }
        ensures { result ≡ value_at self.now output point }
    {
        self.problem.value(output, point)
    }

    /// The cofactor of output `output` in which each variable x of `care` is fixed to bit x of
    /// `value`, as a function of all variables. Takes a step for each variable fixed and each word.
    pub fn cofactor(
        &self,
        alloc: Global,
        output: u8,
        care: Mask,
        value: Mask,
    ) -> Result<Row, AllocError>
        requires { output < outputs_of self.now }
        ensures inputs { IfOk result (λ row. row.inputs ≡ self.now.inputs) }
        ensures table { IfOk result
            (λ row. row.table ≡ table self.now.inputs
            (fixed (members self.now.inputs care) value
            (from_table (table_at self.now output)))) }
    {
        let n = self.problem.inputs();
        let mut words = self.problem.words(output).to_vec(alloc)?;
        for x in 0..n {
            if contains(care, x) {
                fix_variable(n, &mut words, x, contains(value, x));
            }
        }
        Ok(Row::new(n, words))
    }

    /// Overwrites `values` with the functions' values, function by function, one entry a point. The
    /// points are numbered by `order`.
    pub(crate) fn write_values(
        &self,
        order: &[VarIx],
        values: &mut Vec<u32>,
    ) -> Result<(), AllocError>
        requires { IsOrder self.now.inputs order.now }
        ensures values { OnOk result (AreValuesUnder self.now order.now values.new.items) }
        ensures few { OnOk result (length values.new.items ≤ 2 ^ 20) }
    {
        let (n, m) = (self.problem.inputs(), self.problem.outputs());
        write_packed_values(n, m, self.problem.all_words(), order, values)
    }

    /// The level counts under `order`, counted in the truth tables, without making the diagram.
    pub fn widths_of(&self, alloc: Global, order: &Order) -> Result<Vec<u32>, AllocError>
        requires { length order.now ≡ self.now.inputs }
        ensures { IfOk result
            (λ v. v.items ≡ level_counts self.now.inputs (functions self.now) order.now) }
    {
        prove!(self.problem.outputs() <= 16);
        let n = order.len();
        let mut classes = Vec::new(alloc);
        self.write_values(order.variables(), &mut classes)?;
        let mut counts = vec![in alloc; 0u32; n]?;
        for level in (0..n).rev() {
            let above = merge(alloc, &classes)?;
            counts[level] = above.unequal;
            classes = above.numbers;
        }
        Ok(counts)
    }
}
