ghost use Rattle.std.specs.Prelude.{◌≡◌, ◌<◌, ◌≤◌};
ghost use Rattle.definitions.specs.Functions.{depends, from_table};
ghost use Rattle.truth_table.specs.Rows.{IsRow, row_table};

use order_model::VarIx;
use order_model::packed::depends_on;
use std::marker::Model;

/// The truth table of one function of 1 to 16 variables.
#[derive(Debug, Drop)]
pub struct Row {
    inputs: u8,
    words: Vec<u64>,
}

impl Model for Row {
    ghost use Rattle.truth_table.specs.Rows.{IsRow, RowTable, row_table};

    ghost Value = { RowTable };

    ghost view = { λ r. row_table r.inputs r.words.items };

    ghost invariant = { λ r. IsRow r.inputs r.words.items };
}

impl Row {
    /// The truth table of a function of `inputs` variables, packed in `words`.
    pub(crate) fn new(inputs: u8, words: Vec<u64>) -> Row
        requires { IsRow inputs words.items }
        ensures { result ≡ row_table inputs words.items }
    {
        Row { inputs, words }
    }

    /// The number of variables, from 1 to 16.
    pub fn inputs(&self) -> u8
        ensures value { result ≡ self.now.inputs }
        ensures some { 1 ≤ result }
        ensures few { result ≤ 16 }
    {
        self.inputs
    }

    /// Whether the function depends on variable x.
    pub fn depends(&self, x: VarIx) -> bool
        requires { x < self.now.inputs }
        ensures { result ≡ depends self.now.inputs (from_table self.now.table) x }
    {
        depends_on(self.inputs, &self.words, x)
    }
}
