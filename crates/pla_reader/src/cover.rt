ghost use Rattle.std.specs.Prelude.{◌≡◌, ◌≤◌, length, map};
ghost use Rattle.std.specs.List.{All};
ghost use Rattle.std.specs.String.{string_bytes};
ghost use Rattle.definitions.specs.Products.{product_of};
ghost use Rattle.pla_reader.specs.Masks.{Fits};

use order_model::Term;
use std::marker::Model;

/// A cover: 1 to 16 inputs and outputs, a name for each, and product terms.
#[derive(Debug, Drop)]
pub struct Cover {
    inputs: u8,
    outputs: u8,
    input_names: Vec<String>,
    output_names: Vec<String>,
    terms: Vec<Term>,
}

impl Model for Cover {
    ghost use Rattle.pla_reader.specs.Covers.{NamedCover};

    ghost Value = { NamedCover };

    ghost use Rattle.pla_reader.specs.Views.{cover_view, IsWellFormed};

    ghost view = { cover_view };

    ghost invariant = { IsWellFormed };
}

impl Cover {
    /// A cover with these names, by rising number, and these product terms.
    pub(crate) fn new(
        inputs: u8,
        outputs: u8,
        input_names: Vec<String>,
        output_names: Vec<String>,
        terms: Vec<Term>,
    ) -> Cover
        requires some_inputs { 1 ≤ inputs }
        requires few_inputs { inputs ≤ 16 }
        requires some_outputs { 1 ≤ outputs }
        requires few_outputs { outputs ≤ 16 }
        requires input_names { length input_names.items ≡ inputs }
        requires output_names { length output_names.items ≡ outputs }
        requires terms { All (Fits inputs outputs) terms.items }
        ensures inputs { result.inputs ≡ inputs }
        ensures outputs { result.outputs ≡ outputs }
        ensures input_names { result.input_names ≡ map string_bytes input_names.items }
        ensures output_names { result.output_names ≡ map string_bytes output_names.items }
        ensures products { result.products ≡ map (product_of inputs outputs) terms.items }
    {
        Cover {
            inputs,
            outputs,
            input_names,
            output_names,
            terms,
        }
    }

    /// The number of inputs, from 1 to 16.
    pub fn inputs(&self) -> u8
        ensures value { result ≡ self.now.inputs }
        ensures some { 1 ≤ result }
        ensures few { result ≤ 16 }
    {
        self.inputs
    }

    /// The number of outputs, from 1 to 16.
    pub fn outputs(&self) -> u8
        ensures value { result ≡ self.now.outputs }
        ensures some { 1 ≤ result }
        ensures few { result ≤ 16 }
    {
        self.outputs
    }

    /// The names of the inputs: entry x is that of input x. Names may repeat.
    pub fn input_names(&self) -> &[String]
        ensures names { map string_bytes result.now ≡ self.now.input_names }
        ensures count { length result.now ≡ self.now.inputs }
    {
        &self.input_names
    }

    /// The names of the outputs: entry o is that of output o. Names may repeat.
    pub fn output_names(&self) -> &[String]
        ensures names { map string_bytes result.now ≡ self.now.output_names }
        ensures count { length result.now ≡ self.now.outputs }
    {
        &self.output_names
    }

    /// The product terms, in the order of their lines in the PLA description.
    pub fn terms(&self) -> &[Term]
        ensures products { map (product_of self.now.inputs self.now.outputs) result.now ≡
            self.now.products }
        ensures fit { All (Fits self.now.inputs self.now.outputs) result.now }
    {
        &self.terms
    }
}
