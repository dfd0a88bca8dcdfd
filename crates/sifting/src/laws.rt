//! Laws on the truth tables of a diagram's functions, each the contract of a function that does
//! nothing.

ghost use Rattle.std.specs.Prelude.{◌≡◌, ℕ, ◌<◌, ◌≤◌, ◌^◌, List, length, map};
ghost use Rattle.definitions.specs.Functions.{Function, table};
ghost use Rattle.definitions.specs.Problems.{functions, outputs_of, table_at};
ghost use Rattle.definitions.specs.Diagrams.{Represents};
ghost use Rattle.definitions.specs.OrderedGraphs.{OrderedGraph};
ghost use Rattle.sifting.specs.Managed.{truth_tables_of};

use order_model::Problem;

/// Law: a diagram that represents functions has a root for each, with the function's truth table.
pub fn diagrams_have_their_functions_tables()
    ensures roots { (n : ℕ) (F : List Function) (order : List ℕ) (d : OrderedGraph) →
        Represents n F order d.graph → length d.graph.roots ≡ length F }
    ensures tables { (n : ℕ) (F : List Function) (order : List ℕ) (d : OrderedGraph) →
        length d.order ≡ n → Represents n F order d.graph →
        truth_tables_of d ≡ record { inputs = n; tables = map (table n) F } }
{}

/// Law: a diagram of a problem's functions has at most 16 roots, with the problem's truth tables.
pub fn diagrams_have_their_problems_tables(problem: &Problem)
    ensures roots { (order : List ℕ) (d : OrderedGraph) →
        Represents problem.now.inputs (functions problem.now) order d.graph →
        length d.graph.roots ≤ 16 }
    ensures tables { (order : List ℕ) (d : OrderedGraph) → length d.order ≡ problem.now.inputs →
        Represents problem.now.inputs (functions problem.now) order d.graph →
        truth_tables_of d ≡ problem.now }
{
    prove!(problem.outputs() <= 16);
    tables_have_all_points(problem);
}

/// Law: each truth table of a problem of n variables has 2^n values.
fn tables_have_all_points(problem: &Problem)
    ensures { (j : ℕ) → j < outputs_of problem.now →
        length (table_at problem.now j) ≡ 2 ^ problem.now.inputs }
{
    for output in 0..problem.outputs() {
        let _words = problem.words(output);
    }
}
