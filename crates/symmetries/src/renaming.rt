//! Renamings: problems with variables exchanged in pairs, so that chosen variables are the lowest.

ghost use Rattle.std.specs.Prelude.{◌≡◌, ◌≢◌, ◌<◌, ◌≤◌, ◌^◌, ℕ, IfOk, IfSome, false, length, slice_index};
ghost use Rattle.definitions.specs.Problems.{TruthTables, outputs_of, table_at, value_at};
ghost use Rattle.symmetries.specs.Orbits.{TakesWidths};
ghost use Rattle.symmetries.specs.Renamings.{IsRenamed, renamed_of};

use crate::exchanges::Exchange;
use crate::orbits::Image;
use order_model::{Mask, Pairs, Problem, VarIx, contains};
use std::alloc::{AllocError, Global};
use std::marker::Model;

/// A problem with exchanged variables, and the exchange.
#[derive(Drop)]
struct Renamed {
    problem: Problem,
    exchange: Exchange,
}

impl Model for Renamed {
    ghost use Rattle.symmetries.specs.Renamings.{RenamedOf};

    ghost Value = { RenamedOf };

    ghost view = { λ r. record { problem = r.problem; exchange = r.exchange } };
}

/// Function `output` of `renamed` gets at each point p the value of `problem` at `images[p]`.
fn set_values(renamed: &mut Problem, problem: &Problem, images: &[Mask], output: u8)
    requires inputs { renamed.old.inputs ≡ problem.now.inputs }
    requires outputs { outputs_of renamed.old ≡ outputs_of problem.now }
    requires output { output < outputs_of problem.now }
    requires table { length (table_at renamed.old output) ≡ 2 ^ problem.now.inputs }
    requires clear { (k : ℕ) → value_at renamed.old output k ≡ false }
    requires long { length images.now ≡ 2 ^ problem.now.inputs }
    requires inside { (k : ℕ) → k < 2 ^ problem.now.inputs →
        slice_index images.now k < 2 ^ problem.now.inputs }
    ensures inputs { renamed.new.inputs ≡ renamed.old.inputs }
    ensures outputs { outputs_of renamed.new ≡ outputs_of renamed.old }
    ensures values { (k : ℕ) → k < 2 ^ problem.now.inputs →
        value_at renamed.new output k ≡ value_at problem.now output (slice_index images.now k) }
    ensures others { (j : ℕ) → j ≢ output → table_at renamed.new j ≡ table_at renamed.old j }
{
    prove!(problem.inputs() <= 16);
    for point in 0..images.len() {
        if problem.value(output, u32::from(images[point])) {
            renamed.set(output, point as u32);
        }
    }
}

/// The problem that has at each point p the values of `problem` at `images[p]`.
fn renamed_problem(alloc: Global, problem: &Problem, images: &[Mask]) -> Result<Problem, AllocError>
    requires long { length images.now ≡ 2 ^ problem.now.inputs }
    requires inside { (k : ℕ) → k < 2 ^ problem.now.inputs →
        slice_index images.now k < 2 ^ problem.now.inputs }
    ensures inputs { IfOk result (λ r. r.inputs ≡ problem.now.inputs) }
    ensures outputs { IfOk result (λ r. outputs_of r ≡ outputs_of problem.now) }
    ensures values { IfOk result (λ r. (j k : ℕ) → j < outputs_of problem.now →
        k < 2 ^ problem.now.inputs →
        value_at r j k ≡ value_at problem.now j (slice_index images.now k)) }
{
    let mut renamed = Problem::new(alloc, problem.inputs(), problem.outputs())?;
    for output in 0..problem.outputs() {
        set_values(&mut renamed, problem, images, output);
    }
    Ok(renamed)
}

/// The partner of each variable in an exchange by which the k members of `set` become the k lowest
/// variables: each member from k on changes places with a variable below k outside the set.
fn partners_to_lower(inputs: u8, set: Mask) -> [VarIx; 16]
    requires { inputs ≤ 16 }
{
    let mut partners = [0, 1, 2, 3, 4, 5, 6, 7, 8, 9, 10, 11, 12, 13, 14, 15];
    let size = set.count_ones() as u8;
    let mut placed = set;
    for high in size..inputs {
        for low in 0..size {
            if contains(set, high) && !contains(placed, low) {
                partners[low as usize] = high;
                partners[high as usize] = low;
                placed |= 1 << low;
                break;
            }
        }
    }
    partners
}

impl Renamed {
    /// `problem` with the members of `set` as its lowest variables; None if it lacks one of them.
    fn of(alloc: Global, problem: &Problem, set: Mask) -> Result<Option<Renamed>, AllocError>
        ensures { IfOk result (λ r. IfSome r (IsRenamed problem.now)) }
    {
        let inputs = problem.inputs();
        let partners = partners_to_lower(inputs, set);
        let Some(exchange) = Exchange::of(alloc, inputs, &partners[..inputs as usize])? else {
            return Ok(None);
        };
        let renamed = renamed_problem(alloc, problem, exchange.images())?;
        Ok(Some(Renamed {
            problem: renamed,
            exchange,
        }))
    }

    /// The set of the partners of the members of `set`, and the partner of each variable.
    fn image_of(&self, set: Mask) -> Image
        ensures { (p : TruthTables) → p.inputs ≤ 16 → IsRenamed p self.now → set < 2 ^ p.inputs →
            TakesWidths p self.now.problem set result.set result.variables }
    {
        Image::of(set).after(&self.exchange)
    }
}

/// A problem, and the problem with exchanged variables, if any were exchanged. Which variables are
/// the lowest affects only how large class tables are.
#[derive(Drop)]
pub struct Renaming<'a> {
    problem: &'a Problem,
    renamed: Option<Renamed>,
}

impl<'a> Model for Renaming<'a> {
    ghost use Rattle.std.specs.Prelude.{IfSome};
    ghost use Rattle.symmetries.specs.Renamings.{IsRenamed, RenamingOf};

    ghost Value = { RenamingOf };

    ghost view = { λ r. record { problem = r.problem.now; renamed = r.renamed } };

    ghost invariant = { λ r. IfSome r.renamed (IsRenamed r.problem.now) };
}

impl<'a> Renaming<'a> {
    pub fn none(problem: &'a Problem) -> Renaming<'a>
        ensures problem { result.problem ≡ problem.now }
        ensures own { renamed_of result.problem result.renamed ≡ problem.now }
    {
        Renaming {
            problem,
            renamed: None,
        }
    }

    /// The renaming of `problem` by which the k members of `set` become the k lowest variables.
    pub fn to_lowest(
        alloc: Global,
        problem: &'a Problem,
        set: Mask,
    ) -> Result<Renaming<'a>, AllocError>
        ensures { IfOk result (λ r. r.problem ≡ problem.now) }
    {
        Ok(Renaming {
            problem,
            renamed: Renamed::of(alloc, problem, set)?,
        })
    }

    pub fn problem(&self) -> &'a Problem
        ensures { result.now ≡ self.now.problem }
    {
        self.problem
    }

    /// Whether variables are exchanged, maybe each with itself.
    pub fn is_renamed(&self) -> bool {
        self.renamed.is_some()
    }

    pub fn renamed(&self) -> &Problem
        ensures { result.now ≡ renamed_of self.now.problem self.now.renamed }
    {
        match &self.renamed {
            Some(renamed) => &renamed.problem,
            None => self.problem,
        }
    }

    /// Where the renaming takes `set` and each variable.
    pub fn image_of(&self, set: Mask) -> Image
        requires { set < 2 ^ self.now.problem.inputs }
        ensures { TakesWidths self.now.problem (renamed_of self.now.problem self.now.renamed) set
            result.set result.variables }
    {
        prove!(self.problem.inputs() <= 16);
        match &self.renamed {
            Some(renamed) => renamed.image_of(set),
            None => Image::of(set),
        }
    }

    /// `pairs` with each variable renamed. Pairs with a variable that the problem lacks are left
    /// out.
    pub fn pairs(&self, alloc: Global, pairs: &Pairs) -> Result<Pairs, AllocError> {
        let Some(renamed) = &self.renamed else {
            return Ok(pairs.copied());
        };
        let mut found = Vec::new(alloc);
        let partners = renamed.exchange.partners();
        for a in 0..pairs.inputs() {
            let below = pairs.below(a);
            for b in 0..pairs.inputs() {
                if contains(below, b)
                    && let Some(first) = partners.get(usize::from(a))
                    && let Some(second) = partners.get(usize::from(b))
                {
                    found.push((*first, *second))?;
                }
            }
        }
        match Pairs::of(&found, pairs.inputs()) {
            Ok(pairs) => Ok(pairs),
            Err(_) => Ok(Pairs::none(pairs.inputs())),
        }
    }
}
