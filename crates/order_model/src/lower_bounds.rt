ghost use Rattle.std.specs.Prelude.{◌≡◌, ◌==◌, ◌+◌, ◌^◌, ◌<◌, ◌≤◌, ℕ, List, max, not, length, map, slice_index, take, bit_or};
ghost use Rattle.std.specs.Int.{bit_at};
ghost use Rattle.std.specs.List.{filter, fold};
ghost use Rattle.definitions.specs.Functions.{Function};
ghost use Rattle.definitions.specs.Orders.{members};
ghost use Rattle.definitions.specs.Problems.{functions, outputs_of};
ghost use Rattle.definitions.specs.Widths.{essential_mask, essentials_outside};
ghost use Rattle.definitions.specs.LowerBounds.{support};

use definitions::{LowerBound, Mask, Problem, VarIx, WidthRow, contains, next_member};
use std::marker::Model;

/// Lower bounds, by one rule, on the nodes above each set of a problem's variables.
#[derive(Drop)]
pub struct LowerBounds<'a> {
    problem: &'a Problem,
    lower_bound: LowerBound,
    /// The variables on which some function depends.
    essential: Mask,
    /// Entry x: how many functions depend on variable x.
    dependents: [u32; 16],
    /// Entry x: the variables on which some function depends that doesn't depend on x.
    others: [Mask; 16],
}

impl<'a> Model for LowerBounds<'a> {
    ghost use Rattle.definitions.specs.LowerBounds.{LowerBoundsOf, lower_bounds_with, HoldsLowerBounds};

    ghost Value = { LowerBoundsOf };

    ghost view = { λ r. lower_bounds_with r.problem.now r.lower_bound };

    ghost invariant = { λ r. HoldsLowerBounds r.problem.now r.essential r.dependents r.others };
}

/// The variables on which each function depends. Entries past the last function are empty.
fn supports(problem: &Problem) -> [Mask; 16]
    ensures { take (outputs_of problem.now) result ≡ map (support problem.now.inputs)
        (functions problem.now) }
{
    let mut found = [0; 16];
    for output in 0..problem.outputs() {
        found[output as usize] = problem.support(output);
    }
    found
}

fn count_with(sets: &[Mask], x: VarIx) -> u32
    requires few { length sets.now ≤ 16 }
    requires variable { x < 16 }
    ensures { result ≡ length (filter (λ s. bit_at s x == 1) sets.now) }
{
    let mut count = 0;
    for set in sets {
        if contains(*set, x) {
            count += 1;
        }
    }
    count
}

/// The variables in some of `sets`.
fn union_of(sets: &[Mask]) -> Mask
    ensures { result ≡ fold bit_or 0 sets.now }
{
    let mut union = 0;
    for set in sets {
        union |= *set;
    }
    union
}

fn union_without(sets: &[Mask], x: VarIx) -> Mask
    requires { x < 16 }
    ensures { result ≡ fold bit_or 0 (filter (λ s. not (bit_at s x == 1)) sets.now) }
{
    let mut union = 0;
    for set in sets {
        if !contains(*set, x) {
            union |= *set;
        }
    }
    union
}

fn count_outside(set: Mask, mask: Mask) -> u64
    ensures few { result ≤ 16 }
    ensures exact { (n : ℕ) (F : List Function) → set ≡ essential_mask n F →
        result ≡ essentials_outside n F (members n mask) }
{
    u64::from((set & !mask).count_ones())
}

impl<'a> LowerBounds<'a> {
    ghost use Rattle.definitions.specs.Orders.{without};
    ghost use Rattle.definitions.specs.Widths.{width as width_of};
    ghost use Rattle.definitions.specs.LowerBounds.{lower_bounds_with, nodes_above, asked_by};
    ghost use Rattle.definitions.specs.LowerBounds.{AreMembersWidths};
    ghost use Rattle.definitions.specs.declared.limits.LowerBound.TheVariants.{Widths};

    /// The lower bounds of `problem`'s sets by the rule `lower_bound`.
    pub fn new(problem: &'a Problem, lower_bound: LowerBound) -> LowerBounds<'a>
        ensures { result ≡ lower_bounds_with problem.now lower_bound }
    {
        let found = supports(problem);
        let (sets, _) = found.split_at(problem.outputs() as usize);
        let mut dependents = [0; 16];
        let mut others = [0; 16];
        for x in 0..problem.inputs() {
            dependents[x as usize] = count_with(sets, x);
            others[x as usize] = union_without(sets, x);
        }
        LowerBounds {
            problem,
            lower_bound,
            essential: union_of(sets),
            dependents,
            others,
        }
    }

    /// The variables on which some function depends.
    pub fn essential(&self) -> Mask
        ensures { result ≡ essential_mask self.now.problem.inputs (functions self.now.problem) }
    {
        self.essential
    }

    /// The rule that gives the bounds.
    pub fn lower_bound(&self) -> LowerBound
        ensures { result ≡ self.now.lower_bound }
    {
        self.lower_bound
    }

    /// The lower bound on the nodes above the set `mask`. `widths` is read under the rule `Widths`
    /// alone: entry x is the width of the member x over the other members.
    pub fn above(&self, mask: Mask, widths: &WidthRow) -> u64
        requires { mask < 2 ^ self.now.problem.inputs }
        ensures few { result < 2 ^ 33 }
        ensures nodes { (self.now.lower_bound ≡ Widths →
            AreMembersWidths self.now.problem mask widths.now) →
            result ≡ nodes_above self.now.problem.inputs (functions self.now.problem) self.now.lower_bound
            (members self.now.problem.inputs mask) }
    {
        let outside = count_outside(self.essential, mask);
        match self.lower_bound {
            LowerBound::Variables => outside,
            LowerBound::Widths => self.most_asked(mask, widths, outside),
        }
    }

    /// The maximum of `least` and what the width of each member of `mask` requires.
    fn most_asked(&self, mask: Mask, widths: &WidthRow, least: u64) -> u64
        requires within { mask < 2 ^ self.now.problem.inputs }
        requires least { least < 2 ^ 33 }
        ensures few { result < 2 ^ 33 }
        ensures most { AreMembersWidths self.now.problem mask widths.now →
            result ≡ fold max least (map
            (asked_by self.now.problem.inputs (functions self.now.problem)
            (members self.now.problem.inputs mask)) (members self.now.problem.inputs mask)) }
    {
        let mut most = least;
        let mut from = 0;
        while let Some(x) = next_member(mask, from) {
            most = most.max(self.nodes_for_width(mask, x, widths[x as usize]));
            from = x + 1;
        }
        most
    }

    /// The nodes above the set `mask` that the width of its member x requires: `max(0, width - d) +
    /// e`, as `LowerBound::Widths` has them.
    fn nodes_for_width(&self, mask: Mask, x: VarIx, width: u32) -> u64
        requires { x < self.now.problem.inputs }
        ensures few { result < 2 ^ 33 }
        ensures nodes { width ≡ width_of self.now.problem.inputs (functions self.now.problem)
            (without x (members self.now.problem.inputs mask)) x →
            result ≡ asked_by self.now.problem.inputs (functions self.now.problem)
            (members self.now.problem.inputs mask) x }
    {
        let more = width.saturating_sub(self.dependents[x as usize]);
        u64::from(more) + count_outside(self.others[x as usize], mask)
    }
}
