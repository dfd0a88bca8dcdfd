//! Exchanges of variables under which no function changes.

ghost use Rattle.std.specs.Prelude.{◌≡◌, ◌<◌, ◌≤◌, ◌^◌, ℕ, All, IfOk, IfSome, OnOk, length, slice_index};
ghost use Rattle.symmetries.specs.Exchanges.{IsExchange};
ghost use Rattle.symmetries.specs.Images.{AreImages, TellValues};
ghost use Rattle.symmetries.specs.Orbits.{IsExchangeOf};

use crate::images::{are_alike, images_of, is_exchange};
use crate::marks::{Marks, quick_marks};
use crate::matching::partners_of;
use crate::points::values_by_point;
use order_model::{Mask, Pairs, Problem, VarIx, contains};
use std::alloc::{AllocError, Global};
use std::marker::Model;

/// An exchange of variables in pairs; a variable may be its own partner.
#[derive(Drop)]
pub struct Exchange {
    /// `partners[x]` is the partner of the variable x.
    partners: Vec<VarIx>,
    /// `images[m]` is the image of the set with the mask m.
    images: Vec<Mask>,
}

impl Model for Exchange {
    ghost use Rattle.symmetries.specs.Orbits.{ExchangeOf};

    ghost Value = { ExchangeOf };

    ghost view = { λ e. record { partners = e.partners.items; images = e.images.items } };
}

impl Exchange {
    ghost use Rattle.definitions.specs.Problems.{TruthTables};

    /// None if `partners` lists no exchange.
    pub(crate) fn of(
        alloc: Global,
        inputs: u8,
        partners: &[VarIx],
    ) -> Result<Option<Exchange>, AllocError>
        requires few { inputs ≤ 16 }
        ensures exchange { IfOk result (λ o. IfSome o (λ e. IsExchange inputs e.partners)) }
        ensures images { IfOk result (λ o. IfSome o (λ e. AreImages inputs e.partners e.images)) }
    {
        if !is_exchange(inputs, partners) {
            return Ok(None);
        }
        let images = images_of(alloc, inputs, partners)?;
        let partners = partners.to_vec(alloc)?;
        Ok(Some(Exchange { partners, images }))
    }

    /// None if `partners` lists no exchange, or some function changes under it. `points[p]` has the
    /// values of all functions at point p, as one number.
    fn if_alike(
        alloc: Global,
        inputs: u8,
        points: &[u16],
        partners: &[VarIx],
    ) -> Result<Option<Exchange>, AllocError>
        requires few { inputs ≤ 16 }
        requires long { length points.now ≡ 2 ^ inputs }
        ensures { (p : TruthTables) → p.inputs ≡ inputs → TellValues p points.now →
            IfOk result (λ o. IfSome o (IsExchangeOf p)) }
    {
        let Some(exchange) = Exchange::of(alloc, inputs, partners)? else {
            return Ok(None);
        };
        if !are_alike(points, exchange.images()) {
            return Ok(None);
        }
        Ok(Some(exchange))
    }

    /// Entry x is the partner of x.
    pub fn partners(&self) -> &[VarIx]
        ensures { result.now ≡ self.now.partners }
    {
        &self.partners
    }

    /// Entry m has the partners of the members of the set with the mask m.
    pub fn images(&self) -> &[Mask]
        ensures { result.now ≡ self.now.images }
    {
        &self.images
    }
}

/// Groups of variables, each with a representative. Two variables are in one group if found
/// exchanges, or pairs that orders must keep, lead from one to the other.
#[derive(Clone, Copy)]
struct Groups {
    /// `representative[x]` is the representative of the group of x.
    representative: [VarIx; 16],
}

impl Groups {
    /// The groups of variables that `pairs` connect, directly or through other variables.
    fn of(pairs: &Pairs) -> Groups {
        let mut groups = Groups {
            representative: [0, 1, 2, 3, 4, 5, 6, 7, 8, 9, 10, 11, 12, 13, 14, 15],
        };
        for a in 0..pairs.inputs() {
            let below = pairs.below(a);
            for b in 0..16 {
                if contains(below, b) {
                    groups.join(a, b);
                }
            }
        }
        groups
    }

    /// Unites the groups of x and y.
    fn join(&mut self, x: VarIx, y: VarIx)
        requires first { x < 16 }
        requires second { y < 16 }
    {
        let one = self.representative[x as usize];
        let other = self.representative[y as usize];
        for representative in &mut self.representative {
            if *representative == other {
                *representative = one;
            }
        }
    }

    /// Unites the group of each variable with that of its partner.
    fn join_partners(&mut self, partners: &[VarIx; 16]) {
        for x in 0..16 {
            let partner = partners[x as usize];
            if partner < 16 {
                self.join(x, partner);
            }
        }
    }

    fn are_apart(&self, x: VarIx, y: VarIx) -> bool
        requires first { x < 16 }
        requires second { y < 16 }
    {
        self.representative[x as usize] != self.representative[y as usize]
    }

    /// Whether two variables that are in different groups have equal marks.
    fn have_equal_marks(&self, inputs: u8, marks: &[u32; 16]) -> bool
        requires { inputs ≤ 16 }
    {
        for x in 0..inputs {
            for y in x + 1..inputs {
                if marks[x as usize] == marks[y as usize] && self.are_apart(x, y) {
                    return true;
                }
            }
        }
        false
    }
}

/// How many exchanges that change a function are tried before the search for exchanges ends.
const MOST_FAILURES: u8 = 8;

/// A search for exchanges under which no function of `problem` changes.
#[derive(Drop)]
struct Search<'a> {
    problem: &'a Problem,
    /// The values of all functions at each point, as one number.
    points: Vec<u16>,
    marks: Marks,
    /// The groups of variables so far. No exchange is sought of two variables in one group.
    groups: Groups,
    /// How many exchanges were tried that change a function.
    failures: u8,
    ghost long: { length points.items ≡ 2 ^ problem.now.inputs },
    ghost labels: { TellValues problem.now points.items },
}

impl<'a> Search<'a> {
    fn new(alloc: Global, problem: &'a Problem, groups: Groups) -> Result<Search<'a>, AllocError>
        ensures { IfOk result (λ s. s.problem.now ≡ problem.now) }
    {
        let points = values_by_point(alloc, problem)?;
        let marks = Marks::of(alloc, problem.inputs(), &points)?;
        Ok(Search {
            problem,
            points,
            marks,
            groups,
            failures: 0,
        })
    }

    /// Looks for an exchange that changes no function and has x and y as partners: guesses at most
    /// one from marks, and tests it. If it changes no function, unites the group of each variable
    /// with that of its partner; else counts a failure. None without a test if x and y are in one
    /// group, after `MOST_FAILURES` failures, or if there is no guess.
    fn exchange_of(
        &mut self,
        alloc: Global,
        x: VarIx,
        y: VarIx,
    ) -> Result<Option<Exchange>, AllocError>
        requires first { x < 16 }
        requires second { y < 16 }
        ensures problem { self.new.problem.now ≡ self.old.problem.now }
        ensures exchange { IfOk result (λ o. IfSome o (IsExchangeOf self.old.problem.now)) }
    {
        let inputs = self.problem.inputs();
        if !self.groups.are_apart(x, y) || self.failures >= MOST_FAILURES {
            return Ok(None);
        }
        let Some(partners) = partners_of(&self.marks, inputs, x, y) else {
            return Ok(None);
        };
        let own = &partners[..usize::from(inputs)];
        let exchange = Exchange::if_alike(alloc, inputs, &self.points, own)?;
        if exchange.is_some() {
            self.groups.join_partners(&partners);
        } else {
            self.failures += 1;
        }
        Ok(exchange)
    }
}

/// Exchanges of `problem`'s variables under which no function changes, at most n - 1 for n
/// variables. Each variable is tried as the partner of each smaller one, the nearest first, unless
/// `pairs`, or exchanges found before, connect the two. Some may be missed: the search ends after
/// `MOST_FAILURES` tests that failed.
pub fn exchanges_of(
    alloc: Global,
    problem: &Problem,
    pairs: &Pairs,
) -> Result<Vec<Exchange>, AllocError>
    ensures { IfOk result (λ v. All (IsExchangeOf problem.now) v.items) }
{
    let inputs = problem.inputs();
    let groups = Groups::of(pairs);
    let mut found = Vec::new(alloc);
    if !groups.have_equal_marks(inputs, &quick_marks(problem)) {
        return Ok(found);
    }
    let mut search = Search::new(alloc, problem, groups)?;
    for x in 0..inputs {
        for between in 0..x {
            if let Some(exchange) = search.exchange_of(alloc, x - 1 - between, x)? {
                found.push(exchange)?;
            }
        }
    }
    Ok(found)
}
