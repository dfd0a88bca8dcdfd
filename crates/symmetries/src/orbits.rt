//! Orbits of sets under exchanges that change no function: one row of widths serves an orbit.

ghost use Rattle.std.specs.Prelude.{◌≡◌, ◌<◌, ◌≤◌, ◌^◌, ℕ, All, IfOk, IfSome, OnOk, length, slice_index};
ghost use Rattle.definitions.specs.Problems.{TruthTables};
ghost use Rattle.symmetries.specs.Orbits.{AreKept, IsAfter, KeepsWidths, TakesWidths};

use crate::exchanges::{Exchange, exchanges_of};
use order_model::{Mask, Pairs, Problem, VarIx};
use std::alloc::{AllocError, Global};
use std::marker::Model;

/// The image of a set under exchanges: `set` is the set to which they take it, and `variables[x]`
/// the variable to which they take x.
#[derive(Clone, Copy)]
pub struct Image {
    pub set: Mask,
    pub variables: [VarIx; 16],
}

fn own_variables() -> [VarIx; 16]
    ensures { (x : ℕ) → x < 16 → slice_index result x ≡ x }
{
    let mut variables = [0; 16];
    for x in 0..16u8 {
        variables[x as usize] = x;
    }
    variables
}

/// The partner of x, or 0 if there is none.
fn partner_of(partners: &[VarIx], x: VarIx) -> VarIx
    ensures { result ≡ slice_index partners.now x }
{
    match partners.get(usize::from(x)) {
        Some(partner) => *partner,
        None => 0,
    }
}

/// The partner of each of `variables`.
fn moved(variables: &[VarIx; 16], partners: &[VarIx]) -> [VarIx; 16]
    ensures { (x : ℕ) → x < 16 →
        slice_index result x ≡ slice_index partners.now (slice_index variables.now x) }
{
    let mut moved = [0; 16];
    for x in 0..16 {
        moved[x] = partner_of(partners, variables[x]);
    }
    moved
}

impl Image {
    /// The image of `set` under no exchange.
    pub(crate) fn of(set: Mask) -> Image
        ensures set { result.set ≡ set }
        ensures own { (x : ℕ) → x < 16 → slice_index result.variables x ≡ x }
        ensures widths { (p : TruthTables) → p.inputs ≤ 16 → set < 2 ^ p.inputs →
            KeepsWidths p set result.set result.variables }
    {
        Image {
            set,
            variables: own_variables(),
        }
    }

    /// `exchange`, followed by this image: the image of T, if this image is that of S and
    /// `exchange` takes T to S. A variable that `exchange` lacks goes where 0 goes.
    fn through(&self, exchange: &Exchange) -> Image
        ensures set { result.set ≡ self.now.set }
        ensures each { (x : ℕ) → x < 16 →
            slice_index result.variables x ≡ slice_index self.now.variables
            (slice_index exchange.now.partners x) }
    {
        let mut variables = [0; 16];
        for x in 0..16u8 {
            let partner = partner_of(exchange.partners(), x);
            variables[x as usize] = partner_of(&self.variables, partner);
        }
        Image {
            set: self.set,
            variables,
        }
    }

    /// This image, followed by `exchange`; an entry of `variables` without a partner becomes 0.
    pub(crate) fn after(self, exchange: &Exchange) -> Image
        ensures { self.set < length exchange.now.images →
            IsAfter exchange.now self.set self.variables result.set result.variables }
    {
        let Some(set) = exchange.images().get(usize::from(self.set)) else {
            return self;
        };
        Image {
            set: *set,
            variables: moved(&self.variables, exchange.partners()),
        }
    }
}

/// What was reached by exchanges, orbit by orbit.
#[derive(Drop)]
struct Reached {
    /// The sets of the present orbit, in the order in which they were reached.
    sets: Vec<Mask>,
    /// `seen[m]`: whether the set with the mask m was seen, in the present orbit or one before.
    seen: Vec<bool>,
}

impl Reached {
    /// Nothing is reached.
    fn none(alloc: Global, inputs: u8) -> Result<Reached, AllocError>
        requires { inputs ≤ 16 }
    {
        Ok(Reached {
            sets: Vec::new(alloc),
            seen: vec![in alloc; false; 1usize << inputs]?,
        })
    }

    /// Marks `set` as seen, and returns whether it wasn't seen before.
    fn see(&mut self, set: Mask) -> bool {
        match self.seen.get_mut(usize::from(set)) {
            Some(seen) if !*seen => {
                *seen = true;
                true
            }
            _ => false,
        }
    }
}

/// The images of all sets under no exchange.
fn own_images(alloc: Global, inputs: u8) -> Result<Vec<Image>, AllocError>
    requires { inputs ≤ 16 }
    ensures { (p : TruthTables) → p.inputs ≤ 16 →
        IfOk result (λ v. AreKept p v.items) }
{
    let mut images = Vec::with_capacity(alloc, 1usize << inputs)?;
    for set in 0..1usize << inputs {
        images.push(Image::of(set as Mask))?;
    }
    Ok(images)
}

/// The orbits of a problem's sets under exchanges that change no function. Each set is taken to the
/// first of its orbit: the one with the fewest high variables (from 8 on), and of these with the
/// smallest mask.
#[derive(Drop)]
pub struct Orbits<'a> {
    problem: &'a Problem,
    /// The exchanges that were found. The number of one is its index.
    exchanges: Vec<Exchange>,
    /// Where exchanges take each set: to the first of its orbit.
    images: Vec<Image>,
}

impl<'a> Model for Orbits<'a> {
    ghost use Rattle.std.specs.Prelude.{All};
    ghost use Rattle.definitions.specs.Problems.{TruthTables};
    ghost use Rattle.symmetries.specs.Orbits.{AreKept, IsExchangeOf};

    ghost Value = { TruthTables };

    ghost view = { λ o. o.problem.now };

    ghost invariant = { λ o. All (IsExchangeOf o.problem.now) o.exchanges.items
        × AreKept o.problem.now o.images.items };
}

impl<'a> Orbits<'a> {
    /// The orbits of the sets that are lawful by `pairs`, under exchanges that change no function
    /// of `problem`. A set that isn't lawful is its own image. None if no exchange is found.
    pub fn of(
        alloc: Global,
        problem: &'a Problem,
        pairs: &Pairs,
    ) -> Result<Option<Orbits<'a>>, AllocError>
        ensures { IfOk result (λ o. IfSome o (λ orbits. orbits ≡ problem.now)) }
    {
        prove!(problem.inputs() <= 16);
        let exchanges = exchanges_of(alloc, problem, pairs)?;
        if exchanges.is_empty() {
            return Ok(None);
        }
        let mut orbits = Orbits {
            problem,
            exchanges,
            images: own_images(alloc, problem.inputs())?,
        };
        orbits.reach_all(alloc, pairs)?;
        Ok(Some(orbits))
    }

    /// The set to which the exchange with index `number` takes `set`.
    fn image(&self, set: Mask, number: usize) -> Option<Mask> {
        let exchange = self.exchanges.get(number)?;
        let image = exchange.images().get(usize::from(set))?;
        Some(*image)
    }

    /// Sets the image of the set T to which the exchange with index `number` takes `set`: the
    /// exchange, which takes T back, followed by the image of `set`.
    fn link(&mut self, set: Mask, number: usize)
        ensures { self.new ≡ self.old }
    {
        prove!(self.problem.inputs() <= 16);
        let Some(exchange) = self.exchanges.get(number) else {
            return;
        };
        let Some(place) = exchange.images().get(usize::from(set)) else {
            return;
        };
        let Some(image) = self.images.get(usize::from(set)) else {
            return;
        };
        let through = image.through(exchange);
        let place = usize::from(*place);
        if place < self.images.len() {
            self.images[place] = through;
        }
    }

    /// Links each set T to which one of the exchanges takes `set`, if T is lawful by `pairs` and
    /// was not seen before, and appends it to `reached.sets`.
    fn step_from(
        &mut self,
        set: Mask,
        pairs: &Pairs,
        reached: &mut Reached,
    ) -> Result<(), AllocError>
        ensures { self.new ≡ self.old }
    {
        for number in 0..self.exchanges.len() {
            if let Some(image) = self.image(set, number)
                && reached.see(image)
                && pairs.lawful(image)
            {
                self.link(set, number);
                reached.sets.push(image)?;
            }
        }
        Ok(())
    }

    /// Follows the exchanges from `first` to all sets that are lawful by `pairs` and were not seen
    /// before. Each gets as its image the exchanges that take it back to `first`, followed by the
    /// image of `first`.
    fn reach_from(
        &mut self,
        first: Mask,
        pairs: &Pairs,
        reached: &mut Reached,
    ) -> Result<(), AllocError>
        ensures { self.new ≡ self.old }
    {
        reached.sets.clear();
        reached.sets.push(first)?;
        for place in 0..self.images.len() {
            let Some(set) = reached.sets.get(place) else {
                break;
            };
            self.step_from(*set, pairs, reached)?;
        }
        Ok(())
    }

    /// Sets the image of each set that is lawful by `pairs` to the first set of its orbit.
    fn reach_all(&mut self, alloc: Global, pairs: &Pairs) -> Result<(), AllocError>
        ensures { self.new ≡ self.old }
    {
        prove!(self.problem.inputs() <= 16);
        let inputs = self.problem.inputs();
        let mut reached = Reached::none(alloc, inputs)?;
        for size in 0..9 {
            for number in 0..1usize << inputs {
                let set = number as Mask;
                if (set >> 8).count_ones() == size && reached.see(set) && pairs.lawful(set) {
                    self.reach_from(set, pairs, &mut reached)?;
                }
            }
        }
        Ok(())
    }

    /// Whether `set` is the first set of its orbit; true also if it isn't lawful.
    pub fn is_first(&self, set: Mask) -> bool {
        match self.images.get(usize::from(set)) {
            Some(image) => image.set == set,
            None => true,
        }
    }

    /// Where exchanges take `set`: to the first set of its orbit.
    pub fn first_of(&self, set: Mask) -> Image
        requires { set < 2 ^ self.now.inputs }
        ensures { KeepsWidths self.now set result.set result.variables }
    {
        prove!(self.problem.inputs() <= 16);
        self.first_from(Image::of(set))
    }

    /// The image `from`, followed by the exchanges that take its set to the first set of its orbit.
    pub fn first_from(&self, from: Image) -> Image
        ensures { (p : TruthTables) (S : ℕ) → p.inputs ≤ 16 →
            TakesWidths p self.now S from.set from.variables →
            TakesWidths p self.now S result.set result.variables }
    {
        match self.images.get(usize::from(from.set)) {
            Some(image) => Image {
                set: image.set,
                variables: moved(&from.variables, &image.variables),
            },
            None => from,
        }
    }
}
