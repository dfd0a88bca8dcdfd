//! Fewer edges to test, of which one fails if any edge does. If exchanges of variables change no
//! function, value or edge to test, a set and its image have edges of equal widths. So in each
//! orbit, the sets that such exchanges take to one another, only the edges into the greatest set
//! need a test. `fewer[m]` has the variables of the edges still to be tested into the set with the
//! mask m.

ghost use Rattle.std.specs.Prelude.{◌≡◌, ◌<◌, ◌^◌, ◌++◌, ◌⊎◌, ℕ, [], ◌∷◌, IfOk, IfSome, IsTrue, OnOk, length, slice_index};
ghost use Rattle.std.specs.List.{All};
ghost use Rattle.edge_walks.specs.FewerEdges.{AreKept};
ghost use Rattle.edge_walks.specs.Walks.{AreAllGuides, AreEnough, LeadsOnIn, LeadsToFirst};

use crate::position::Edges;
use order_model::{Mask, Pairs};
use std::alloc::{AllocError, Global};
use symmetries::{Exchange, exchanges_of};

/// Whether an exchange of variables, which takes the set m to `images[m]`, changes neither the
/// values nor the edges to test.
fn keeps_edges(edges: Edges, images: &[Mask]) -> bool
    requires long { length images.now ≡ 2 ^ edges.problem.now.inputs }
    requires inside { (S : ℕ) → S < length images.now →
        slice_index images.now S < length images.now }
    ensures { IsTrue result →
        AreKept edges.entry.problem.now.inputs edges.entry.values.now edges.entry.judged.now images.now }
{
    for set in 0..images.len() {
        let image = images[set] as usize;
        let judged = edges.judged[set] as usize;
        if edges.values[image] != edges.values[set] || judged >= images.len() {
            return false;
        }
        if edges.judged[image] != images[judged] {
            return false;
        }
    }
    true
}

/// Exchanges of variables that change no function, value or edge to test. Some may be missed.
fn guides_of(alloc: Global, edges: Edges) -> Result<Vec<Exchange>, AllocError>
    ensures { IfOk result (λ v. AreAllGuides edges.entry v.items) }
{
    let mut exchanges = exchanges_of(alloc, edges.problem, &Pairs::none(edges.problem.inputs()))?;
    let mut guides = Vec::new(alloc);
    while let Some(exchange) = exchanges.pop() {
        if keeps_edges(edges, exchange.images()) {
            guides.push(exchange)?;
        }
    }
    Ok(guides)
}

/// Whether some exchange in `guides` takes `set` to a greater mask.
fn has_greater_image(edges: Edges, guides: &[Exchange], set: Mask) -> bool
    requires guides { AreAllGuides edges guides.now }
    requires set { set < 2 ^ edges.problem.now.inputs }
    ensures { IsTrue result → LeadsOnIn edges.entry set }
{
    for guide in guides {
        if guide.images()[set as usize] > set {
            return true;
        }
    }
    false
}

/// Makes `fewer[m]` 0 if an exchange in `guides` takes the set m to a greater mask.
fn leave_out(edges: Edges, guides: &[Exchange], fewer: &mut Vec<u16>)
    requires guides { AreAllGuides edges guides.now }
    requires fewer { AreEnough edges fewer.old.items }
    ensures { AreEnough edges.entry fewer.new.items }
{
    for set in 0..edges.judged.len() {
        if fewer[set] != 0 && has_greater_image(edges, guides, set as Mask) {
            fewer[set] = 0;
        }
    }
}

/// The sets that exchanges reach, orbit by orbit.
#[derive(Drop)]
struct ReachedSets {
    /// Whether the set m was reached, in the present orbit or an earlier one.
    seen: Vec<bool>,
    /// The sets of the present orbit that were reached.
    sets: Vec<Mask>,
}

impl ReachedSets {
    /// Appends `set` to the present orbit if it wasn't reached before. If memory is refused, it is
    /// marked but not appended.
    fn add(&mut self, set: Mask) -> Result<(), AllocError>
        ensures { OnOk result
            ((self.new.sets.items ≡ self.old.sets.items)
            ⊎ (self.new.sets.items ≡ self.old.sets.items ++ set ∷ [])) }
    {
        match self.seen.get_mut(usize::from(set)) {
            Some(seen) if !*seen => {
                *seen = true;
                self.sets.push(set)?;
            }
            _ => {}
        }
        Ok(())
    }
}

/// Adds to `reached` the images of `set`, of the orbit of `first`, and makes `fewer[m]` 0 for those
/// below `first`. If memory is refused, only some images are taken.
fn step_from(
    edges: Edges,
    guides: &[Exchange],
    first: Mask,
    set: Mask,
    reached: &mut ReachedSets,
    fewer: &mut Vec<u16>,
) -> Result<(), AllocError>
    requires guides { AreAllGuides edges guides.now }
    requires set { LeadsToFirst edges first set }
    requires reached { All (LeadsToFirst edges first) reached.old.sets.items }
    requires fewer { AreEnough edges fewer.old.items }
    ensures reached { OnOk result (All (LeadsToFirst edges.entry first) reached.new.sets.items) }
    ensures fewer { OnOk result (AreEnough edges.entry fewer.new.items) }
{
    for guide in guides {
        let image = guide.images()[set as usize];
        if image < first {
            fewer[image as usize] = 0;
        }
        reached.add(image)?;
    }
    Ok(())
}

/// Makes `fewer[m]` 0 for each mask m below `first` in the orbit of `first`, which becomes
/// `reached.sets`; nothing, if `first` was reached before. If memory is refused, only a part of
/// this is done.
fn leave_out_orbit(
    edges: Edges,
    guides: &[Exchange],
    first: Mask,
    reached: &mut ReachedSets,
    fewer: &mut Vec<u16>,
) -> Result<(), AllocError>
    requires guides { AreAllGuides edges guides.now }
    requires first { first < 2 ^ edges.problem.now.inputs }
    requires fewer { AreEnough edges fewer.old.items }
    ensures { OnOk result (AreEnough edges.entry fewer.new.items) }
{
    reached.sets.clear();
    reached.add(first)?;
    for place in 0..edges.judged.len() {
        if place >= reached.sets.len() {
            break;
        }
        let set = reached.sets[place];
        step_from(edges, guides, first, set, reached, fewer)?;
    }
    Ok(())
}

/// Makes `fewer[m]` 0 if the set m isn't the greatest of its orbit. If memory is refused, only some
/// sets are done.
fn leave_out_orbits(
    alloc: Global,
    edges: Edges,
    guides: &[Exchange],
    fewer: &mut Vec<u16>,
) -> Result<(), AllocError>
    requires guides { AreAllGuides edges guides.now }
    requires fewer { AreEnough edges fewer.old.items }
    ensures { OnOk result (AreEnough edges.entry fewer.new.items) }
{
    let mut reached = ReachedSets {
        seen: vec![in alloc; false; edges.judged.len()]?,
        sets: Vec::new(alloc),
    };
    for set in (0..edges.judged.len()).rev() {
        if fewer[set] != 0 {
            leave_out_orbit(edges, guides, set as Mask, &mut reached, fewer)?;
        }
    }
    Ok(())
}

/// The number of sets into which some edge is to be tested.
pub(crate) fn count_judged(judged: &[Mask]) -> usize {
    let mut count = 0usize;
    for edges in judged {
        count = count.saturating_add(usize::from(*edges != 0));
    }
    count
}

/// This many steps along orbits take about as long as judging the edges into one set.
const STEPS_OF_A_SET: usize = 512;

/// Some of the edges to test, of which one fails if any edge does: those into the greatest set of
/// each orbit, and others if following its exchanges takes at least `STEPS_OF_A_SET` steps for each
/// set with edges left. None if no exchange is found.
pub(crate) fn fewer_edges(alloc: Global, edges: Edges) -> Result<Option<Vec<u16>>, AllocError>
    ensures { IfOk result (λ o. IfSome o (λ v. AreEnough edges.entry v.items)) }
{
    let guides = guides_of(alloc, edges)?;
    if guides.is_empty() {
        return Ok(None);
    }
    let mut fewer = edges.judged.to_vec(alloc)?;
    leave_out(edges, &guides, &mut fewer);
    let steps = guides.len().saturating_mul(edges.judged.len());
    if guides.len() > 1 && count_judged(&fewer).saturating_mul(STEPS_OF_A_SET) > steps {
        leave_out_orbits(alloc, edges, &guides, &mut fewer)?;
    }
    Ok(Some(fewer))
}
