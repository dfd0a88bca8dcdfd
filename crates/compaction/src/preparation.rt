//! What a search begins with, and adds to from layer to layer. It does not depend on the bound.
//! Pairs decide only of which sets rows are found; the rows depend on the functions alone.

ghost use Rattle.std.specs.Prelude.{◌≡◌, ◌<◌, ◌%◌, ◌^◌, [], All, IfOk, IfSome};
ghost use Rattle.symmetries.specs.Renamings.{renamed_of};
ghost use Rattle.compaction.specs.Preparations.{IsImageOf};
ghost use Rattle.compaction.specs.Rows.{HoldsRows};

use crate::found_rows::Turns;
use crate::high_walk::ByteRows;
use crate::request::Wanted;
use crate::requests::Requests;
use crate::shared_tables::SharedTables;
use order_model::{Mask, Pairs, Problem, Workers};
use std::alloc::{AllocError, Global};
use std::marker::Model;
use std::thread::Threads;
use symmetries::{Image, Orbits, Renaming};

/// For each low byte the place of the last entry with it in a list of rows.
type Places = [Option<usize>; 256];

/// The places of low bytes in `found`.
fn places_of(found: &[ByteRows]) -> Places {
    let mut places = [None; 256];
    for (place, byte) in found.iter().enumerate() {
        places[usize::from(byte.request.low)] = Some(place);
    }
    places
}

/// What serves all layers of a search: the renamed problem, its class tables that walks share, the
/// orbits of its sets, and the rows of widths that were found so far.
#[derive(Drop)]
pub struct Preparation<'a> {
    /// The problem, and the renaming of its variables that makes class tables small.
    renaming: &'a Renaming<'a>,
    /// The class tables that all walks share, of the renamed problem.
    shared: SharedTables<'a>,
    /// The orbits of the renamed problem's sets; None if no variables may be exchanged.
    orbits: Option<Orbits<'a>>,
    /// The pairs that orders are likely to keep, of the renamed variables: they say which sets are
    /// lawful.
    pairs: Pairs,
    /// The rows of widths that were found so far, of sets of the renamed problem, one low byte
    /// after another. If two entries have the same low byte, the last one counts.
    found: Vec<ByteRows>,
    /// The places of low bytes in `found`.
    places: Places,
    /// The size of the largest sets of which rows were to be found; 0 if none were.
    end: u8,
}

impl<'a> Model for Preparation<'a> {
    ghost use Rattle.compaction.specs.Preparations.{PreparedOf, IsPrepared};

    ghost Value = { PreparedOf };

    ghost view = { λ p. record {
      problem = p.renaming.now.problem;
      renamed = p.renaming.now.renamed;
      found = p.found.items;
      end = p.end;
    } };

    ghost invariant = { λ p. IsPrepared p.renaming.now p.shared p.orbits p.found.items };
}

impl<'a> Preparation<'a> {
    /// A preparation with the class tables `shared` of the problem after `renaming`, and no rows.
    /// Sets that aren't lawful by `pairs`, of the variables before the renaming, get no rows later.
    fn with_tables(
        alloc: Global,
        renaming: &'a Renaming<'a>,
        shared: SharedTables<'a>,
        pairs: &Pairs,
    ) -> Result<Preparation<'a>, AllocError>
        requires { shared ≡ renamed_of renaming.now.problem renaming.now.renamed }
        ensures problem { IfOk result (λ p. p.problem ≡ renaming.now.problem) }
        ensures none { IfOk result (λ p. p.found ≡ []) }
        ensures end { IfOk result (λ p. p.end ≡ 0) }
    {
        let pairs = renaming.pairs(alloc, pairs)?;
        let orbits = Orbits::of(alloc, renaming.renamed(), &pairs)?;
        Ok(Preparation {
            renaming,
            shared,
            orbits,
            pairs,
            found: Vec::new(alloc),
            places: [None; 256],
            end: 0,
        })
    }

    /// A preparation without rows, made by the calling thread. Sets that aren't lawful by `pairs`,
    /// of the variables before the renaming, get no rows later.
    pub fn of(
        alloc: Global,
        renaming: &'a Renaming<'a>,
        pairs: &Pairs,
    ) -> Result<Preparation<'a>, AllocError>
        ensures problem { IfOk result (λ p. p.problem ≡ renaming.now.problem) }
        ensures none { IfOk result (λ p. p.found ≡ []) }
        ensures end { IfOk result (λ p. p.end ≡ 0) }
    {
        let shared = SharedTables::of(alloc, renaming.renamed())?;
        Preparation::with_tables(alloc, renaming, shared, pairs)
    }

    /// A preparation made by the threads of `workers` workers, with the rows of the lawful sets of
    /// 1 to `end` variables, of each orbit the first set alone.
    pub fn by_workers<R: Threads + Sync>(
        rt: &R,
        alloc: Global,
        renaming: &'a Renaming<'a>,
        pairs: &Pairs,
        end: u8,
        workers: Workers,
    ) -> Result<Preparation<'a>, AllocError>
        ensures { IfOk result (λ p. p.problem ≡ renaming.now.problem) }
    {
        let shared = SharedTables::by_threads(rt, alloc, renaming.renamed(), workers)?;
        let mut prepared = Preparation::with_tables(alloc, renaming, shared, pairs)?;
        if end > 0 {
            let mut requests = prepared.requests(alloc)?;
            requests.add_sets(&prepared.wanted(1, end));
            prepared.find(rt, alloc, &requests, end, workers)?;
        }
        Ok(prepared)
    }

    /// The problem, before the renaming.
    pub fn problem(&self) -> &'a Problem
        ensures { result.now ≡ self.now.problem }
    {
        self.renaming.problem()
    }

    /// The size of the largest sets of which rows were to be found so far; 0 if none were.
    pub fn end(&self) -> u8
        ensures { result ≡ self.now.end }
    {
        self.end
    }

    /// The last rows that were found of sets with the low byte of `set`.
    pub(crate) fn rows_at(&self, set: Mask) -> Option<&ByteRows>
        ensures rows { IfSome result
            (λ b. HoldsRows (renamed_of self.now.problem self.now.renamed) b.now) }
        ensures low { IfSome result (λ b. b.now.low ≡ set % 256) }
    {
        let low = (set % 256) as u8;
        match self.found.get(self.places[usize::from(low)]?) {
            Some(byte) if byte.request.low == low => Some(byte),
            _ => None,
        }
    }

    /// The image of `set`, a set of the problem before the renaming: renamed, and then taken to the
    /// first set of its orbit, whose row has the widths of `set`.
    pub fn image_of(&self, set: Mask) -> Image
        requires { set < 2 ^ self.now.problem.inputs }
        ensures { IsImageOf self.now set result }
    {
        prove!(self.renaming.problem().inputs() <= 16);
        let image = self.renaming.image_of(set);
        match &self.orbits {
            Some(orbits) => orbits.first_from(image),
            None => image,
        }
    }

    /// Requests for no width yet, of sets of the renamed problem.
    pub fn requests(&self, alloc: Global) -> Result<Requests, AllocError> {
        prove!(self.renaming.problem().inputs() <= 16);
        Requests::none(alloc, self.renaming.problem().inputs())
    }

    /// The lawful sets of at least `first` and at most `last` variables, of each orbit the first
    /// set alone.
    fn wanted(&self, first: u8, last: u8) -> Wanted<'_, '_> {
        Wanted {
            pairs: &self.pairs,
            orbits: self.orbits.as_ref(),
            first: u32::from(first),
            last: u32::from(last),
        }
    }

    /// Adds to `requests` the members of the lawful sets of at least `first` and at most `last`
    /// variables, of each orbit the first set alone, whose low byte has a request already: one walk
    /// then serves both.
    pub fn add_larger(&self, requests: &mut Requests, first: u8, last: u8) {
        requests.add_sets_of_requested_bytes(&self.wanted(first, last));
    }

    /// Takes over the rows in `found`. If `end`, the size up to which rows were to be found,
    /// exceeds `self.end()`, they replace the rows that the preparation has, else they are
    /// appended.
    fn take(&mut self, found: Vec<ByteRows>, end: u8) -> Result<(), AllocError>
        requires { All (HoldsRows (renamed_of self.old.problem self.old.renamed)) found.items }
        ensures problem { self.new.problem ≡ self.old.problem }
        ensures renamed { self.new.renamed ≡ self.old.renamed }
    {
        let mut found = found;
        if end > self.end {
            self.found = found;
            self.end = end;
        } else {
            self.found.append(&mut found)?;
        }
        self.places = places_of(&self.found);
        Ok(())
    }

    /// Finds all rows in `requests` on the calling thread, and takes them over as `find` does.
    pub fn find_alone(
        &mut self,
        alloc: Global,
        requests: &Requests,
        end: u8,
    ) -> Result<(), AllocError>
        ensures problem { self.new.problem ≡ self.old.problem }
        ensures renamed { self.new.renamed ≡ self.old.renamed }
    {
        let found = self.shared.rows_by_turns(alloc, requests, &Turns::new())?;
        self.take(found, end)
    }

    /// Finds the rows of the first set of each orbit.
    pub(crate) fn find_all(&mut self, alloc: Global) -> Result<(), AllocError>
        ensures { self.new.problem ≡ self.old.problem }
    {
        let inputs = self.problem().inputs();
        let mut requests = self.requests(alloc)?;
        requests.add_sets(&self.wanted(1, inputs));
        self.find_alone(alloc, &requests, inputs)
    }

    /// Finds all rows in `requests`, and takes them over: if `end`, the size up to which they were
    /// to be found, exceeds `self.end()`, they replace the rows that the preparation has.
    pub fn find<R: Threads + Sync>(
        &mut self,
        rt: &R,
        alloc: Global,
        requests: &Requests,
        end: u8,
        workers: Workers,
    ) -> Result<(), AllocError>
        ensures problem { self.new.problem ≡ self.old.problem }
        ensures renamed { self.new.renamed ≡ self.old.renamed }
    {
        let found = self.shared.rows_by_workers(rt, alloc, requests, workers)?;
        self.take(found, end)
    }
}
