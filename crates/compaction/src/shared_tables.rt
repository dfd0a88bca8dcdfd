//! Class tables that are made once a search and read by all walks.

ghost use Rattle.std.specs.Prelude.{◌≡◌, ◌%◌, ◌^◌, ◌≤◌, map, IfOk};
ghost use Rattle.std.specs.List.{All};
ghost use Rattle.subfunction_classes.specs.Table.{classes_of, with_variable};
ghost use Rattle.compaction.specs.Strips.{CanTakeLow, low_variables as low_of};

use crate::strips::{Strips, low_variables};
use order_model::{Mask, Problem, VarIx, Workers};
use pair_numbering::PairMemory;
use std::alloc::{AllocError, Global};
use std::marker::Model;
use std::thread;
use std::thread::Threads;

/// If the distinct strips of the truth tables have at most this many points in all, the class
/// tables of all sets of low variables are made beforehand: they have 26 times as many numbers.
const MOST_POINTS: usize = 1 << 18;

/// With more points than `MOST_POINTS` only the class tables of the sets of this many lowest
/// variables are made beforehand, or of all low variables if there are fewer.
const FEWEST_KNOWN: u8 = 3;

/// What all walks share, made once a search: the class tables of the sets of the lowest variables.
#[derive(Drop)]
pub(crate) struct SharedTables<'a> {
    problem: &'a Problem,
    /// The class tables of all sets of the lowest `known` variables: `tables[m]` is that of the set
    /// with the mask m.
    tables: Vec<Strips<'a>>,
    /// How many of the lowest variables have class tables for all their sets.
    known: u8,
}

impl<'a> Model for SharedTables<'a> {
    ghost use Rattle.definitions.specs.Problems.{TruthTables};
    ghost use Rattle.compaction.specs.Strips.{AreKnownTables};

    ghost Value = { TruthTables };

    ghost view = { λ b. b.problem.now };

    ghost invariant = { λ b. AreKnownTables b.problem.now b.tables.items b.known };
}

/// For each of `tables` the class table of its set with the low variable `x` added.
fn with_low<'a>(
    alloc: Global,
    tables: &[Strips<'a>],
    x: VarIx,
) -> Result<Vec<Strips<'a>>, AllocError>
    requires { All (CanTakeLow x) tables.now }
    ensures { IfOk result (λ v. v.items ≡ map (λ t. with_variable t x) tables.now) }
{
    let mut memory = PairMemory::new(alloc);
    let mut larger = Vec::with_capacity(alloc, tables.len())?;
    for table in tables {
        larger.push(table.add_low(&mut memory, x)?)?;
    }
    Ok(larger)
}

/// For each of `tables` the class table of its set with the low variable `x` added, made by the
/// threads of `workers` workers.
fn with_low_by_threads<'a, R: Threads + Sync>(
    rt: &R,
    alloc: Global,
    tables: &[Strips<'a>],
    x: VarIx,
    workers: Workers,
) -> Result<Vec<Strips<'a>>, AllocError>
    requires { All (CanTakeLow x) tables.now }
    ensures { IfOk result (λ v. v.items ≡ map (λ t. with_variable t x) tables.now) }
{
    let size = tables.len().div_ceil(usize::from(workers.count())).max(1);
    let parts = thread::map_chunks(
        rt,
        alloc,
        tables,
        size,
        &|_start: usize, part: &[Strips<'_>]| -> Result<Vec<Strips<'_>>, AllocError>
            requires { All (CanTakeLow x) part.now }
            ensures { IfOk result (λ v. v.items ≡ map (λ t. with_variable t x) part.entry.now) }
        { with_low(alloc, part, x) },
    )?;
    let mut larger = Vec::with_capacity(alloc, tables.len())?;
    for part in parts {
        let mut part = part?;
        larger.append(&mut part)?;
    }
    Ok(larger)
}

impl<'a> SharedTables<'a> {
    /// A problem's shared tables for several walks.
    pub(crate) fn of(alloc: Global, problem: &'a Problem) -> Result<SharedTables<'a>, AllocError>
        ensures { IfOk result (λ b. b ≡ problem.now) }
    {
        let mut shared = SharedTables::bare(alloc, problem)?;
        let known = shared.most_known();
        while shared.known < known {
            let mut larger = with_low(alloc, &shared.tables, shared.known)?;
            shared.tables.append(&mut larger)?;
            shared.known += 1;
        }
        Ok(shared)
    }

    /// A problem's shared tables for several walks, made by the threads of `workers` workers.
    pub(crate) fn by_threads<R: Threads + Sync>(
        rt: &R,
        alloc: Global,
        problem: &'a Problem,
        workers: Workers,
    ) -> Result<SharedTables<'a>, AllocError>
        ensures { IfOk result (λ b. b ≡ problem.now) }
    {
        let mut shared = SharedTables::bare(alloc, problem)?;
        let known = shared.most_known();
        while shared.known < known {
            let x = shared.known;
            let mut larger = with_low_by_threads(rt, alloc, &shared.tables, x, workers)?;
            shared.tables.append(&mut larger)?;
            shared.known += 1;
        }
        Ok(shared)
    }

    /// A problem's shared tables for a single walk: the class table of the empty set alone.
    pub(crate) fn bare(alloc: Global, problem: &'a Problem) -> Result<SharedTables<'a>, AllocError>
        ensures { IfOk result (λ b. b ≡ problem.now) }
    {
        let mut tables = Vec::new(alloc);
        tables.push(Strips::of_problem(alloc, problem)?)?;
        Ok(SharedTables {
            problem,
            tables,
            known: 0,
        })
    }

    /// For how many of the lowest variables the tables of all sets are made.
    fn most_known(&self) -> u8
        ensures { result ≤ low_of self.now }
    {
        let low = low_variables(self.problem);
        if self.tables[0].stored() <= MOST_POINTS {
            low
        } else {
            low.min(FEWEST_KNOWN)
        }
    }

    /// The problem that the tables are of.
    pub(crate) fn problem(&self) -> &'a Problem
        ensures { result.now ≡ self.now }
    {
        self.problem
    }

    /// The class table at which a walk to `set` begins, and a number k: the table is that of the
    /// members of `set` below k, and k is at most the number of low variables.
    pub(crate) fn first_table(&self, set: Mask) -> (&Strips<'a>, u8)
        ensures known { result.1 ≤ low_of self.now }
        ensures table { result.0.now ≡ classes_of self.now (set % 2 ^ result.1) }
    {
        let place = usize::from(set) % (1usize << self.known);
        (&self.tables[place], self.known)
    }
}
