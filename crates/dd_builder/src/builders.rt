//! Reduced diagrams, built by several workers.

ghost use Rattle.std.specs.Prelude.{◌≡◌, ◌-◌, ◌≤◌, length, vec_len, IfOk, IfErr};
ghost use Rattle.std.specs.Thread.{IsSync};
ghost use Rattle.definitions.specs.Problems.{functions};
ghost use Rattle.unique_table.specs.Plans.{order_of};
ghost use Rattle.dd_builder.specs.Building.{FailsToBuild, IsOutOfMemory, IsDiagramOf, IsDiagramFor, IsForTables, IsForCover};
ghost use Rattle.truth_table.specs.OfCovers.{AreTablesOf};
ghost use Rattle.pla_reader.specs.Covers.{functions_of};
ghost use Rattle.dd_builder.specs.Parts.{IsSourceFor, Continues, IsShareOf, AreSharesOf, KnowsParts, IsEndOf, AreEndsOf, MayBeFull, session_of};
ghost use Rattle.dd_builder.specs.Subfunctions.{IsFresh};

use crate::errors::BuildError;
use crate::laws::{orders_have_each_variable_once, stores_have_plans};
use crate::parts::Source;
use crate::roots::publish_roots;
use crate::workers::{BuildJob, build_parts, jobs, join_all};
use order_model::laws::{some_diagram_has_the_level_counts, truth_tables_keep_functions};
use order_model::{Crew, Diagram, Gate, Order, Workers};
use pla_reader::Cover;
use std::alloc::{AllocError, Global};
use std::thread;
use std::thread::Threads;
use truth_table::Tables;
use unique_table::{CloseFault, Pieces, Session, Store};

/// Makes the outputs from their published parts, publishes them, and closes the store.
fn finish(
    alloc: Global,
    store: Store,
    mut session: Session,
    source: Source<'_>,
) -> Result<Diagram, BuildError>
    requires session { KnowsParts store session }
    requires source { IsSourceFor store.plan source }
    ensures diagram { IfOk result (IsDiagramFor store.plan) }
    ensures refused { IfErr result (FailsToBuild store) }
    ensures full { IfErr result (MayBeFull source.entry session) }
{
    stores_have_plans(&store);
    some_diagram_has_the_level_counts();
    let Ok(()) = publish_roots(&store, &mut session, source) else {
        store.canonical_ids(&session);
        return Err(BuildError::StoreFull(session));
    };
    match store.close(alloc, session) {
        Ok(diagram) => Ok(diagram),
        Err((_, CloseFault::OutOfMemory)) => Err(BuildError::OutOfMemory),
        Err((_, CloseFault::MissingRoot(_))) => unreachable!(),
    }
}

/// Builds and publishes all parts by `count` workers, each with a thread of its own and a session
/// split off `session`. Entry i is the session with which worker i + 1 ended: `Err` if it met a
/// full store, and so left parts unbuilt.
fn ends_of_workers<R: Threads + Sync, G: Gate>(
    crew: &Crew<'_, R, G>,
    alloc: Global,
    store: &Store,
    session: Session,
    source: Source<'_>,
    count: u8,
) -> Result<Vec<Result<Session, Session>>, AllocError>
    requires session { session.store ≡ store.now }
    requires source { IsSourceFor store.now.plan source }
    requires some { 1 ≤ count }
    ensures count { IfOk result (λ v. vec_len v ≡ count) }
    ensures ends { IfOk result (λ v. AreEndsOf store.now count v.items) }
    ensures shares { IfOk result (λ v. AreSharesOf source.entry session count v.items) }
{
    let jobs = jobs(alloc, store, session, count)?;
    let gate = crew.gate;
    let ended = thread::map_vec(
        crew.rt,
        jobs,
        &|job: BuildJob| -> Result<Session, Session>
            requires { IsSync G.row × (job.session.store ≡ store.now)
                × IsSourceFor store.now.plan source × (1 ≤ job.worker) × (job.worker ≤ count) }
            ensures { IsEndOf store.entry.now count (job.worker - 1) result
                × Continues source.entry job.session (session_of result) }
        {
            let BuildJob { worker, session } = job;
            build_parts(store, session, worker, count, source, gate)
        },
    )?;
    Ok(ended)
}

/// Builds and publishes all parts by the workers of `crew`, and returns the session that joins
/// theirs.
fn parts_by_workers<R: Threads + Sync, G: Gate>(
    crew: &Crew<'_, R, G>,
    alloc: Global,
    store: &Store,
    session: Session,
    source: Source<'_>,
) -> Result<Session, BuildError>
    requires session { session.store ≡ store.now }
    requires source { IsSourceFor store.now.plan source }
    ensures parts { IfOk result (KnowsParts store.now) }
    ensures whole { IfOk result (IsShareOf source.entry session 0) }
    ensures refused { IfErr result (FailsToBuild store.now) }
    ensures full { IfErr result (MayBeFull source.entry session) }
{
    let count = crew.workers.count();
    let Ok(ended) = ends_of_workers(crew, alloc, store, session, source, count) else {
        return Err(BuildError::OutOfMemory);
    };
    match join_all(store, count, ended) {
        Ok(session) => Ok(session),
        Err(full) => {
            stores_have_plans(store);
            store.canonical_ids(&full);
            Err(BuildError::StoreFull(full))
        }
    }
}

/// Builds the reduced diagram of the store's functions: the parts of the outputs by the workers of
/// `crew`, the outputs by the calling thread.
fn build_in<R: Threads + Sync, G: Gate>(
    crew: &Crew<'_, R, G>,
    alloc: Global,
    store: Store,
    session: Session,
    source: Source<'_>,
) -> Result<Diagram, BuildError>
    requires session { session.store ≡ store }
    requires source { IsSourceFor store.plan source }
    ensures diagram { IfOk result (IsDiagramFor store.plan) }
    ensures refused { IfErr result (FailsToBuild store) }
    ensures full { IfErr result (MayBeFull source.entry session) }
{
    let session = parts_by_workers(crew, alloc, &store, session, source)?;
    finish(alloc, store, session, source)
}

/// Builds the reduced diagram of the store's functions from `tables`. The parts are counted from 0
/// over all outputs; worker i, from 1 on, builds each part q with `q % workers = i - 1`, and calls
/// `gate` before publishing it.
pub fn from_tables<R: Threads + Sync, G: Gate>(
    rt: &R,
    alloc: Global,
    store: Store,
    session: Session,
    tables: &Tables,
    workers: Workers,
    gate: &G,
) -> Result<Diagram, BuildError>
    requires session { session.store ≡ store }
    requires tables { IsForTables store.plan tables.now }
    ensures diagram { IfOk result (IsDiagramFor store.plan) }
    ensures refused { IfErr result (FailsToBuild store) }
    ensures never_full { IsFresh session → IfErr result IsOutOfMemory }
{
    let crew = Crew::new(rt, workers, gate);
    build_in(&crew, alloc, store, session, Source::Tables(tables))
}

/// Builds the reduced diagram of the store's functions from the terms of `cover`. Workers build
/// parts, as in `from_tables`.
pub fn from_cover<R: Threads + Sync, G: Gate>(
    rt: &R,
    alloc: Global,
    store: Store,
    session: Session,
    cover: &Cover,
    workers: Workers,
    gate: &G,
) -> Result<Diagram, BuildError>
    requires session { session.store ≡ store }
    requires cover { IsForCover store.plan cover.now }
    ensures diagram { IfOk result (IsDiagramFor store.plan) }
    ensures refused { IfErr result (FailsToBuild store) }
{
    let crew = Crew::new(rt, workers, gate);
    build_in(&crew, alloc, store, session, Source::Terms(cover.terms()))
}

/// An empty store for the functions of `tables` under `order`, and its first session. The parts of
/// its outputs are the outputs with the top two variables, or the only one, fixed.
pub fn tables_store(
    alloc: Global,
    tables: &Tables,
    order: &Order,
) -> Result<(Store, Session), AllocError>
    requires { length order.now ≡ tables.now.inputs }
    ensures tables { IfOk result (λ r. IsForTables r.0.plan tables.now) }
    ensures order { IfOk result (λ r. order_of r.0.plan ≡ order.now) }
    ensures session { IfOk result (λ r. r.1.store ≡ r.0) }
    ensures fresh { IfOk result (λ r. IsFresh r.1) }
{
    Store::new(
        alloc,
        order.try_clone(alloc)?,
        tables.problem(),
        Pieces::Tables,
    )
}

/// An empty store for the functions of a cover under `order`, and its first session. Part k of an
/// output has those of its terms whose index in the cover is k modulo 64.
pub fn cover_store(
    alloc: Global,
    cover: &Cover,
    tables: &Tables,
    order: &Order,
) -> Result<(Store, Session), AllocError>
    requires order { length order.now ≡ cover.now.inputs }
    requires tables { AreTablesOf cover.now tables.now }
    ensures cover { IfOk result (λ r. IsForCover r.0.plan cover.now) }
    ensures order { IfOk result (λ r. order_of r.0.plan ≡ order.now) }
    ensures session { IfOk result (λ r. r.1.store ≡ r.0) }
{
    truth_tables_keep_functions();
    let pieces = Pieces::Terms(cover.terms());
    Store::new(alloc, order.try_clone(alloc)?, tables.problem(), pieces)
}

/// Builds the reduced diagram of the functions of `tables` under `order`, in a new store.
pub fn build_tables<R: Threads + Sync, G: Gate>(
    rt: &R,
    alloc: Global,
    tables: &Tables,
    order: &Order,
    workers: Workers,
    gate: &G,
) -> Result<Diagram, AllocError>
    requires order { length order.now ≡ tables.now.inputs }
    ensures diagram { IfOk result (IsDiagramOf tables.now.inputs (functions tables.now) order.now) }
{
    let (store, session) = tables_store(alloc, tables, order)?;
    stores_have_plans(&store);
    match from_tables(rt, alloc, store, session, tables, workers, gate) {
        Ok(diagram) => Ok(diagram),
        Err(BuildError::OutOfMemory) => Err(AllocError),
        Err(BuildError::StoreFull(_)) => unreachable!(),
    }
}

/// Builds the reduced diagram of a cover's functions from its terms in the store `begun.0`, or, if
/// this gets full, from `tables` in a new store.
pub fn build_from<R: Threads + Sync, G: Gate>(
    crew: &Crew<'_, R, G>,
    alloc: Global,
    begun: (Store, Session),
    cover: &Cover,
    tables: &Tables,
    order: &Order,
) -> Result<Diagram, AllocError>
    requires session { begun.1.store ≡ begun.0 }
    requires order { order_of begun.0.plan ≡ order.now }
    requires cover { IsForCover begun.0.plan cover.now }
    requires tables { AreTablesOf cover.now tables.now }
    ensures diagram { IfOk result
        (IsDiagramOf cover.now.inputs (functions_of cover.now) order.now) }
{
    let (store, session) = begun;
    stores_have_plans(&store);
    some_diagram_has_the_level_counts();
    truth_tables_keep_functions();
    match build_in(crew, alloc, store, session, Source::Terms(cover.terms())) {
        Err(BuildError::StoreFull(_)) => {
            build_tables(crew.rt, alloc, tables, order, crew.workers, crew.gate)
        }
        Err(BuildError::OutOfMemory) => Err(AllocError),
        Ok(diagram) => Ok(diagram),
    }
}

/// Whether the diagram is built from the truth tables: with more than 2^n / 64 terms, for n inputs.
fn has_many_terms(cover: &Cover) -> bool {
    cover.terms().len() > (1usize << cover.inputs()) / 64
}

/// Builds the reduced diagram of a cover's functions under `order`: from `tables` if the cover has
/// more than 2^n / 64 terms, for n inputs, or if its terms fill a store, else from the terms.
pub fn build<R: Threads + Sync, G: Gate>(
    rt: &R,
    alloc: Global,
    cover: &Cover,
    tables: &Tables,
    order: &Order,
    workers: Workers,
    gate: &G,
) -> Result<Diagram, AllocError>
    requires order { length order.now ≡ cover.now.inputs }
    requires tables { AreTablesOf cover.now tables.now }
    ensures diagram { IfOk result
        (IsDiagramOf cover.now.inputs (functions_of cover.now) order.now) }
{
    if has_many_terms(cover) {
        orders_have_each_variable_once(order);
        some_diagram_has_the_level_counts();
        truth_tables_keep_functions();
        return build_tables(rt, alloc, tables, order, workers, gate);
    }
    let begun = cover_store(alloc, cover, tables, order)?;
    let crew = Crew::new(rt, workers, gate);
    build_from(&crew, alloc, begun, cover, tables, order)
}
