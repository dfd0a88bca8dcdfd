ghost use Rattle.std.specs.Prelude.{◌≡◌, ◌-◌, ◌<◌, ◌≤◌, IfOk, vec_len};
ghost use Rattle.unique_table.specs.Sessions.{Knowledge};
ghost use Rattle.dd_builder.specs.declared.parts.Source.{Source};
ghost use Rattle.dd_builder.specs.Parts.{IsSourceFor, Continues, IsEndOf, AreEndsOf, AreSharesOf, IsShareOf, IsOpened, AreJoinedEnds, AreJobsOf, AreHalves, session_of};

use crate::parts::{Source, part};
use order_model::Gate;
use std::alloc::{AllocError, Global};
use unique_table::{Session, Store};

#[derive(Drop)]
pub(crate) struct BuildJob {
    /// The worker's number, counted from 1.
    pub(crate) worker: u8,
    pub(crate) session: Session,
}

/// Builds, from `source`, each part q with `q % workers == worker - 1`, calls the gate, and
/// publishes the part. Returns the session at the end: `Err` if it met a full store, which ends the
/// work.
pub(crate) fn build_parts<G: Gate>(
    store: &Store,
    mut session: Session,
    worker: u8,
    workers: u8,
    source: Source<'_>,
    gate: &G,
) -> Result<Session, Session>
    requires session { session.store ≡ store.now }
    requires source { IsSourceFor store.now.plan source }
    requires worker { 1 ≤ worker }
    requires workers { worker ≤ workers }
    ensures end { IsEndOf store.now workers (worker - 1) result }
    ensures continues { Continues source.entry session (session_of result) }
{
    for piece in 0..store.roots() {
        if piece % usize::from(workers) == usize::from(worker - 1) {
            let Ok(id) = part(store, &mut session, source, piece) else {
                return Err(session);
            };
            gate.between(worker, piece as u32);
            store.publish(&mut session, piece, id);
        }
    }
    Ok(session)
}

/// Splits `session` among `workers` workers.
pub(crate) fn jobs(
    alloc: Global,
    store: &Store,
    session: Session,
    workers: u8,
) -> Result<Vec<BuildJob>, AllocError>
    requires session { session.store ≡ store.now }
    requires some { 1 ≤ workers }
    ensures jobs { IfOk result (λ v. AreJobsOf store.now workers v.items) }
    ensures halves { IfOk result (λ v. AreHalves session workers v.items) }
{
    let mut jobs = Vec::with_capacity(alloc, usize::from(workers))?;
    let mut rest = session;
    for worker in 1..workers {
        let (mine, other) = store.split(rest);
        rest = mine;
        jobs.push(BuildJob {
            worker,
            session: other,
        })?;
    }
    jobs.push(BuildJob {
        worker: workers,
        session: rest,
    })?;
    Ok(jobs)
}

/// The session in `end`, and whether its worker met a full store.
fn session_at_end(end: Result<Session, Session>) -> (Session, bool)
    ensures { IsOpened end result.0 result.1 }
{
    match end {
        Ok(session) => (session, false),
        Err(session) => (session, true),
    }
}

/// Joins the sessions with which the workers ended. Returns it as `Err` if one met a full store.
pub(crate) fn join_all(
    store: &Store,
    workers: u8,
    mut ended: Vec<Result<Session, Session>>,
) -> Result<Session, Session>
    requires some { 1 ≤ workers }
    requires count { vec_len ended ≡ workers }
    requires ends { AreEndsOf store.now workers ended.items }
    ensures joined { AreJoinedEnds store.now result }
    ensures whole { (source : Source) (from : Knowledge) →
        AreSharesOf source from workers ended.items → IsShareOf source from 0 (session_of result) }
{
    let Some(last) = ended.pop() else {
        unreachable!()
    };
    let (mut session, mut full) = session_at_end(last);
    while let Some(next) = ended.pop() {
        let (other, met_full) = session_at_end(next);
        session = store.join(session, other);
        full |= met_full;
    }
    if full { Err(session) } else { Ok(session) }
}
