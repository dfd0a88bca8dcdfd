ghost use Rattle.std.specs.Prelude.{◌≡◌, ◌≢◌, IfOk, IfErr, OnOk};
ghost use Rattle.certificate.specs.Spelling.{spelling};
ghost use Rattle.minorder_c.specs.Answers.{AreTables, given};
ghost use Rattle.minorder_c.specs.Judged.{IsJudged, IsNoCertificate, IsTextStatus, IsVerdictReturned, RefusesText, returned_verdict};
ghost use Rattle.minorder_c.specs.Statuses.{ShowsShape};

use crate::arguments::{GivenTables, tables_of};
use crate::status::Refusal;
use cert_check::{Reason, Verdict, check_alone};
use certificate::{CertFault, Certificate};
use std::alloc::Global;

/// A verdict in C: 0 if the certificate is good, else the number of the first reason why not, 1 to
/// 8, in the order of `Reason`; for an edge (8) the set that it leads from, and its variable, else
/// both are 0.
#[repr(C)]
#[derive(Clone, Copy, Debug)]
pub(crate) struct ReturnedVerdict {
    pub reason: u32,
    pub mask: u32,
    pub variable: u32,
}

fn plain(reason: u32) -> ReturnedVerdict
    ensures { result ≡ record { reason = reason; mask = 0; variable = 0 } }
{
    ReturnedVerdict {
        reason,
        mask: 0,
        variable: 0,
    }
}

pub(crate) fn verdict_for_c(verdict: Verdict) -> ReturnedVerdict
    ensures { result ≡ returned_verdict verdict }
{
    match verdict {
        Verdict::Valid => plain(0),
        Verdict::Invalid(Reason::Shape) => plain(1),
        Verdict::Invalid(Reason::Order) => plain(2),
        Verdict::Invalid(Reason::Pairs) => plain(3),
        Verdict::Invalid(Reason::Levels) => plain(4),
        Verdict::Invalid(Reason::Total) => plain(5),
        Verdict::Invalid(Reason::Start) => plain(6),
        Verdict::Invalid(Reason::CellTooBig) => plain(7),
        Verdict::Invalid(Reason::Edge { mask, x }) => ReturnedVerdict {
            reason: 8,
            mask: u32::from(mask),
            variable: u32::from(x),
        },
    }
}

fn certificate_of(alloc: Global, text: &[u8]) -> Result<Certificate, Refusal>
    ensures spelled { IfOk result (λ cert. text.now ≡ spelling cert) }
    ensures refused { IfErr result (RefusesText (Unit {0}) text.now) }
{
    match Certificate::parse(alloc, text) {
        Ok(cert) => Ok(cert),
        Err(CertFault::Line(_, _)) => Err(Refusal::Certificate),
        Err(CertFault::TooLong) => Err(Refusal::Certificate),
        Err(CertFault::OutOfMemory) => Err(Refusal::OutOfMemory),
    }
}

#[derive(Drop)]
pub(crate) struct Judgement {
    pub(crate) certificate: Certificate,
    pub(crate) verdict: Verdict,
}

/// The certificate that `text` is, and the verdict on it.
pub(crate) fn judgement_on(
    alloc: Global,
    given: &GivenTables,
    text: &[u8],
) -> Result<Judgement, Refusal>
    ensures shape { OnOk result (AreTables given.now) }
    ensures judged { IfOk result (λ j. IsJudged given.now text.now j.certificate j.verdict) }
    ensures refused { IfErr result (RefusesText (AreTables given.now) text.now) }
{
    let tables = tables_of(alloc, given)?;
    let certificate = certificate_of(alloc, text)?;
    match check_alone(alloc, &tables, &certificate) {
        Ok(verdict) => Ok(Judgement {
            certificate,
            verdict,
        }),
        Err(_) => Err(Refusal::OutOfMemory),
    }
}

/// Writes the verdict on the text `certificate`. Returns 0, whatever the verdict.
#[unsafe(no_mangle)]
pub extern "C" fn minorder_check(
    alloc: Global,
    tables: &[u64],
    inputs: u32,
    outputs: u32,
    certificate: &[u8],
    verdict: &mut ReturnedVerdict,
) -> u32
    ensures status { IsTextStatus result }
    ensures shape { ShowsShape (AreTables (given tables.entry inputs outputs)) result }
    ensures no_certificate { result ≡ 3 → IsNoCertificate certificate.now }
    ensures returned { result ≡ 0 →
        IsVerdictReturned (given tables.entry inputs outputs) certificate.now verdict.new }
    ensures refused { result ≢ 0 → verdict.new ≡ verdict.old }
{
    let given = GivenTables::of(tables, inputs, outputs);
    match judgement_on(alloc, &given, certificate) {
        Ok(found) => {
            *verdict = verdict_for_c(found.verdict);
            0
        }
        Err(refusal) => refusal.status(),
    }
}
