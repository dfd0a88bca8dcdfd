//! Checks of certificates, over any readers and writer.

ghost use Rattle.std.specs.Prelude.{◌≡◌, [], ◌∷◌, IfOk, IfErr, IfSome, string_bytes};
ghost use Rattle.check_runs.specs.Judging.{CheckEnds, HasVerdict, IsRefusedText, IsTextFault, bytes_fault, devices, failed_after};
ghost use Rattle.outcomes.specs.Limits.{SpellsWithin};

use crate::verdict_texts::{invalid_text, valid_text};
use cert_check::{Verdict, check};
use certificate::{Certificate, MOST_BYTES};
use counted_io::{CountedRead, CountedWrite, Refused, read_all, write_whole};
use outcomes::{Fault, Outcome};
use pla_reader::{Cover, read_cover};
use std::alloc::{AllocError, Global};
use std::thread::Threads;
use truth_table::Tables;

fn fault_of_bytes(refused: Refused) -> Fault
    ensures { result ≡ bytes_fault refused }
{
    match refused {
        Refused::TooLong => Fault::CertificateTooLong,
        Refused::Device => Fault::Device,
        Refused::OutOfMemory => Fault::OutOfMemory,
    }
}

/// Reads `cert` to its end, and returns the certificate that its text is.
fn read_certificate<C: CountedRead>(alloc: Global, cert: &mut C) -> Result<Certificate, Fault>
    ensures cert { IfOk result (λ c. IfSome (C.remaining cert.old) (λ text. SpellsWithin text c)) }
    ensures refused { IfErr result
        (λ fault. IfSome (C.remaining cert.old) (λ text. IsRefusedText text fault)) }
    ensures faults { IfErr result IsTextFault }
    ensures calls { C.failures cert.new ≡ failed_after result (C.failures cert.old) }
{
    let bytes = match read_all(alloc, cert, MOST_BYTES) {
        Ok(bytes) => bytes,
        Err(refused) => return Err(fault_of_bytes(refused)),
    };
    match Certificate::parse(alloc, &bytes) {
        Ok(cert) => Ok(cert),
        Err(error) => Err(Fault::from(error)),
    }
}

/// The outcome of a check, `Done` or `Invalid`, and the line of the verdict.
fn verdict_on<R: Threads + Sync>(
    rt: &R,
    alloc: Global,
    cover: &Cover,
    cert: &Certificate,
) -> Result<(Outcome, String), AllocError>
    ensures { IfOk result (λ v. HasVerdict cover.now cert.now v.0 (string_bytes v.1)) }
{
    let tables = Tables::of_cover(rt, alloc, cover)?;
    match check(rt, alloc, &tables, cert)? {
        Verdict::Valid => Ok((Outcome::Done, valid_text(alloc, cert)?)),
        Verdict::Invalid(reason) => Ok((Outcome::Invalid, invalid_text(alloc, reason)?)),
    }
}

/// Reads a PLA file from `file` and a certificate from `cert`, and writes the line of the verdict
/// to `out`. The certificate is read only if the file has no fault. The line is made whole before
/// its first byte is written.
pub fn run_check<R: Threads + Sync, F: CountedRead, C: CountedRead, W: CountedWrite>(
    rt: &R,
    alloc: Global,
    file: &mut F,
    cert: &mut C,
    out: &mut W,
) -> Outcome
    ensures { CheckEnds (F.remaining file.old) (C.remaining cert.old)
        (devices (W.contents out.old)
        (F.failures file.old ∷ C.failures cert.old ∷ W.failures out.old ∷ []))
        (devices (W.contents out.new)
        (F.failures file.new ∷ C.failures cert.new ∷ W.failures out.new ∷ [])) result }
{
    let cover = match read_cover(alloc, file) {
        Ok(cover) => cover,
        Err(error) => return Outcome::Refused(Fault::from(error)),
    };
    let cert = match read_certificate(alloc, cert) {
        Ok(cert) => cert,
        Err(fault) => return Outcome::Refused(fault),
    };
    let Ok((outcome, line)) = verdict_on(rt, alloc, &cover, &cert) else {
        return Outcome::Refused(Fault::OutOfMemory);
    };
    match write_whole(out, line.as_bytes()) {
        Ok(()) => outcome,
        Err(_) => Outcome::Refused(Fault::Device),
    }
}
