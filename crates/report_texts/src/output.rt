//! Writing the texts of a run.

ghost use Rattle.std.specs.Prelude.{◌≡◌, [], ◌∷◌, ℕ, OnErr, OnOk, option_map, string_bytes, take};
ghost use Rattle.counted_io.specs.Counts.{one_more};
ghost use Rattle.outcomes.specs.Statuses.{FailsOnlyByDevice};
ghost use Rattle.report_texts.specs.Runs.{GetsText, Sends, failures_in, held, part_in, whole};

use counted_io::{CountedWrite, Refused, write_whole};
use outcomes::{Fault, Outcome};

/// The texts that a run writes for a cover.
#[derive(Drop)]
pub struct RunTexts {
    /// The report on the order that was found, or the text of `--count`, `--orders` or `--sizes`.
    pub report: String,
    /// The text of the certificate; None if none is wanted.
    pub certificate: Option<String>,
}

/// Writes the certificate's text, if there are both. After an error a part may have been written.
fn write_certificate<C: CountedWrite>(
    cert: &mut Option<C>,
    text: &Option<String>,
) -> Result<(), Refused>
    ensures ok { OnOk result (GetsText (part_in whole text.now)
        (option_map C.contents cert.old) (option_map C.contents cert.new)) }
    ensures ok_calls { OnOk result
        (failures_in C.failures cert.new ≡ failures_in C.failures cert.old) }
    ensures err { OnErr result ((n : ℕ) × GetsText (part_in (take n) text.now)
        (option_map C.contents cert.old) (option_map C.contents cert.new)) }
    ensures err_calls { OnErr result
        (failures_in C.failures cert.new ≡ one_more (failures_in C.failures cert.old)) }
{
    let Some(text) = text else {
        return Ok(());
    };
    match cert {
        Some(writer) => write_whole(writer, text.as_bytes()),
        None => Ok(()),
    }
}

/// Writes the texts of a run: first the certificate to `cert`, if the run has one and `cert` isn't
/// None, and then the report to `out`. Returns `Done`, or once a write fails `Refused` for
/// `Fault::Device`; then nothing more is written, but a part of the text may have been.
pub fn write_texts<W: CountedWrite, C: CountedWrite>(
    texts: &RunTexts,
    out: &mut W,
    cert: &mut Option<C>,
) -> Outcome
    ensures sends { Sends (string_bytes texts.now.report) texts.now.certificate
        (held (W.contents out.old) (option_map C.contents cert.old))
        (held (W.contents out.new) (option_map C.contents cert.new)) result }
    ensures devices { FailsOnlyByDevice
        (W.failures out.old ∷ failures_in C.failures cert.old ∷ [])
        (W.failures out.new ∷ failures_in C.failures cert.new ∷ []) result }
{
    if write_certificate(cert, &texts.certificate).is_err() {
        return Outcome::Refused(Fault::Device);
    }
    match write_whole(out, texts.report.as_bytes()) {
        Ok(()) => Outcome::Done,
        Err(_) => Outcome::Refused(Fault::Device),
    }
}
