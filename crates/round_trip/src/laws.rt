//! A check of a certificate that a run wrote accepts it.

ghost use Rattle.std.specs.Prelude.{ℕ, List, Option};
ghost use Rattle.command_line.specs.declared.line.RunPlan.{RunPlan};
ghost use Rattle.outcomes.specs.declared.outcome.Outcome.{Outcome};
ghost use Rattle.check_runs.specs.Judging.{ChecksAs};
ghost use Rattle.round_trip.specs.RoundTrip.{AcceptsWritten, Decides, Wrote};

/// Law: if a run of minorder ended with status 0 and wrote a report and a certificate, then a check
/// of this certificate with the same file ends with status 0, unless it is out of memory or a
/// device fails. The order of the certificate is the one that the report prints, and the line that
/// the check writes has the report's number of nodes.
pub fn written_certificates_are_accepted()
    ensures { (plan : RunPlan) (file report cert : List ℕ) (before after : Option (List ℕ))
        (outcome : Outcome) → Wrote plan file report cert → Decides outcome →
        ChecksAs file cert before after outcome → AcceptsWritten cert report before after outcome }
{}
