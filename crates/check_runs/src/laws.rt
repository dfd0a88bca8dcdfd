//! Laws of all checks, each the contract of a function that does nothing.

ghost use Rattle.std.specs.Prelude.{◌≡◌, ℕ, List};
ghost use Rattle.outcomes.specs.declared.outcome.Outcome.{Outcome};
ghost use Rattle.check_runs.specs.Judging.{Judge};

/// Law: checks of the same bytes have the same outcome and line, unless memory or a device fails.
pub fn verdicts_are_determined()
    ensures { (file text : List ℕ) (outcome other : Outcome) (a b : List ℕ) →
        Judge file text outcome a → Judge file text other b → (outcome ≡ other) × (a ≡ b) }
{}
