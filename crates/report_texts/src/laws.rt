//! What holds of all runs. Each law is the contract of a function that does nothing.

ghost use Rattle.command_line.specs.declared.line.RunPlan.{RunPlan};
ghost use Rattle.report_texts.specs.Answers.{AskTheSame};
ghost use Rattle.report_texts.specs.Runs.{LeaveTheSame};

/// Law: what minorder writes depends neither on the number of workers nor on the schedule. Let two
/// plans (number of workers, `--count` or not, pairs to keep) differ in the number of workers
/// alone. By both, a cover has the same report and the same certificate. Runs by both that read the
/// same file and succeed append the same bytes to the report's writer, and the same to the
/// certificate's.
pub fn texts_are_determined()
    ensures { (plan other : RunPlan) → AskTheSame plan other → LeaveTheSame plan other }
{}
