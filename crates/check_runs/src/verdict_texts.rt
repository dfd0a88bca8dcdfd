ghost use Rattle.std.specs.Prelude.{◌≡◌, ◌++◌, string_bytes, IfOk, OnOk};
ghost use Rattle.cert_check.specs.Verdicts.{reason_of};
ghost use Rattle.check_runs.specs.VerdictTexts.{invalid_line, pairs_words, reason_words, valid_line};

use cert_check::Reason;
use certificate::Certificate;
use std::alloc::{AllocError, Global};
use std::fmt::Write;

/// Enough for the longest line: its words and two numbers of at most 6 digits.
const LONGEST_LINE: usize = 32;

/// Appends the name of `reason`, and of an edge the mask that it leads from, in four hexadecimal
/// digits, and its variable. If memory is refused, a part of these words may be appended.
fn push_reason(text: &mut String, reason: Reason) -> Result<(), AllocError>
    ensures { OnOk result
        (string_bytes text.new ≡ string_bytes text.old ++ reason_words (reason_of reason)) }
{
    match reason {
        Reason::Shape => text.push_str("Shape"),
        Reason::Order => text.push_str("Order"),
        Reason::Pairs => text.push_str("Pairs"),
        Reason::Levels => text.push_str("Levels"),
        Reason::Total => text.push_str("Total"),
        Reason::Start => text.push_str("Start"),
        Reason::CellTooBig => text.push_str("CellTooBig"),
        Reason::Edge { mask, x } => {
            write!(text, "Edge {mask:04x} {x}")?;
            Ok(())
        }
    }
}

/// The line `invalid` and the reason.
pub(crate) fn invalid_text(alloc: Global, reason: Reason) -> Result<String, AllocError>
    ensures { IfOk result (λ text. string_bytes text ≡ invalid_line (reason_of reason)) }
{
    let mut text = String::with_capacity(alloc, LONGEST_LINE)?;
    text.push_str("invalid ")?;
    push_reason(&mut text, reason)?;
    text.push_str("\n")?;
    Ok(text)
}

/// Appends ` pairs q`, where q is `pairs`, unless it is 0. If memory is refused, a part may be
/// appended.
fn push_pairs(text: &mut String, pairs: usize) -> Result<(), AllocError>
    ensures { OnOk result (string_bytes text.new ≡ string_bytes text.old ++ pairs_words pairs) }
{
    if pairs > 0 {
        write!(text, " pairs {pairs}")?;
    }
    Ok(())
}

/// The line `valid` and the total, then `pairs` and their number if there are any.
pub(crate) fn valid_text(alloc: Global, cert: &Certificate) -> Result<String, AllocError>
    ensures { IfOk result (λ text. string_bytes text ≡ valid_line cert.now) }
{
    let mut text = String::with_capacity(alloc, LONGEST_LINE)?;
    let total = cert.total();
    write!(text, "valid {total}")?;
    push_pairs(&mut text, cert.pairs().len())?;
    text.push_str("\n")?;
    Ok(text)
}
