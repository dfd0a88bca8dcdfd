ghost use Rattle.std.specs.Prelude.{◌≡◌, ◌≤◌, ◌<◌, ◌+◌, None, Some, MatchResult, IfOk, IfErr};
ghost use Rattle.std.specs.Int.{bit_at};
ghost use Rattle.pla_reader.specs.Text.{positions};
ghost use Rattle.pla_reader.specs.Covers.{term_of};
ghost use Rattle.pla_reader.specs.Faults.{input_fault, output_fault, term_fault};
ghost use Rattle.definitions.specs.Products.{product_of};
ghost use Rattle.pla_reader.specs.Masks.{Fits, ReadsInput, ReadsOutput};

use crate::errors::LineFault;
use crate::lines::is_separator;
use order_model::{Mask, Term};

/// The masks of a term that is being read, as `Term` has them.
#[derive(Clone, Copy)]
pub(crate) struct Masks {
    care: Mask,
    value: Mask,
    outs: Mask,
}

/// `masks` with the literal of input `at` that byte `b` states. The error is `BadInputChar`.
fn with_input(masks: Masks, at: u8, b: u8) -> Result<Masks, LineFault>
    requires small { at < 16 }
    requires fresh { bit_at masks.value at ≡ 0 }
    requires none { bit_at masks.care at ≡ 0 }
    ensures ok { IfOk result (λ new. input_fault b ≡ None) }
    ensures err { IfErr result (λ fault. input_fault b ≡ Some fault) }
    ensures masks { IfOk result (ReadsInput masks at b) }
{
    let mut new = masks;
    match b {
        b'0' => new.care |= 1 << at,
        b'1' => {
            new.care |= 1 << at;
            new.value |= 1 << at;
        }
        b'-' | b'2' => {}
        _ => return Err(LineFault::BadInputChar),
    }
    Ok(new)
}

/// `masks` with output `at` if byte `b` is `1`. The error is `DontCare` for `-` or `2` unless
/// `takes_dont_cares` is true, and `BadOutputChar` for any other byte.
fn with_output(masks: Masks, at: u8, b: u8, takes_dont_cares: bool) -> Result<Masks, LineFault>
    requires small { at < 16 }
    requires none { bit_at masks.outs at ≡ 0 }
    ensures ok { IfOk result (λ new. output_fault takes_dont_cares b ≡ None) }
    ensures err { IfErr result (λ fault. output_fault takes_dont_cares b ≡ Some fault) }
    ensures masks { IfOk result (ReadsOutput masks at b) }
{
    let mut new = masks;
    match b {
        b'0' | b'~' => {}
        b'1' => new.outs |= 1 << at,
        b'-' | b'2' => {
            if !takes_dont_cares {
                return Err(LineFault::DontCare);
            }
        }
        _ => return Err(LineFault::BadOutputChar),
    }
    Ok(new)
}

/// The term of n inputs and m outputs that `line` states. Spaces, tabs, carriage returns and `|`
/// are skipped. The error is the first fault from the left.
pub(crate) fn row(n: u8, m: u8, takes_dont_cares: bool, line: &[u8]) -> Result<Term, LineFault>
    requires inputs { n ≤ 16 }
    requires outputs { m ≤ 16 }
    ensures { MatchResult result
        (λ term. (term_fault takes_dont_cares n m (positions line.now) ≡ None)
        × (product_of n m term ≡ term_of n (positions line.now)) × Fits n m term)
        (λ fault. term_fault takes_dont_cares n m (positions line.now) ≡ Some fault) }
{
    let mut masks = Masks {
        care: 0,
        value: 0,
        outs: 0,
    };
    let mut at = 0u8;
    for b in line {
        if is_separator(*b) {
            continue;
        }
        if at < n {
            masks = with_input(masks, at, *b)?;
        } else if at < n + m {
            masks = with_output(masks, at - n, *b, takes_dont_cares)?;
        } else {
            return Err(LineFault::LongTerm);
        }
        at += 1;
    }
    if at < n + m {
        return Err(LineFault::ShortTerm);
    }
    Ok(Term {
        care: masks.care,
        value: masks.value,
        outs: masks.outs,
    })
}
