ghost use Rattle.std.specs.Prelude.{◌≡◌, ◌+◌, ◌^◌, ◌<◌, ◌≤◌, ◌⊎◌, IfOk, IfErr, IfSome, IfNone, length};
ghost use Rattle.std.specs.List.{All};
ghost use Rattle.certificate.specs.declared.faults.CertFault.TheVariants.{OutOfMemory};
ghost use Rattle.certificate.specs.Heads.{FailsToParse, TakesBody, TakesHead, TakesSets, most_bytes};
ghost use Rattle.certificate.specs.Reading.{FitsCount, StaysWithin};
ghost use Rattle.certificate.specs.Spelling.{HasSpelling, spelling};

use crate::bounds::MOST_NODES;
use crate::certificate::{Certificate, CertificateParts};
use crate::faults::CertFault;
use crate::reader::{Lines, add};
use order_model::{ListedCell, VarIx};
use std::alloc::Global;

/// The most bytes of a text that is read as a certificate.
pub const MOST_BYTES: usize = 1_048_576;

fn variables(alloc: Global, numbers: &[u32]) -> Result<Vec<VarIx>, CertFault>
    requires { All (λ k. k ≤ 15) numbers.now }
    ensures same { IfOk result (λ v. v.items ≡ numbers.now) }
    ensures memory { IfErr result (λ fault. fault ≡ OutOfMemory) }
{
    let mut variables = Vec::new(alloc);
    for number in numbers {
        add(&mut variables, *number as VarIx)?;
    }
    Ok(variables)
}

#[derive(Drop)]
pub(crate) struct Head {
    format: u8,
    inputs: u8,
    outputs: u8,
    order: Vec<VarIx>,
    levels: Vec<u32>,
    total: u32,
}

/// Takes the first six lines off `lines`. The error is the first fault, or `OutOfMemory`.
fn read_head(alloc: Global, lines: &mut Lines<'_>) -> Result<Head, CertFault>
    requires { FitsCount lines.old }
    ensures head { TakesHead lines.old.number lines.old.rest.now lines.new.number lines.new.rest.now
        result }
    ensures bound { StaysWithin lines.old lines.new }
{
    let format = lines.title()?;
    let inputs = lines.number(b"inputs", 1, 16)?;
    let outputs = lines.number(b"outputs", 1, 16)?;
    let numbers = lines.numbers(alloc, b"order", inputs as usize, 15)?;
    let order = variables(alloc, &numbers)?;
    let levels = lines.numbers(alloc, b"levels", inputs as usize, MOST_NODES)?;
    let total = lines.number(b"total", 0, MOST_NODES)?;
    Ok(Head {
        format,
        inputs: inputs as u8,
        outputs: outputs as u8,
        order,
        levels,
        total,
    })
}

/// Takes the lines of the listed sets, and the last line, off `lines`.
fn read_sets(alloc: Global, lines: &mut Lines<'_>, n: u8) -> Result<Vec<ListedCell>, CertFault>
    requires small { FitsCount lines.old }
    requires few { n ≤ 16 }
    ensures { TakesSets n lines.old.number lines.old.rest.now result }
{
    let cells = lines.cells(alloc, n)?;
    lines.end()?;
    Ok(cells)
}

/// Takes all lines after the first six off `lines`: the pairs, if the format has them, and the
/// sets.
fn read_body(
    alloc: Global,
    lines: &mut Lines<'_>,
    format: u8,
    n: u8,
) -> Result<(Option<Vec<(VarIx, VarIx)>>, Vec<ListedCell>), CertFault>
    requires small { FitsCount lines.old }
    requires known { (format ≡ 1) ⊎ (format ≡ 2) }
    requires some { 1 ≤ n }
    requires few { n ≤ 16 }
    ensures { TakesBody format n lines.old.number lines.old.rest.now result }
{
    if format == 1 {
        let cells = read_sets(alloc, lines, n)?;
        return Ok((None, cells));
    }
    let pairs = lines.pairs(alloc, n)?;
    let cells = read_sets(alloc, lines, n)?;
    Ok((Some(pairs), cells))
}

impl Certificate {
    /// The certificate, in either format, whose text is `text`. Time and memory are linear in its
    /// length.
    pub fn parse(alloc: Global, text: &[u8]) -> Result<Certificate, CertFault>
        ensures spelled { IfOk result (λ cert. text.now ≡ spelling cert) }
        ensures short { IfOk result (λ _. length text.now ≤ most_bytes) }
        ensures refused { IfErr result (FailsToParse text.now) }
    {
        if text.len() > MOST_BYTES {
            return Err(CertFault::TooLong);
        }
        let mut lines = Lines::of(text);
        let head = read_head(alloc, &mut lines)?;
        let (pairs, cells) = read_body(alloc, &mut lines, head.format, head.inputs)?;
        let parts = CertificateParts {
            inputs: head.inputs,
            outputs: head.outputs,
            order: head.order,
            levels: head.levels,
            total: head.total,
            pairs,
            cells,
        };
        match Certificate::from_parts(parts) {
            Some(cert) => Ok(cert),
            None => unreachable!(),
        }
    }
}
