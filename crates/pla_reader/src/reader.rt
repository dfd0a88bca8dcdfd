ghost use Rattle.std.specs.Prelude.{◌≡◌, IfOk, IfSome, OnOk};
ghost use Rattle.std.specs.Io.KnownBytes.{IsAtEnd};
ghost use Rattle.pla_reader.specs.Covers.{IsCover};
ghost use Rattle.pla_reader.specs.Answering.{Answers, IsReading, failed_after};

use crate::cover::Cover;
use crate::errors::PlaError;
use crate::lines::first_line;
use crate::progress::{LineError, Progress};
use crate::statements::statement_of;
use counted_io::{CountedRead, Refused, read_all};
use std::alloc::Global;

/// The most bytes that an input may have: 16 MiB.
pub const MOST_BYTES: usize = 16_777_216;

/// The cover that the PLA description `bytes` states, of any length. Lines after `.e` or `.end` are
/// ignored.
pub fn read_bytes(alloc: Global, bytes: &[u8]) -> Result<Cover, PlaError>
    ensures { Answers bytes.now result }
{
    let mut progress = Progress::new(alloc);
    let mut rest = bytes;
    let mut number = 0;
    while !rest.is_empty() {
        let (line, after) = first_line(rest);
        number += 1;
        rest = after;
        let statement = statement_of(line);
        if statement.is_end() {
            return progress.finish(alloc, number);
        }
        match progress.take(alloc, statement) {
            Ok(()) => {}
            Err(LineError::Memory) => return Err(PlaError::OutOfMemory),
            Err(LineError::Fault(fault)) => return Err(PlaError::Line(number, fault)),
        }
    }
    progress.finish(alloc, number)
}

/// Reads `reader` to its end, and returns the cover of its PLA description (espresso(5), logical
/// types f and fd). All bytes are read before a fault is looked for. Time and memory are linear in
/// their number.
pub fn read_cover<R: CountedRead>(alloc: Global, reader: &mut R) -> Result<Cover, PlaError>
    ensures answer { IfSome (R.remaining reader.old) (λ bytes. IsReading bytes result) }
    ensures formed { IfOk result IsCover }
    ensures end { OnOk result (IsAtEnd (R.remaining reader.new)) }
    ensures calls { R.failures reader.new ≡ failed_after result (R.failures reader.old) }
{
    match read_all(alloc, reader, MOST_BYTES) {
        Ok(bytes) => read_bytes(alloc, &bytes),
        Err(Refused::TooLong) => Err(PlaError::TooLong),
        Err(Refused::Device) => Err(PlaError::Device),
        Err(Refused::OutOfMemory) => Err(PlaError::OutOfMemory),
    }
}
