//! Readers and writers that count their failed calls.

ghost use Rattle.std.specs.Prelude.{◌≡◌, ◌&&◌, ◌==◌, ℕ, List, None, Option, is_ok, if◌then◌else◌};
ghost use Rattle.std.specs.Io.KnownBytes.{ReadConsumes, WriteAppends};
ghost use Rattle.std.specs.Io.{ReadsAtMost, WritesAtMost};
ghost use Rattle.counted_io.specs.Counts.{one_more};
ghost use Rattle.counted_io.specs.Writing.{has_failed};

use std::io;
use std::io::{Read, Write};
use std::marker::Model;

/// A reader that counts its failed calls.
pub trait CountedRead {
    // The bytes that reads will give from here on, if they are known.
    ghost remaining: { Self → Option (List ℕ) } = { λ _. None };
    // The failed calls, counted up to the greatest value of a u64.
    ghost failures: { Self → ℕ };

    /// Reads bytes as std's `Read::read` does. The count rises with each error.
    fn read_some(&mut self, buf: &mut [u8]) -> io::Result<usize>
        ensures bound { ReadsAtMost result buf.new }
        ensures bytes { ReadConsumes (remaining self.old) (remaining self.new) result buf.new }
        ensures counted { failures self.new
            ≡ (if is_ok result then failures self.old else one_more (failures self.old)) };
}

/// A writer that counts its failed calls: those that fail, or take no byte of a text with some.
pub trait CountedWrite {
    // The bytes that the writer holds, if they are known.
    ghost contents: { Self → Option (List ℕ) } = { λ _. None };
    // The failed calls, counted up to the greatest value of a u64.
    ghost failures: { Self → ℕ };

    /// Writes bytes as std's `Write::write` does.
    fn write_some(&mut self, buf: &[u8]) -> io::Result<usize>
        ensures bound { WritesAtMost result buf.now }
        ensures bytes { WriteAppends (contents self.old) (contents self.new) result buf.now }
        ensures counted { failures self.new ≡ (if has_failed result buf.now
            then one_more (failures self.old) else failures self.old) };
}

/// A reader or a writer with a count of its failed calls.
#[derive(Drop)]
pub struct Counting<T> {
    inner: T,
    failed: u64,
}

impl<T> Model for Counting<T> {
    ghost use Rattle.counted_io.specs.Counted.{Counted, counted_code};

    ghost Value = { Counted T };

    ghost coded = { counted_code T.code };

    ghost view = { λ c. record { device = c.inner; failed = c.failed } };
}

impl<T> Counting<T> {
    /// The reader or writer `inner`, with no failed call counted so far.
    pub fn new(inner: T) -> Counting<T>
        ensures device { result.device ≡ inner }
        ensures failed { result.failed ≡ 0 }
    {
        Counting { inner, failed: 0 }
    }

    /// Returns the reader or writer without its count.
    pub fn into_inner(self) -> T
        ensures { result ≡ self.device }
    {
        let Counting { inner, failed: _ } = self;
        inner
    }
}

impl<T: Read> CountedRead for Counting<T> {
    ghost remaining = { λ c. T.remaining c.device };

    ghost failures = { λ c. c.failed };

    fn read_some(&mut self, buf: &mut [u8]) -> io::Result<usize> {
        let result = self.inner.read(buf);
        if result.is_err() {
            self.failed = self.failed.saturating_add(1);
        }
        result
    }
}

impl<T: Write> CountedWrite for Counting<T> {
    ghost contents = { λ c. T.contents c.device };

    ghost failures = { λ c. c.failed };

    fn write_some(&mut self, buf: &[u8]) -> io::Result<usize> {
        let result = self.inner.write(buf);
        let failed = match &result {
            Ok(n) => *n == 0 && !buf.is_empty(),
            Err(_) => true,
        };
        if failed {
            self.failed = self.failed.saturating_add(1);
        }
        result
    }
}
