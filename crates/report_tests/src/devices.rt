//! Readers and writers that fail.

use counted_io::Counting;
use std::alloc::Global;
use std::io;
use std::io::{ErrorKind, Read, Write};

/// A reader of bytes that fails once as many calls were made as are left.
#[derive(Drop)]
pub struct FailingReader<'a> {
    pub rest: &'a [u8],
    pub calls_left: u32,
    pub error: ErrorKind,
}

impl Read for FailingReader<'_> {
    fn read(&mut self, buf: &mut [u8]) -> io::Result<usize> {
        if self.calls_left == 0 {
            return Err(io::Error::from(self.error));
        }
        self.calls_left -= 1;
        let len = buf.len().min(4);
        self.rest.read(&mut buf[..len])
    }
}

/// How many bytes a writer takes in all, and how many at most a call.
#[derive(Clone, Copy)]
pub struct Room {
    pub bytes: usize,
    pub most_a_call: usize,
}

impl Room {
    /// Room for `bytes` bytes, by calls that take many bytes.
    pub fn of(bytes: usize) -> Room {
        Room {
            bytes,
            most_a_call: 1000,
        }
    }
}

/// Room for everything.
pub const AMPLE: Room = Room {
    bytes: 10_000_000,
    most_a_call: 10_000_000,
};

/// A writer that keeps what it takes, and fails once it has taken as many bytes as it may.
#[derive(Drop)]
pub struct FailingWriter {
    taken: Vec<u8>,
    left: Room,
}

impl FailingWriter {
    pub fn new(alloc: Global, room: Room) -> FailingWriter {
        FailingWriter {
            taken: Vec::new(alloc),
            left: room,
        }
    }
}

/// Whether a report's writer, or a check's, holds these bytes.
pub fn holds(writer: Counting<FailingWriter>, bytes: &[u8]) -> bool {
    writer.into_inner().taken.as_slice() == bytes
}

/// Whether there is a certificate's writer, which holds these bytes.
pub fn certificate_holds(writer: Option<Counting<FailingWriter>>, bytes: &[u8]) -> bool {
    match writer {
        Some(writer) => holds(writer, bytes),
        None => false,
    }
}

impl Write for FailingWriter {
    fn write(&mut self, buf: &[u8]) -> io::Result<usize> {
        let len = buf.len().min(self.left.bytes).min(self.left.most_a_call);
        if len == 0 && !buf.is_empty() {
            return Err(io::Error::from(ErrorKind::Other));
        }
        self.taken.extend_from_slice(&buf[..len])?;
        self.left.bytes -= len;
        Ok(len)
    }

    fn flush(&mut self) -> io::Result<()> {
        Ok(())
    }
}
