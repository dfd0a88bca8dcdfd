//! Checks over devices that fail.

use crate::devices::{FailingReader, FailingWriter, Room, holds};
use check_runs::run_check;
use counted_io::Counting;
use outcomes::{Fault, Outcome};
use std::io::{ErrorKind, Read};
use std::thread::Threads;

static FILE: &[u8] = b".i 3\n.o 1\n.ilb a b s\n.ob f\n1-0 1\n-11 1\n.e\n";

/// The multiplexer's certificate in format 1, of 122 bytes.
static CERTIFICATE: &[u8] =
    b"bddorder-certificate 1\ninputs 3\noutputs 1\norder 2 0 1\nlevels 1 1 1\ntotal 3\ncells 5\n0000 0\n0001 1\n0002 1\n0003 2\n0004 2\nend\n";

static LINE: &[u8] = b"valid 3\n";

/// Whether a check has the outcome that is wanted, with `line` in its writer, which takes `room`
/// bytes.
fn ends<T: AllocGlobal + Threads + Sync, C: Read + Drop>(
    rt: &T,
    certificate: C,
    room: usize,
    wanted: Outcome,
    line: &[u8],
) -> bool {
    let mut file = Counting::new(FILE);
    let mut certificate = Counting::new(certificate);
    let mut out = Counting::new(FailingWriter::new(rt.alloc(), Room::of(room)));
    let outcome = run_check(rt, rt.alloc(), &mut file, &mut certificate, &mut out);
    let is_written = holds(out, line);
    outcome == wanted && is_written
}

/// Whether a check of a certificate whose reader fails after some calls ends as given. It is
/// 31 pieces of at most four bytes, and a call that finds the end.
fn ends_as_read<T: AllocGlobal + Threads + Sync>(
    rt: &T,
    calls_left: u32,
    error: ErrorKind,
) -> bool {
    let reader = FailingReader {
        rest: CERTIFICATE,
        calls_left,
        error,
    };
    let (wanted, line): (Outcome, &[u8]) = if calls_left < 32 {
        (Outcome::Refused(Fault::Device), &[])
    } else {
        (Outcome::Done, LINE)
    };
    ends(rt, reader, 100, wanted, line)
}

#[test]
fn readers_that_fail_leave_nothing(rt: HostRuntime) {
    for calls_left in 0..35 {
        assert!(rt; ends_as_read(&rt, calls_left, ErrorKind::Interrupted));
        assert!(rt; ends_as_read(&rt, calls_left, ErrorKind::Other));
    }
}

#[test]
fn writers_that_fail_hold_a_beginning(rt: HostRuntime) {
    for room in 0..LINE.len() {
        let failed = Outcome::Refused(Fault::Device);
        assert!(rt; ends(&rt, CERTIFICATE, room, failed, &LINE[..room]));
    }
}
