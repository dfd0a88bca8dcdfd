//! Runs over devices that fail.

use crate::devices::{AMPLE, FailingReader, FailingWriter, Room, certificate_holds, holds};
use counted_io::Counting;
use order_model::Workers;
use outcomes::{Fault, Outcome};
use report::{Output, RunPlan, run};
use std::io::{ErrorKind, Read};
use std::process::Abort;
use std::thread::Threads;

/// The multiplexer, its report, and its certificate.
static FILE: &[u8] = b".i 3\n.o 1\n.ilb a b s\n.ob f\n1-0 1\n-11 1\n.e\n";

static REPORT: &[u8] =
    b"order: 2 0 1\nnames: s a b\nlevels: 1 1 1\nnodes: 3\nsifted order: 2 0 1\nsifted nodes: 3\nfile order nodes: 5\n";

static CERTIFICATE: &[u8] =
    b"bddorder-certificate 2\ninputs 3\noutputs 1\norder 2 0 1\nlevels 1 1 1\ntotal 3\npairs 0\ncells 0\nend\n";

/// How a run ends, and what the writers of the report and of the certificate then hold.
#[derive(Clone, Copy)]
struct Ending<'a> {
    outcome: Outcome,
    report: &'a [u8],
    certificate: &'a [u8],
}

const DONE: Ending<'static> = Ending {
    outcome: Outcome::Done,
    report: REPORT,
    certificate: CERTIFICATE,
};

/// How a run ends of which a device fails, with these texts.
fn failed<'a>(report: &'a [u8], certificate: &'a [u8]) -> Ending<'a> {
    Ending {
        outcome: Outcome::Refused(Fault::Device),
        report,
        certificate,
    }
}

/// Whether a run of two workers over a reader, with this output, ends so with writers of this room.
fn ends<T: Abort + AllocGlobal + Threads + Sync, R: Read + Drop>(
    rt: &T,
    output: Output,
    reader: R,
    report: Room,
    certificate: Room,
    wanted: &Ending<'_>,
) -> bool {
    let plan = RunPlan {
        workers: Workers::new(2).expect(rt, "two workers"),
        output,
        above: None,
    };
    let mut file = Counting::new(reader);
    let mut report = Counting::new(FailingWriter::new(rt.alloc(), report));
    let mut certificate = Some(Counting::new(FailingWriter::new(rt.alloc(), certificate)));
    let outcome = run(
        rt,
        rt.alloc(),
        &plan,
        &mut file,
        &mut report,
        &mut certificate,
    );
    let is_reported = holds(report, wanted.report);
    let is_certified = certificate_holds(certificate, wanted.certificate);
    outcome == wanted.outcome && is_reported && is_certified
}

/// Whether a run over a reader that fails after some calls leaves nothing, and one whose reader
/// doesn't fail ends well. The file is eleven pieces of at most four bytes, and a call that finds
/// the end.
fn ends_as_read<T: Abort + AllocGlobal + Threads + Sync>(
    rt: &T,
    calls_left: u32,
    error: ErrorKind,
) -> bool {
    let reader = FailingReader {
        rest: FILE,
        calls_left,
        error,
    };
    let wanted = if calls_left < 12 {
        failed(&[], &[])
    } else {
        DONE
    };
    ends(rt, Output::Report, reader, AMPLE, AMPLE, &wanted)
}

#[test]
fn readers_that_fail_leave_nothing(rt: HostRuntime) {
    for calls_left in 0..20 {
        assert!(rt; ends_as_read(&rt, calls_left, ErrorKind::Interrupted));
        assert!(rt; ends_as_read(&rt, calls_left, ErrorKind::Other));
    }
}

#[test]
fn writers_that_fail_hold_a_beginning(rt: HostRuntime) {
    for bytes in 0..REPORT.len() {
        let wanted = failed(&REPORT[..bytes], CERTIFICATE);
        assert!(rt; ends(&rt, Output::Report, FILE, Room::of(bytes), AMPLE, &wanted));
    }
    for bytes in 0..CERTIFICATE.len() {
        let wanted = failed(&[], &CERTIFICATE[..bytes]);
        assert!(rt; ends(&rt, Output::Report, FILE, AMPLE, Room::of(bytes), &wanted));
    }
}

/// What the multiplexer's level counts, figures and sizes are.
static COUNTED: &[u8] = b"levels: 1 2 2\nnodes: 5\n";

static FIGURES: &[u8] =
    b"orders: 6\nnodes: 3\noptimal orders: 2\nmost nodes: 5\nworst orders: 2\nmean nodes: 4.00\nsifted nodes: 3\norders below sifted: 0\n";

static SIZES: &[u8] = b"3 2\n4 2\n5 2\n";

/// How a run ends that writes this text, and no certificate.
fn alone<'a>(report: &'a [u8]) -> Ending<'a> {
    Ending {
        outcome: Outcome::Done,
        report,
        certificate: &[],
    }
}

#[test]
fn slow_writers_hold_all_and_reports_alone_have_certificates(rt: HostRuntime) {
    let slow = Room {
        bytes: 1000,
        most_a_call: 1,
    };
    assert!(rt; ends(&rt, Output::Report, FILE, slow, slow, &DONE));
    assert!(rt; ends(&rt, Output::Count, FILE, AMPLE, AMPLE, &alone(COUNTED)));
    assert!(rt; ends(&rt, Output::Orders, FILE, slow, AMPLE, &alone(FIGURES)));
    assert!(rt; ends(&rt, Output::Sizes, FILE, slow, AMPLE, &alone(SIZES)));
}
