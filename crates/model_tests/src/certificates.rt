//! Certificates and their texts.

use certificate::{Certificate, CertificateParts};
use order_model::{ListedCell, VarIx};
use std::alloc::Global;
use std::process::Abort;

/// The multiplexer's certificate in format 1.
const MULTIPLEXER: &str =
    "bddorder-certificate 1\ninputs 3\noutputs 1\norder 2 0 1\nlevels 1 1 1\ntotal 3\ncells 5\n0000 0\n0001 1\n0002 1\n0003 2\n0004 2\nend\n";

/// Its certificate in format 2, with variable 0 above variable 2.
const ABOVE: &str =
    "bddorder-certificate 2\ninputs 3\noutputs 1\norder 0 2 1\nlevels 1 2 1\ntotal 4\npairs 1\n0 2\ncells 2\n0000 0\n0002 1\nend\n";

/// A certificate with the largest numbers.
const LARGEST: &str =
    "bddorder-certificate 2\ninputs 16\noutputs 16\norder 15 15 15 15 15 15 15 15 15 15 15 15 15 15 15 15\n\
    levels 999999 0 0 0 0 0 0 0 0 0 0 0 0 0 0 0\ntotal 999999\npairs 2\n14 15\n15 0\ncells 3\n00ff 10\n0abc 999999\nfffe 0\nend\n";

/// Sets with their costs.
macro_rules! cells {
    ($(($mask:expr, $cost:expr)),*) => {
        &[$(ListedCell { mask: $mask, cost: $cost }),*]
    };
}

/// The parts of a certificate: its numbers of inputs and outputs, order, level counts, total, pairs
/// and listed sets.
type Parts = (
    (u8, u8),
    &'static [VarIx],
    &'static [u32],
    u32,
    Option<&'static [(VarIx, VarIx)]>,
    &'static [ListedCell],
);

fn certificate_of(rt: &impl Abort, alloc: Global, parts: &Parts) -> Option<Certificate> {
    let ((inputs, outputs), order, levels, total, pairs, cells) = parts;
    let pairs = match pairs {
        None => None,
        Some(pairs) => Some(pairs.to_vec(alloc).expect(rt, "memory")),
    };
    Certificate::from_parts(CertificateParts {
        inputs: *inputs,
        outputs: *outputs,
        order: order.to_vec(alloc).expect(rt, "memory"),
        levels: levels.to_vec(alloc).expect(rt, "memory"),
        total: *total,
        pairs,
        cells: cells.to_vec(alloc).expect(rt, "memory"),
    })
}

/// Parts that have a spelling, with it.
static SPELLED: [(Parts, &str); 3] = [
    (
        (
            (3, 1),
            &[2, 0, 1],
            &[1, 1, 1],
            3,
            None,
            cells![(0, 0), (1, 1), (2, 1), (3, 2), (4, 2)],
        ),
        MULTIPLEXER,
    ),
    (
        (
            (3, 1),
            &[0, 2, 1],
            &[1, 2, 1],
            4,
            Some(&[(0, 2)]),
            cells![(0, 0), (2, 1)],
        ),
        ABOVE,
    ),
    (
        (
            (16, 16),
            &[15; 16],
            &[999_999, 0, 0, 0, 0, 0, 0, 0, 0, 0, 0, 0, 0, 0, 0, 0],
            999_999,
            Some(&[(14, 15), (15, 0)]),
            cells![(0xff, 10), (0xabc, 999_999), (0xfffe, 0)],
        ),
        LARGEST,
    ),
];

/// Parts that have none.
static UNSPELLED: [Parts; 17] = [
    ((0, 1), &[], &[], 0, None, &[]),
    ((1, 0), &[0], &[0], 0, None, &[]),
    ((1, 17), &[0], &[0], 0, None, &[]),
    ((17, 1), &[0; 17], &[0; 17], 0, None, &[]),
    ((2, 1), &[0], &[0, 0], 0, None, &[]),
    ((1, 1), &[16], &[0], 0, None, &[]),
    ((1, 1), &[0], &[], 0, None, &[]),
    ((1, 1), &[0], &[1_000_000], 0, None, &[]),
    ((1, 1), &[0], &[0], 1_000_000, None, &[]),
    ((1, 1), &[0], &[0], 0, None, cells![(1, 0)]),
    ((1, 1), &[0], &[0], 0, None, cells![(0, 1_000_000)]),
    ((2, 1), &[0, 1], &[0, 0], 0, None, cells![(1, 0), (0, 0)]),
    ((2, 1), &[0, 1], &[0, 0], 0, None, cells![(1, 0), (1, 0)]),
    ((2, 1), &[0, 1], &[0, 0], 0, Some(&[(0, 2)]), &[]),
    ((2, 1), &[0, 1], &[0, 0], 0, Some(&[(2, 0)]), &[]),
    ((2, 1), &[0, 1], &[0, 0], 0, Some(&[(1, 0), (0, 1)]), &[]),
    ((2, 1), &[0, 1], &[0, 0], 0, Some(&[(0, 1), (0, 1)]), &[]),
];

fn is_of(cert: &Certificate, parts: &Parts) -> bool {
    let ((inputs, outputs), order, levels, total, pairs, cells) = parts;
    let format = if pairs.is_some() { 2 } else { 1 };
    [cert.format(), cert.inputs(), cert.outputs()] == [format, *inputs, *outputs]
        && cert.order() == *order
        && cert.levels() == *levels
        && cert.total() == *total
        && cert.pairs() == pairs.unwrap_or(&[])
        && cert.cells() == *cells
}

fn is_written(rt: &impl Abort, alloc: Global, parts: &Parts, spelling: &str) -> bool {
    let cert = certificate_of(rt, alloc, parts).expect(rt, "a certificate");
    let text = cert.text(alloc).expect(rt, "memory");
    is_of(&cert, parts) && text.as_str() == spelling
}

fn is_read(rt: &impl Abort, alloc: Global, parts: &Parts, spelling: &str) -> bool {
    let cert = Certificate::parse(alloc, spelling.as_bytes()).expect(rt, "a certificate");
    is_of(&cert, parts)
}

#[test]
fn spellings_are_written_and_read(rt: HostRuntime) {
    for (parts, spelling) in &SPELLED {
        assert!(rt; is_written(&rt, rt.alloc(), parts, spelling));
        assert!(rt; is_read(&rt, rt.alloc(), parts, spelling));
    }
}

#[test]
fn other_parts_have_no_spelling(rt: HostRuntime) {
    for parts in &UNSPELLED {
        assert!(rt; certificate_of(&rt, rt.alloc(), parts).is_none());
    }
}

#[test]
fn format_2_may_have_no_pairs(rt: HostRuntime) {
    let alloc = rt.alloc();
    let order = [0].to_vec(alloc).expect(&rt, "memory");
    let levels = [1].to_vec(alloc).expect(&rt, "memory");
    let made = Certificate::new2(1, 1, order, levels, 1, Vec::new(alloc), Vec::new(alloc));
    let cert = made.expect(&rt, "a spelling");
    assert!(rt; cert.format() == 2 && cert.pairs().is_empty());
}
