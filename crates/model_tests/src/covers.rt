//! What is held of a cover that was read.

use counted_io::Counting;
use order_model::Term;
use pla_reader::{Cover, read_cover};
use std::alloc::Global;
use std::process::Abort;

/// A multiplexer: two products of the variables a, b and s.
static NAMED: &[u8] = b".i 3\n.o 1\n.ilb a b s\n.ob f\n1-0 1\n-11 1\n.e\n";

/// Two functions without names.
static UNNAMED: &[u8] = b".i 2\n.o 2\n.type f\n1- 1-\n-1 -1\n.e\n";

fn are_names(names: &[String], wanted: &[&str]) -> bool {
    for (i, name) in wanted.iter().enumerate() {
        match names.get(i) {
            Some(found) if found.as_str() == *name => {}
            _ => return false,
        }
    }
    names.len() == wanted.len()
}

fn is_term(term: &Term, parts: (u16, u16, u16)) -> bool {
    (term.care, term.value, term.outs) == parts
}

fn is_named(cover: &Cover, inputs: &[&str], outputs: &[&str]) -> bool {
    are_names(cover.input_names(), inputs) && are_names(cover.output_names(), outputs)
}

fn is_multiplexer(cover: &Cover) -> bool {
    match cover.terms() {
        [a, b] => {
            cover.inputs() == 3
                && cover.outputs() == 1
                && is_term(a, (5, 1, 1))
                && is_term(b, (6, 6, 1))
        }
        _ => false,
    }
}

fn cover_of(rt: &impl Abort, alloc: Global, text: &[u8]) -> Cover {
    read_cover(alloc, &mut Counting::new(text)).expect(rt, "a cover")
}

#[test]
fn covers_hold_what_was_read(rt: HostRuntime) {
    let named = cover_of(&rt, rt.alloc(), NAMED);
    assert!(rt; is_named(&named, &["a", "b", "s"], &["f"]) && is_multiplexer(&named));
    let unnamed = cover_of(&rt, rt.alloc(), UNNAMED);
    assert!(rt; is_named(&unnamed, &["x0", "x1"], &["y0", "y1"]));
}
