//! Formulas, as they are read.
use crate::units::UNITS;
use mt_plain::Codes;
use mt_reader::{ReadError, read_formula};
use mt_rules::{Body, MathList, Tag};
use mt_token::tokens;
use std::alloc::Global;
use std::process::Abort;

// A display as it is read.
fn display(rt: &impl Abort, alloc: Global, text: &[u8]) -> Result<(Body, Option<Tag>), ReadError> {
    let codes = Codes::plain(alloc).expect(rt, "memory");
    let list = tokens(alloc, text).expect(rt, "tokens");
    assert!(rt; list.len() < 1000);
    read_formula(alloc, &codes, UNITS, true, list.as_slice())
}

// The list that is the body of a formula.
fn list_of(body: &Body) -> Option<&MathList> {
    match body {
        Body::List(list) => Some(list),
        _ => None,
    }
}

#[test]
fn counts_items(rt: HostRuntime) {
    let alloc = rt.alloc();
    let counts: [(&[u8], usize); 5] = [
        (b"a_1'' + b", 3),
        (b"\\left(a\\right)b", 2),
        (b"\\mathchoice{a}{b} {c}{d}e", 2),
        (b"\\vcenter{\\hbox{$a$} \\hbox{$b$}}", 1),
        (b"a\\over b+c", 1),
    ];
    for (text, count) in counts {
        assert!(rt;
            display(&rt, alloc, text).is_ok_and(|(body, _)| list_of(&body).is_some_and(
                |list| list.len() == count
            ))
        );
    }
}
