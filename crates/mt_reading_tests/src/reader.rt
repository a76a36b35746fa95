//! Documents, as they are read.
use crate::units::UNITS;
use mt_reader::read_document;
use mt_rules::{Body, Document};
use std::alloc::Global;
use std::process::Abort;

fn document(rt: &impl Abort, alloc: Global, source: &[u8]) -> Document {
    read_document(alloc, UNITS, source).expect(rt, "the source is at fault")
}

// How many items the first formula of the first page has, which is a list.
fn first_items(document: &Document) -> Option<usize> {
    let page = document.get(0)?;
    let formula = page.get(0)?;
    match &formula.body {
        Body::List(list) => Some(list.len()),
        Body::Equations { .. } | Body::Lines(_) => None,
    }
}

#[test]
fn reads_pages(rt: HostRuntime) {
    let alloc = rt.alloc();
    assert!(rt; document(&rt, alloc, b"").is_empty());
    let pages = document(&rt, alloc, b"$a$\\eject\\eject $$b$$");
    assert!(rt; pages.len() == 2);
    assert!(rt;
        pages.get(1).is_some_and(|page| page.get(0).is_some_and(|f| f.number == 2 && f.display))
    );
}

#[test]
fn reads_macros(rt: HostRuntime) {
    let alloc = rt.alloc();
    let macros = document(&rt, alloc, b"\\def\\x#1{#1#1#1}$\\x{ab}$");
    assert!(rt; first_items(&macros) == Some(6));
}
