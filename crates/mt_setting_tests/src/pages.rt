//! The texts of small pages.
use mt_box::{PageList, Place};
use mt_pages::{listing, summary};
use mt_scaled::Items;
use std::alloc::Global;
use std::process::Abort;

// Pages of these places. Want of memory ends the process.
fn pages_of(rt: &impl Abort, alloc: Global, pages: &[&[Place]]) -> PageList {
    let mut list = Vec::new(alloc);
    for page in pages {
        let places = Vec::from_slice(alloc, page).expect(rt, "memory");
        list.push(Items::from_vec(places)).expect(rt, "memory");
    }
    Items::from_vec(list)
}

const GLYPH: Place = Place::Glyph {
    font: 3,
    code: 97,
    h: 0,
    v: 327680,
};

const RULE: Place = Place::Rule {
    h: -78643,
    v: -5,
    height: 26214,
    width: 229376,
};

/// A glyph and a rule, no place, a glyph.
const PAGES: &[&[Place]] = &[&[GLYPH, RULE], &[], &[GLYPH]];

const LISTING: &[u8] =
    b"page 1\ng 3 97 0 327680\nr -78643 -5 26214 229376\npage 2\npage 3\ng 3 97 0 327680\npages 3\n";

const SUMMARY: &[u8] = b"formulas 21\npages 3\nglyphs 2\nrules 1\n";

#[test]
fn lists_pages(rt: HostRuntime) {
    let alloc = rt.alloc();
    let pages = pages_of(&rt, alloc, PAGES);
    let text = listing(alloc, &pages).expect(&rt, "memory");
    assert!(rt; text.as_slice() == LISTING);
}

#[test]
fn sums_up_pages(rt: HostRuntime) {
    let alloc = rt.alloc();
    let pages = pages_of(&rt, alloc, PAGES);
    let text = summary(alloc, 21, &pages).expect(&rt, "memory");
    assert!(rt; text.as_slice() == SUMMARY);
}
