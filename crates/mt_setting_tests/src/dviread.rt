//! Files, and what is read in them.
use crate::fonts::four_fonts;
use crate::pieces::{glyph, rule};
use mt_box::{PageList, Place};
use mt_dviread::{DviError, read_dvi};
use mt_family::FontSet;
use std::alloc::Global;

// A page of one glyph.
const ONE_GLYPH: [u8; 148] = [
    247, 2, 1, 131, 146, 192, 28, 59, 0, 0, 0, 0, 3, 232, 0, 139, 0, 0, 0, 1, 0, 0, 0, 0, 0, 0, 0,
    0, 0, 0, 0, 0, 0, 0, 0, 0, 0, 0, 0, 0, 0, 0, 0, 0, 0, 0, 0, 0, 0, 0, 0, 0, 0, 0, 0, 0, 255,
    255, 255, 255, 243, 3, 0, 0, 0, 0, 0, 10, 0, 0, 0, 10, 0, 0, 0, 4, 116, 111, 121, 109, 174,
    160, 0, 5, 0, 0, 97, 140, 248, 0, 0, 0, 15, 1, 131, 146, 192, 28, 59, 0, 0, 0, 0, 3, 232, 0, 5,
    0, 0, 0, 5, 0, 0, 0, 0, 0, 1, 243, 3, 0, 0, 0, 0, 0, 10, 0, 0, 0, 10, 0, 0, 0, 4, 116, 111,
    121, 109, 249, 0, 0, 0, 88, 2, 223, 223, 223, 223, 223,
];

// The offsets of its opcodes.
const STARTS: [u64; 10] = [0, 15, 60, 80, 81, 86, 87, 88, 117, 137];

// A page with w, x, y, z0, push, pop, put, a special, fnt_num and fnt1.
const MOVES: [u8; 197] = [
    247, 2, 1, 131, 146, 192, 28, 59, 0, 0, 0, 0, 3, 232, 0, 139, 0, 0, 0, 1, 0, 0, 0, 0, 0, 0, 0,
    0, 0, 0, 0, 0, 0, 0, 0, 0, 0, 0, 0, 0, 0, 0, 0, 0, 0, 0, 0, 0, 0, 0, 0, 0, 0, 0, 0, 0, 255,
    255, 255, 255, 243, 3, 0, 0, 0, 0, 0, 10, 0, 0, 0, 10, 0, 0, 0, 4, 116, 111, 121, 109, 174,
    141, 146, 127, 255, 255, 255, 142, 148, 100, 147, 161, 97, 154, 255, 156, 152, 157, 5, 162, 1,
    166, 132, 0, 0, 0, 0, 0, 0, 0, 5, 137, 0, 0, 0, 7, 0, 0, 0, 9, 133, 97, 239, 2, 1, 2, 138, 141,
    97, 141, 142, 142, 235, 3, 128, 97, 140, 248, 0, 0, 0, 15, 1, 131, 146, 192, 28, 59, 0, 0, 0,
    0, 3, 232, 0, 5, 0, 0, 0, 5, 0, 0, 0, 2, 0, 1, 243, 3, 0, 0, 0, 0, 0, 10, 0, 0, 0, 10, 0, 0, 0,
    4, 116, 111, 121, 109, 249, 0, 0, 0, 137, 2, 223, 223, 223, 223, 223,
];

fn moved() -> [Place; 5] {
    [
        glyph(3, 97, 200, 0),
        rule(327685, 6, 7, 9),
        glyph(3, 97, 327685, 6),
        glyph(3, 97, 327685, 6),
        glyph(3, 97, 327685, 6),
    ]
}

// What TeX made of three pages in a magnification of 1200, with specials, push and pop, w, a rule by
// put_rule, definitions of fonts inside a page, and other counts than the page's number.
const BY_TEX: [u8; 468] = [
    247, 2, 1, 131, 146, 192, 28, 59, 0, 0, 0, 0, 4, 176, 27, 32, 84, 101, 88, 32, 111, 117, 116,
    112, 117, 116, 32, 50, 48, 50, 54, 46, 49, 49, 46, 50, 55, 58, 50, 48, 52, 49, 139, 0, 0, 0, 1,
    0, 0, 0, 5, 255, 255, 255, 249, 0, 0, 0, 0, 0, 0, 0, 0, 0, 0, 0, 0, 0, 0, 0, 0, 0, 0, 0, 0, 0,
    0, 0, 0, 0, 0, 0, 0, 255, 255, 255, 255, 159, 5, 128, 0, 141, 243, 50, 0, 0, 0, 0, 0, 10, 0, 0,
    0, 10, 0, 0, 0, 4, 116, 111, 121, 114, 221, 97, 97, 239, 1, 115, 150, 3, 0, 0, 97, 141, 159,
    254, 0, 0, 243, 51, 0, 0, 0, 0, 0, 7, 0, 0, 0, 10, 0, 0, 0, 4, 116, 111, 121, 114, 222, 97, 97,
    147, 97, 147, 97, 142, 145, 20, 0, 0, 159, 1, 0, 0, 132, 0, 4, 0, 0, 0, 2, 0, 0, 159, 255, 0,
    0, 243, 52, 0, 0, 0, 0, 0, 10, 0, 0, 0, 10, 0, 0, 0, 4, 116, 111, 121, 109, 223, 97, 145, 255,
    0, 0, 221, 97, 142, 159, 7, 0, 0, 137, 0, 1, 0, 0, 0, 9, 0, 0, 159, 10, 0, 0, 141, 145, 253, 0,
    0, 223, 97, 141, 146, 0, 200, 0, 0, 159, 70, 0, 0, 97, 142, 142, 140, 139, 0, 0, 0, 2, 0, 0, 0,
    5, 255, 255, 255, 249, 0, 0, 0, 0, 0, 0, 0, 0, 0, 0, 0, 0, 0, 0, 0, 0, 0, 0, 0, 0, 0, 0, 0, 0,
    0, 0, 0, 0, 0, 0, 0, 42, 140, 139, 0, 0, 0, 3, 0, 0, 0, 5, 255, 255, 255, 249, 0, 0, 0, 0, 0,
    0, 0, 0, 0, 0, 0, 0, 0, 0, 0, 0, 0, 0, 0, 0, 0, 0, 0, 0, 0, 0, 0, 0, 0, 0, 0, 244, 159, 5, 0,
    0, 141, 222, 97, 144, 27, 88, 97, 141, 141, 144, 27, 158, 221, 97, 142, 142, 145, 5, 27, 158,
    239, 3, 97, 98, 99, 142, 140, 248, 0, 0, 1, 34, 1, 131, 146, 192, 28, 59, 0, 0, 0, 0, 4, 176,
    0, 92, 128, 0, 0, 207, 0, 0, 0, 3, 0, 3, 243, 52, 0, 0, 0, 0, 0, 10, 0, 0, 0, 10, 0, 0, 0, 4,
    116, 111, 121, 109, 243, 51, 0, 0, 0, 0, 0, 7, 0, 0, 0, 10, 0, 0, 0, 4, 116, 111, 121, 114,
    243, 50, 0, 0, 0, 0, 0, 10, 0, 0, 0, 10, 0, 0, 0, 4, 116, 111, 121, 114, 249, 0, 0, 1, 110, 2,
    223, 223, 223, 223, 223, 223, 223,
];

// The places of the pages of BY_TEX, as DVItype tells them.
fn first_by_tex() -> [Place; 13] {
    [
        glyph(0, 97, 0, 360448),
        glyph(0, 97, 327680, 360448),
        glyph(0, 97, 851968, 360448),
        glyph(1, 97, 1179648, 229376),
        glyph(1, 97, 1409024, 229376),
        glyph(1, 97, 1835008, 229376),
        glyph(1, 97, 2260992, 229376),
        rule(2490368, 425984, 262144, 131072),
        glyph(3, 97, 2621440, 360448),
        glyph(0, 97, 2883584, 360448),
        rule(0, 819200, 65536, 589824),
        glyph(3, 97, -196608, 1474560),
        glyph(3, 97, 13238272, 6062080),
    ]
}

fn last_by_tex() -> [Place; 3] {
    [
        glyph(1, 97, 0, 327680),
        glyph(1, 97, 236376, 327680),
        glyph(0, 97, 472822, 327680),
    ]
}

// Whether a page of a file has these places.
fn has_page(pages: &PageList, number: usize, places: &[Place]) -> bool {
    match pages.get(number) {
        Some(page) => page.as_slice() == places,
        None => false,
    }
}

fn fault(alloc: Global, fonts: &FontSet, bytes: &[u8]) -> Option<DviError> {
    read_dvi(alloc, fonts, bytes).err()
}

#[test]
fn reads_one_glyph_and_refuses_its_parts(rt: HostRuntime) {
    let alloc = rt.alloc();
    let fonts = four_fonts(&rt, alloc);
    let pages = read_dvi(alloc, &fonts, &ONE_GLYPH).expect(&rt, "a file");
    assert!(rt; pages.len() == 1 && has_page(&pages, 0, &[glyph(3, 97, 0, 327680)]));
    let mut start = 0;
    for long in 0..147 {
        if STARTS.contains(&(long as u64)) {
            start = long as u64;
        }
        let cut = fault(alloc, &fonts, &ONE_GLYPH[..long]);
        assert_eq!(rt; cut, Some(DviError::Truncated(start)));
    }
    assert_eq!(rt; fault(alloc, &fonts, &ONE_GLYPH[..147]), None);
}

#[test]
fn reads_moves_and_a_file_of_tex(rt: HostRuntime) {
    let alloc = rt.alloc();
    let fonts = four_fonts(&rt, alloc);
    let pages = read_dvi(alloc, &fonts, &MOVES).expect(&rt, "a file");
    assert!(rt; pages.len() == 1 && has_page(&pages, 0, &moved()));
    let pages = read_dvi(alloc, &fonts, &BY_TEX).expect(&rt, "a file");
    assert!(rt; pages.len() == 3 && has_page(&pages, 0, &first_by_tex()));
    assert!(rt; has_page(&pages, 1, &[]) && has_page(&pages, 2, &last_by_tex()));
}
