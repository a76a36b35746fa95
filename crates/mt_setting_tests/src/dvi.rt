//! Files written for pages, against bytes that another program made by the format's description.
ghost use Rattle.std.specs.Prelude.{All, IsSomeAnd, IsTrue};
ghost use Rattle.mt_dvi.specs.Fonts.{metrics_at};
ghost use Rattle.mt_dvi.specs.Writable.{HasGlyph, IsWritable, IsWritableRule};

use crate::fonts::four_fonts;
use crate::pieces::{glyph, rule};
use mt_box::{PageList, Place, PlaceList};
use mt_dvi::{DviBytes, DviWriteError, MoveForm, move_code, write_dvi};
use mt_family::FontSet;
use mt_scaled::in_range;
use std::alloc::{AllocError, Global};
use std::process::Abort;

const NO_PAGE: [u8; 56] = [
    247, 2, 1, 131, 146, 192, 28, 59, 0, 0, 0, 0, 3, 232, 0, 248, 255, 255, 255, 255, 1, 131, 146,
    192, 28, 59, 0, 0, 0, 0, 3, 232, 0, 0, 0, 0, 0, 0, 0, 0, 0, 0, 0, 0, 249, 0, 0, 0, 15, 2, 223,
    223, 223, 223, 223, 223,
];

// Three pages: two glyphs, a rule that goes by put since the next one is too far away, and a rule;
// nothing; a rule that goes by put, and a glyph.
const THREE_PAGES: [u8; 296] = [
    247, 2, 1, 131, 146, 192, 28, 59, 0, 0, 0, 0, 3, 232, 0, 139, 0, 0, 0, 1, 0, 0, 0, 0, 0, 0, 0,
    0, 0, 0, 0, 0, 0, 0, 0, 0, 0, 0, 0, 0, 0, 0, 0, 0, 0, 0, 0, 0, 0, 0, 0, 0, 0, 0, 0, 0, 255,
    255, 255, 255, 164, 5, 0, 0, 243, 3, 0, 0, 0, 0, 0, 10, 0, 0, 0, 10, 0, 0, 0, 4, 116, 111, 121,
    109, 174, 97, 97, 150, 246, 0, 5, 169, 250, 255, 250, 137, 0, 0, 0, 7, 63, 255, 255, 255, 156,
    191, 255, 255, 252, 162, 14, 132, 0, 0, 0, 9, 0, 0, 0, 1, 140, 139, 0, 0, 0, 2, 0, 0, 0, 0, 0,
    0, 0, 0, 0, 0, 0, 0, 0, 0, 0, 0, 0, 0, 0, 0, 0, 0, 0, 0, 0, 0, 0, 0, 0, 0, 0, 0, 0, 0, 0, 0, 0,
    0, 0, 15, 140, 139, 0, 0, 0, 3, 0, 0, 0, 0, 0, 0, 0, 0, 0, 0, 0, 0, 0, 0, 0, 0, 0, 0, 0, 0, 0,
    0, 0, 0, 0, 0, 0, 0, 0, 0, 0, 0, 0, 0, 0, 0, 0, 0, 0, 121, 151, 63, 255, 255, 255, 137, 0, 0,
    0, 1, 63, 255, 255, 255, 156, 128, 0, 0, 2, 162, 3, 174, 97, 140, 248, 0, 0, 0, 167, 1, 131,
    146, 192, 28, 59, 0, 0, 0, 0, 3, 232, 0, 5, 0, 0, 127, 255, 255, 254, 0, 0, 0, 3, 243, 3, 0, 0,
    0, 0, 0, 10, 0, 0, 0, 10, 0, 0, 0, 4, 116, 111, 121, 109, 249, 0, 0, 0, 236, 2, 223, 223, 223,
    223, 223,
];

// A page of eight places, with operands of one to four bytes and moves by each register.
const REGISTERS: [u8; 216] = [
    247, 2, 1, 131, 146, 192, 28, 59, 0, 0, 0, 0, 3, 232, 0, 139, 0, 0, 0, 1, 0, 0, 0, 0, 0, 0, 0,
    0, 0, 0, 0, 0, 0, 0, 0, 0, 0, 0, 0, 0, 0, 0, 0, 0, 0, 0, 0, 0, 0, 0, 0, 0, 0, 0, 0, 0, 255,
    255, 255, 255, 148, 5, 162, 1, 243, 3, 0, 0, 0, 0, 0, 10, 0, 0, 0, 10, 0, 0, 0, 4, 116, 111,
    121, 109, 174, 97, 154, 1, 44, 168, 255, 56, 132, 0, 0, 0, 3, 0, 0, 0, 4, 147, 161, 97, 152,
    166, 132, 0, 0, 0, 3, 0, 0, 0, 4, 150, 1, 17, 112, 164, 255, 99, 192, 97, 156, 255, 118, 171,
    192, 170, 0, 128, 0, 0, 132, 0, 0, 0, 3, 0, 0, 0, 4, 166, 97, 147, 132, 0, 0, 0, 3, 0, 0, 0, 4,
    140, 248, 0, 0, 0, 15, 1, 131, 146, 192, 28, 59, 0, 0, 0, 0, 3, 232, 0, 255, 98, 50, 0, 16, 19,
    218, 0, 0, 0, 1, 243, 3, 0, 0, 0, 0, 0, 10, 0, 0, 0, 10, 0, 0, 0, 4, 116, 111, 121, 109, 249,
    0, 0, 0, 156, 2, 223, 223, 223, 223, 223,
];

fn has_glyph(fonts: &FontSet, n: u16, code: u8) -> bool
    ensures { IsTrue result → IsSomeAnd (metrics_at fonts.now n) (λ metrics. HasGlyph metrics code) }
{
    match fonts.font(n) {
        Some(font) => {
            font.exists(code) && in_range(font.width(code)) && in_range(font.depth(code))
        }
        None => false,
    }
}

fn rule_is_writable(h: i64, v: i64, height: i64, width: i64) -> bool
    ensures { IsTrue result → IsWritableRule h v height width }
{
    if !in_range(h) {
        return false;
    }
    if !in_range(v) {
        return false;
    }
    if !in_range(height) {
        return false;
    }
    if !in_range(width) {
        return false;
    }
    height > 0 && width > 0
}

fn is_writable(fonts: &FontSet, place: Place) -> bool
    ensures { IsTrue result → IsWritable fonts.now place }
{
    match place {
        Place::Glyph { font, code, h, v } => {
            in_range(h) && in_range(v) && has_glyph(fonts, font, code)
        }
        Place::Rule {
            h,
            v,
            height,
            width,
        } => rule_is_writable(h, v, height, width),
    }
}

fn page_is_writable(fonts: &FontSet, page: &[Place]) -> bool
    ensures { IsTrue result → All (IsWritable fonts.now) page.now }
{
    for place in page {
        if !is_writable(fonts, *place) {
            return false;
        }
    }
    true
}

fn are_writable(fonts: &FontSet, pages: &PageList) -> bool
    ensures { IsTrue result → All (λ page. All (IsWritable fonts.now) page) pages.now }
{
    for page in pages.as_slice() {
        if !page_is_writable(fonts, page.as_slice()) {
            return false;
        }
    }
    true
}

fn written(
    rt: &impl Abort,
    alloc: Global,
    fonts: &FontSet,
    pages: &PageList,
) -> Result<DviBytes, DviWriteError> {
    assert!(rt; are_writable(fonts, pages));
    write_dvi(alloc, fonts, pages)
}

fn three_pages(alloc: Global) -> Result<PageList, AllocError> {
    let first = PlaceList::from_vec(vec![in alloc;
        glyph(3, 97, 0, 327680),
        glyph(3, 97, 327680, 327680),
        rule(5, -6, 7, 1073741823),
        rule(-1073741823, 8, 9, 1),
    ]?);
    let second = PlaceList::from_vec(Vec::new(alloc));
    let third = PlaceList::from_vec(vec![in alloc;
        rule(1073741823, 0, 1, 1073741823),
        glyph(3, 97, -1073741823, 3),
    ]?);
    Ok(PageList::from_vec(vec![in alloc; first, second, third]?))
}

fn eight_places(alloc: Global) -> Result<PageList, AllocError> {
    let page = PlaceList::from_vec(vec![in alloc;
        glyph(3, 97, 5, 1),
        rule(327985, -199, 3, 4),
        glyph(3, 97, 327994, -198),
        rule(655974, -398, 3, 4),
        glyph(3, 97, 725978, -40398),
        rule(-7946342, 8348210, 3, 4),
        glyph(3, 97, -7946338, 16736818),
        rule(-7548658, 16736818, 3, 4),
    ]?);
    Ok(PageList::from_vec(vec![in alloc; page]?))
}

fn gives(
    rt: &impl Abort,
    alloc: Global,
    fonts: &FontSet,
    pages: &PageList,
    want: &[u8],
) -> Result<bool, DviWriteError> {
    let bytes = written(rt, alloc, fonts, pages)?;
    Ok(bytes.as_slice() == want)
}

#[test]
fn writes_pages(rt: HostRuntime) {
    let alloc = rt.alloc();
    let fonts = four_fonts(&rt, alloc);
    let none = PageList::from_vec(Vec::new(alloc));
    assert!(rt; gives(&rt, alloc, &fonts, &none, &NO_PAGE).expect(&rt, "memory"));
    let three = three_pages(alloc).expect(&rt, "memory");
    assert!(rt; gives(&rt, alloc, &fonts, &three, &THREE_PAGES).expect(&rt, "memory"));
    let eight = eight_places(alloc).expect(&rt, "memory");
    assert!(rt; gives(&rt, alloc, &fonts, &eight, &REGISTERS).expect(&rt, "memory"));
}

#[test]
fn refuses_too_many_pages(rt: HostRuntime) {
    let alloc = rt.alloc();
    let fonts = four_fonts(&rt, alloc);
    let mut pages = Vec::new(alloc);
    for _ in 0..65536 {
        pages
            .push(PlaceList::from_vec(Vec::new(alloc)))
            .expect(&rt, "memory");
    }
    let pages = PageList::from_vec(pages);
    assert_eq!(rt;
        written(&rt, alloc, &fonts, &pages).err(),
        Some(DviWriteError::TooManyPages(65536))
    );
}

#[test]
fn chooses_the_form_of_a_move(rt: HostRuntime) {
    // Beside registers of 5 and 6, or of twice 6.
    let forms = [
        (5, MoveForm::First),
        (6, MoveForm::Second),
        (127, MoveForm::Bytes(1)),
        (128, MoveForm::Bytes(2)),
        (-128, MoveForm::Bytes(1)),
        (-129, MoveForm::Bytes(2)),
        (32768, MoveForm::Bytes(3)),
        (-8388608, MoveForm::Bytes(3)),
        (8388608, MoveForm::Bytes(4)),
        (-2147483647, MoveForm::Bytes(4)),
    ];
    for (length, form) in forms {
        assert!(rt; move_code(length, 5, 6) == form);
    }
    assert!(rt; move_code(0, 0, 6) == MoveForm::None);
    assert!(rt; move_code(6, 6, 6) == MoveForm::First);
}
