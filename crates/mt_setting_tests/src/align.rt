//! Tables of letters of the toy fonts, reckoned by hand.
ghost use Rattle.std.specs.Prelude.{All, length, ◌≡◌, ◌≤◌, ◌+◌, ◌^◌};

use crate::pieces::{LETTER, glyph};
use mt_align::{CellRow, CellRows, align_equations, align_matrix};
use mt_box::{Extents, Packed, glyph_box, places};
use mt_family::Size;
use mt_samples::toy_fonts;
use std::alloc::Global;
use std::process::Abort;

// A letter of the toy italic at the text size, as a cell.
fn cell(rt: &impl Abort, alloc: Global, code: u8) -> Packed
    ensures { result.level ≡ 1 }
{
    glyph_box(alloc, 3, code, LETTER).expect(rt, "a letter")
}

// The letters a and b in a row.
fn row_of_two(rt: &impl Abort, alloc: Global) -> CellRow
    ensures few { length result ≤ 2 }
    ensures levels { All (λ b. b.level + 4 ≤ 2 ^ 20) result }
{
    let cells = vec![in alloc; cell(rt, alloc, 97), cell(rt, alloc, 98)].expect(rt, "memory");
    CellRow::from_vec(cells)
}

// The letter c in a row.
fn row_of_one(rt: &impl Abort, alloc: Global) -> CellRow
    ensures few { length result ≤ 2 }
    ensures levels { All (λ b. b.level + 4 ≤ 2 ^ 20) result }
{
    CellRow::from_vec(vec![in alloc; cell(rt, alloc, 99)].expect(rt, "memory"))
}

// The letters a and b, and c below a.
fn two_rows(rt: &impl Abort, alloc: Global) -> CellRows
    ensures few_rows { length result ≤ 2 }
    ensures few_cells { All (λ cells. length cells ≤ 2) result }
    ensures levels { All (λ cells. All (λ b. b.level + 4 ≤ 2 ^ 20) cells) result }
{
    let first = row_of_two(rt, alloc);
    let second = row_of_one(rt, alloc);
    CellRows::from_vec(vec![in alloc; first, second].expect(rt, "memory"))
}

#[test]
fn a_matrix_of_three_letters(rt: HostRuntime) {
    let alloc = rt.alloc();
    let fonts = toy_fonts(alloc).expect(&rt, "memory");
    let rows = two_rows(&rt, alloc);
    let body = align_matrix(alloc, &fonts, Size::Text, LETTER, rows).expect(&rt, "a box");
    // columns of 327680 and an em of 655360; 458752 between the rows
    let want = Extents {
        width: 1310720,
        height: 720896,
        depth: 393216,
    };
    assert!(rt; body.extents() == want);
    let page = places(alloc, &body, 0, 0, 3).expect(&rt, "three places");
    let want = [
        glyph(3, 97, 0, -393216),
        glyph(3, 98, 983040, -393216),
        glyph(3, 99, 0, 393216),
    ];
    assert_eq!(rt; page.as_slice(), want.as_slice());
}

#[test]
fn two_equations(rt: HostRuntime) {
    let alloc = rt.alloc();
    let fonts = toy_fonts(alloc).expect(&rt, "memory");
    let rows = two_rows(&rt, alloc);
    let body = align_equations(alloc, &fonts, Size::Text, rows).expect(&rt, "a box");
    // rows of 557056 and 229376, and 196608 between them
    let want = Extents {
        width: 655360,
        height: 1048576,
        depth: 720896,
    };
    assert!(rt; body.extents() == want);
    let page = places(alloc, &body, 0, 0, 3).expect(&rt, "three places");
    let want = [
        glyph(3, 97, 0, -491520),
        glyph(3, 98, 327680, -491520),
        glyph(3, 99, 0, 491520),
    ];
    assert_eq!(rt; page.as_slice(), want.as_slice());
}
