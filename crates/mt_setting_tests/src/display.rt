//! Lines of letters, reckoned by hand.
ghost use Rattle.std.specs.Prelude.{◌≡◌, ◌≤◌, ◌≤ℤ◌, ◌^◌, All, IfOk, length, pos};
ghost use Rattle.mt_scaled.specs.Number.{Within, max_dimen};
ghost use Rattle.mt_box.specs.Rows.{AllModest, row_level};
ghost use Rattle.mt_display.specs.declared.line.Line.{Line as LineFields};

use crate::fonts::four_fonts;
use crate::pieces::{LETTER, glyph, letter, space};
use mt_box::{Extents, PackError, Piece, PlaceList, Row, glyph_box};
use mt_display::{Line, Lines, Numbered, StackError, place_display, place_inline, stack_lines};
use mt_scaled::Items;
use std::alloc::{AllocError, Global};
use std::process::Abort;

// A line that is deep, with a gap below it all the same.
const DEEP: Extents = Extents {
    width: 327680,
    height: 100000,
    depth: 408752,
};

// So deep that 12pt to the baseline of a letter below it are 1sp too little.
const DEEPER: Extents = Extents {
    depth: 458753,
    ..DEEP
};

// Two letters and a kern between them.
fn formula(alloc: Global) -> Result<Lines, PackError>
    ensures few { IfOk result (λ lines. length lines ≤ 2 ^ 21) }
    ensures shifts { IfOk result (All (λ (l : LineFields). Within (2 ^ 40) l.shift)) }
{
    let pieces = vec![in alloc; letter(97), Piece::Kern(-7), letter(98)];
    place_inline(alloc, Row::from_vec(pieces.map_err(AllocError::from)?))
}

#[test]
fn places_a_formula(rt: HostRuntime) {
    let lines = formula(rt.alloc()).expect(&rt, "memory");
    let want = Extents {
        width: 655353,
        ..LETTER
    };
    assert!(rt; lines.len() == 1);
    for line in lines.as_slice() {
        assert!(rt; line.shift == 0 && line.body.extents() == want && line.body.level() == 1);
    }
    let page = stack_lines(rt.alloc(), &lines, 2).expect(&rt, "memory");
    let want = [glyph(3, 97, 0, 327680), glyph(3, 98, 327673, 327680)];
    assert!(rt; page.as_slice() == want.as_slice());
}

// Two kerns that are too wide together, by 1sp.
fn wide(alloc: Global) -> Result<Lines, PackError> {
    let pieces = vec![in alloc; Piece::Kern(1073741823), Piece::Kern(1)];
    place_inline(alloc, Row::from_vec(pieces.map_err(AllocError::from)?))
}

#[test]
fn refuses_a_wide_formula(rt: HostRuntime) {
    assert!(rt; matches!(wide(rt.alloc()), Err(PackError::Overflow(1073741824))));
}

// Three letters with two spaces, 1274304sp wide.
fn spaced_letters(alloc: Global) -> Result<Row, AllocError>
    ensures few { IfOk result (λ row. length row ≤ 2 ^ 21) }
    ensures modest { IfOk result AllModest }
    ensures level { IfOk result (λ row. row_level row ≡ 1) }
{
    let pieces = vec![in alloc; letter(97), space(), letter(43), space(), letter(98)]?;
    Ok(Row::from_vec(pieces))
}

// Three letters, 983040sp wide.
fn letters(alloc: Global) -> Result<Row, AllocError>
    ensures few { IfOk result (λ row. length row ≤ 2 ^ 21) }
    ensures modest { IfOk result AllModest }
    ensures level { IfOk result (λ row. row_level row ≡ 1) }
{
    Ok(Row::from_vec(vec![in alloc; letter(40), letter(49), letter(41)]?))
}

// A display with its number at the right, on a page of lines of this width.
fn numbered_page(rt: &impl Abort, alloc: Global, line: i64) -> Result<PlaceList, AllocError>
    requires some { pos 1 ≤ℤ line }
    requires in_range { line ≤ℤ pos max_dimen }
{
    let fonts = four_fonts(rt, alloc);
    let row = spaced_letters(alloc)?;
    let number = Numbered {
        row: letters(alloc)?,
        left: false,
    };
    let lines = place_display(alloc, &fonts, row, Some(number), line).expect(rt, "memory");
    Ok(stack_lines(alloc, &lines, 6).expect(rt, "memory"))
}

#[test]
fn places_a_display(rt: HostRuntime) {
    // all spaces shrink whole, and the number is beside the display
    let page = numbered_page(&rt, rt.alloc(), 2621440).expect(&rt, "memory");
    let want = [
        glyph(3, 97, 327680, 327680),
        glyph(3, 43, 655360, 327680),
        glyph(3, 98, 983040, 327680),
        glyph(3, 40, 1638400, 327680),
        glyph(3, 49, 1966080, 327680),
        glyph(3, 41, 2293760, 327680),
    ];
    assert!(rt; page.as_slice() == want.as_slice());
    // 1sp less, and the number is below it
    let page = numbered_page(&rt, rt.alloc(), 2621439).expect(&rt, "memory");
    let want = [
        glyph(3, 97, 673568, 327680),
        glyph(3, 43, 1146880, 327680),
        glyph(3, 98, 1620192, 327680),
        glyph(3, 40, 1638399, 1114112),
        glyph(3, 49, 1966079, 1114112),
        glyph(3, 41, 2293759, 1114112),
    ];
    assert!(rt; page.as_slice() == want.as_slice());
}

fn line(alloc: Global, shift: i64, code: u8, extents: Extents) -> Result<Line, PackError>
    ensures { IfOk result (λ (l : LineFields). l.shift ≡ shift) }
{
    let body = glyph_box(alloc, 3, code, extents)?;
    Ok(Line { shift, body })
}

// A line of these extents, a deep one, one that is deeper by 50001sp, and a letter.
fn column(alloc: Global, first: Extents) -> Result<Lines, PackError>
    ensures few { IfOk result (λ lines. length lines ≤ 2 ^ 21) }
    ensures shifts { IfOk result (All (λ (l : LineFields). Within (2 ^ 40) l.shift)) }
{
    let first = line(alloc, 0, 97, first)?;
    let deep = line(alloc, 5, 98, DEEP)?;
    let deeper = line(alloc, -9, 99, DEEPER)?;
    let last = line(alloc, 7, 100, LETTER)?;
    let lines = vec![in alloc; first, deep, deeper, last].map_err(AllocError::from)?;
    Ok(Items::from_vec(lines))
}

#[test]
fn stacks_lines(rt: HostRuntime) {
    let lines = column(rt.alloc(), LETTER).expect(&rt, "memory");
    let page = stack_lines(rt.alloc(), &lines, 4).expect(&rt, "memory");
    // 12pt is 786432, and the last gap is 1pt, 65536
    let want = [
        glyph(3, 97, 0, 327680),
        glyph(3, 98, 5, 1114112),
        glyph(3, 99, -9, 1900544),
        glyph(3, 100, 7, 2752513),
    ];
    assert!(rt; page.as_slice() == want.as_slice());
    let none = Items::from_vec(Vec::new(rt.alloc()));
    let page = stack_lines(rt.alloc(), &none, 0).expect(&rt, "memory");
    assert!(rt; page.is_empty());
}

#[test]
fn refuses_a_place_too_many(rt: HostRuntime) {
    let lines = column(rt.alloc(), LETTER).expect(&rt, "memory");
    let refusal = stack_lines(rt.alloc(), &lines, 3).err();
    assert!(rt; refusal == Some(StackError::TooMany { line: 3 }));
}

#[test]
fn refuses_a_place_too_low(rt: HostRuntime) {
    // the second line, with 12pt from baseline to baseline, is 1sp too low
    let high = Extents {
        height: 1072955392,
        ..LETTER
    };
    let lines = column(rt.alloc(), high).expect(&rt, "memory");
    let refusal = stack_lines(rt.alloc(), &lines, 2).err();
    let want = StackError::OutOfRange {
        line: 1,
        value: 1073741824,
    };
    assert!(rt; refusal == Some(want));
}
