//! Displays of several lines, reckoned by hand.
ghost use Rattle.std.specs.Prelude.{◌≡◌, ◌≤◌, ◌≤ℤ◌, ◌^◌, ◌-◌, All, IfOk, length, pos};
ghost use Rattle.mt_scaled.specs.Number.{Within, max_dimen};
ghost use Rattle.mt_box.specs.Rows.{AllModest, row_level};
ghost use Rattle.mt_display.specs.declared.line.Line.{Line as LineFields};
ghost use Rattle.mt_display.specs.DisplayLines.{boxes_level, equation_level, equations_level};

use crate::pieces::{LETTER, glyph, letter};
use mt_box::{Extents, PackError, Packed, Piece, Row, glyph_box, hpack};
use mt_display::{EquationRow, EquationRows, Lines, place_equations, place_rows, stack_lines};
use mt_rules::PackedList;
use mt_scaled::Items;
use std::alloc::{AllocError, Global};

fn packed(alloc: Global, pieces: Vec<Piece>) -> Result<Packed, PackError>
    requires few { length pieces.items ≤ 2 ^ 21 }
    requires modest { AllModest pieces.items }
    ensures level { IfOk result (λ b. b.level ≡ row_level pieces.items) }
{
    hpack(alloc, Row::from_vec(pieces))
}

// = and a letter, as they are on the right side of an equation.
fn right_side(alloc: Global) -> Result<Packed, PackError>
    ensures { IfOk result (λ b. b.level ≡ 1) }
{
    let pieces = vec![in alloc;
        Piece::Kern(182040),
        letter(61),
        Piece::Kern(182040),
        letter(98),
    ];
    packed(alloc, pieces.map_err(AllocError::from)?)
}

// Three letters.
fn number(alloc: Global) -> Result<Packed, PackError>
    ensures { IfOk result (λ b. b.level ≡ 1) }
{
    let pieces = vec![in alloc; letter(40), letter(49), letter(41)];
    packed(alloc, pieces.map_err(AllocError::from)?)
}

fn equation(alloc: Global) -> Result<EquationRow, PackError>
    ensures { IfOk result (λ r. equation_level r ≡ 1) }
{
    Ok(EquationRow {
        first: glyph_box(alloc, 3, 97, LETTER)?,
        second: right_side(alloc)?,
        number: number(alloc)?,
    })
}

fn equations(alloc: Global) -> Result<EquationRows, PackError>
    ensures few { IfOk result (λ rows. length rows ≤ 2 ^ 19) }
    ensures level { IfOk result (λ rows. equations_level rows ≤ 2 ^ 20 - 3) }
{
    let equation = equation(alloc)?;
    Ok(Items::from_vec(vec![in alloc; equation].map_err(AllocError::from)?))
}

// The equation with its number, in a line of 4000000sp.
fn numbered(alloc: Global, left: bool) -> Result<Lines, PackError>
    ensures few { IfOk result (λ lines. length lines ≤ 2 ^ 21) }
    ensures shifts { IfOk result (All (λ (l : LineFields). Within (2 ^ 40) l.shift)) }
{
    place_equations(alloc, equations(alloc)?, left, 4000000)
}

#[test]
fn places_equations(rt: HostRuntime) {
    let lines = numbered(rt.alloc(), false).expect(&rt, "memory");
    let page = stack_lines(rt.alloc(), &lines, 6).expect(&rt, "memory");
    let want = [
        glyph(3, 97, 1326440, 327680),
        glyph(3, 61, 1836160, 327680),
        glyph(3, 98, 2345880, 327680),
        glyph(3, 40, 3016960, 327680),
        glyph(3, 49, 3344640, 327680),
        glyph(3, 41, 3672320, 327680),
    ];
    assert!(rt; page.as_slice() == want.as_slice());
    // the number at the left end
    let lines = numbered(rt.alloc(), true).expect(&rt, "memory");
    let page = stack_lines(rt.alloc(), &lines, 6).expect(&rt, "memory");
    let want = [
        glyph(3, 97, 1326440, 327680),
        glyph(3, 61, 1836160, 327680),
        glyph(3, 98, 2345880, 327680),
        glyph(3, 40, 0, 327680),
        glyph(3, 49, 327680, 327680),
        glyph(3, 41, 655360, 327680),
    ];
    assert!(rt; page.as_slice() == want.as_slice());
}

// Two letters.
fn two_letters(alloc: Global) -> Result<Packed, PackError>
    ensures { IfOk result (λ b. b.level ≡ 1) }
{
    let pieces = vec![in alloc; letter(98), letter(99)];
    packed(alloc, pieces.map_err(AllocError::from)?)
}

// A letter of these extents, and below it two letters.
fn rows(alloc: Global, first: Extents) -> Result<PackedList, PackError>
    ensures few { IfOk result (λ rows. length rows ≤ 2 ^ 19) }
    ensures level { IfOk result (λ rows. boxes_level rows ≤ 2 ^ 20 - 3) }
{
    let first = glyph_box(alloc, 3, 97, first)?;
    let second = two_letters(alloc)?;
    Ok(Items::from_vec(vec![in alloc; first, second].map_err(AllocError::from)?))
}

// They are in a line of 500001sp.
fn centred(alloc: Global, first: Extents) -> Result<Lines, PackError>
    ensures few { IfOk result (λ lines. length lines ≤ 2 ^ 21) }
    ensures shifts { IfOk result (All (λ (l : LineFields). Within (2 ^ 40) l.shift)) }
{
    place_rows(alloc, rows(alloc, first)?, 500001)
}

#[test]
fn places_rows(rt: HostRuntime) {
    // the first row in the middle, the second one wider than the line, 15pt below it
    let lines = centred(rt.alloc(), LETTER).expect(&rt, "memory");
    let page = stack_lines(rt.alloc(), &lines, 3).expect(&rt, "memory");
    let want = [
        glyph(3, 97, 86161, 327680),
        glyph(3, 98, 0, 1310720),
        glyph(3, 99, 327680, 1310720),
    ];
    assert!(rt; page.as_slice() == want.as_slice());
    // 15pt from the first baseline to the second is 1sp too much for the height of both
    let high = Extents {
        height: 1072758784,
        ..LETTER
    };
    let refused = centred(rt.alloc(), high);
    assert!(rt; matches!(refused, Err(PackError::Overflow(1073741824))));
}

#[test]
fn places_no_rows(rt: HostRuntime) {
    let none = Items::from_vec(Vec::new(rt.alloc()));
    let lines = place_rows(rt.alloc(), none, 7).expect(&rt, "memory");
    let want = Extents {
        width: 7,
        height: 0,
        depth: 0,
    };
    assert!(rt; lines.len() == 1);
    for line in lines.as_slice() {
        assert!(rt; line.shift == 0 && line.body.extents() == want);
    }
}
