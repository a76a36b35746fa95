//! Parts of the toy fonts, reckoned by hand.
ghost use Rattle.std.specs.Prelude.{All, IfOk, IsOk, IsTrue, length, ◌≡◌, ◌≤◌, ◌+◌, ◌^◌};
ghost use Rattle.mt_scaled.specs.Number.{Within};
ghost use Rattle.mt_rules.specs.Symbols.{find_symbol};

use crate::pieces::{LETTER, NO_DELIMITER, SMALL, glyph, in_range_or_zero, rule};
use mt_box::{Extents, Marks, Packed, Place, glyph_box, places};
use mt_family::{FontSet, Size};
use mt_parts::{
    Shifts, accent_box, fraction_box, fraction_shifts, overline_box, radical_box, root_on_marks,
    underline_box, vcenter_box, veil_on_marks,
};
use mt_rules::{Delim, PackedList, Style, Symbol};
use mt_samples::toy_fonts;
use std::alloc::{AllocError, Global};
use std::process::Abort;

const SIGN: Delim = Delim {
    small: Symbol { fam: 2, code: 112 },
    large: Symbol { fam: 3, code: 112 },
};

// The letter a of the toy italic at the text size, as a box.
fn letter(rt: &impl Abort, alloc: Global) -> Packed
    ensures { result.level ≡ 1 }
{
    glyph_box(alloc, 3, 97, LETTER).expect(rt, "a letter")
}

#[test]
fn a_rule_over_a_letter(rt: HostRuntime) {
    let alloc = rt.alloc();
    let fonts = toy_fonts(alloc).expect(&rt, "memory");
    let body = overline_box(alloc, &fonts, Size::Text, letter(&rt, alloc)).expect(&rt, "a box");
    let page = places(alloc, &body, 0, body.extents().height, 2).expect(&rt, "two places");
    assert_eq!(rt;
        page.as_slice(),
        [rule(0, 81920, 40960, 327680), glyph(3, 97, 0, 532480)].as_slice()
    );
}

#[test]
fn a_rule_under_a_letter(rt: HostRuntime) {
    let alloc = rt.alloc();
    let fonts = toy_fonts(alloc).expect(&rt, "memory");
    let body = underline_box(alloc, &fonts, Size::Text, letter(&rt, alloc)).expect(&rt, "a box");
    let page = places(alloc, &body, 0, body.extents().height, 2).expect(&rt, "two places");
    assert_eq!(rt;
        page.as_slice(),
        [glyph(3, 97, 0, 327680), rule(0, 491520, 40960, 327680)].as_slice()
    );
}

// Whether a symbol is found at a size.
fn is_found(fonts: &FontSet, size: Size, symbol: Symbol) -> bool
    ensures { IsTrue result → IsOk (find_symbol fonts.now size symbol) }
{
    let Some(number) = fonts.number_of(symbol.fam, size) else {
        return false;
    };
    match fonts.font(number) {
        Some(font) => font.exists(symbol.code),
        None => false,
    }
}

// The first of the wide accents in the toy extension font over this letter, moved right by 7sp.
fn wide_accent(rt: &impl Abort, alloc: Global, letter: Packed) -> Result<Packed, AllocError>
    requires { letter.level ≡ 1 }
{
    let fonts = toy_fonts(alloc)?;
    let accent = Symbol { fam: 3, code: 98 };
    if !is_found(&fonts, Size::Text, accent) {
        return rt.abort();
    }
    let plain = letter.extents();
    Ok(accent_box(alloc, &fonts, Size::Text, accent, 7, plain, letter).expect(rt, "a box"))
}

fn accented(code: u8, h: i64, v: i64) -> [Place; 2] {
    [glyph(9, code, h, v), glyph(3, 97, 0, 0)]
}

#[test]
fn an_accent_over_a_letter(rt: HostRuntime) {
    let alloc = rt.alloc();
    // as wide as the next larger accent, and 40960 higher than the font's x-height
    let wide = Extents {
        width: 655360,
        height: 368640,
        depth: 0,
    };
    let letter_m = glyph_box(alloc, 3, 97, wide).expect(&rt, "a letter");
    let body = wide_accent(&rt, alloc, letter_m).expect(&rt, "memory");
    assert!(rt;
        body.extents()
            == Extents {
                height: 532480,
                ..wide
            }
    );
    let page = places(alloc, &body, 0, 0, 2).expect(&rt, "two places");
    assert_eq!(rt; page.as_slice(), accented(99, 7, -40960).as_slice());
    // an accent that is wider than its letter
    let body = wide_accent(&rt, alloc, letter(&rt, alloc)).expect(&rt, "memory");
    let page = places(alloc, &body, 0, 0, 2).expect(&rt, "two places");
    assert_eq!(rt; page.as_slice(), accented(98, -20473, 0).as_slice());
}

// The letter a, and a letter b that is higher.
fn two_rows(rt: &impl Abort, alloc: Global) -> Result<PackedList, AllocError>
    ensures few { IfOk result (λ rows. length rows ≤ 2 ^ 20) }
    ensures levels { IfOk result (All (λ b. b.level + 4 ≤ 2 ^ 20)) }
{
    let high = Extents {
        width: 655360,
        height: 400000,
        depth: 7,
    };
    let second = glyph_box(alloc, 3, 98, high).expect(rt, "a letter");
    Ok(PackedList::from_vec(vec![in alloc; letter(rt, alloc), second]?))
}

#[test]
fn two_rows_about_the_axis(rt: HostRuntime) {
    let alloc = rt.alloc();
    let fonts = toy_fonts(alloc).expect(&rt, "memory");
    let rows = two_rows(&rt, alloc).expect(&rt, "memory");
    let body = vcenter_box(alloc, &fonts, Size::Text, rows).expect(&rt, "a box");
    // 386432 between the rows, 1114119 in all, and the axis at 163840
    let want = Extents {
        width: 655360,
        height: 720900,
        depth: 393219,
    };
    assert!(rt; body.extents() == want);
    let page = places(alloc, &body, 0, 0, 2).expect(&rt, "two places");
    let want = [glyph(3, 97, 0, -393220), glyph(3, 98, 0, 393212)];
    assert_eq!(rt; page.as_slice(), want.as_slice());
}

// What a box of no width reaches.
#[tactic(auto, using(std::proofs::lemmas::Int::ints))]
fn reach(height: i64, depth: i64) -> Extents
    ensures height { Within (2 ^ 40) result.height }
    ensures depth { Within (2 ^ 40) result.depth }
{
    Extents {
        width: 0,
        height: in_range_or_zero(height),
        depth: in_range_or_zero(depth),
    }
}

#[test]
fn shifts_of_fractions(rt: HostRuntime) {
    let fonts = toy_fonts(rt.alloc()).expect(&rt, "memory");
    // the gap lacks 81921 of seven rules; half of an odd lack is rounded up
    let shifts = fraction_shifts(&fonts, Style::D, 0, reach(0, 368640), reach(327681, 0));
    let want = Shifts {
        up: 491521,
        down: 491521,
    };
    assert!(rt; shifts == want);
    // the gap above the rule lacks 61440 of three rules, the one below it nothing
    let shifts = fraction_shifts(&fonts, Style::D, 40960, reach(0, 204800), reach(327680, 0));
    let want = Shifts {
        up: 512000,
        down: 450560,
    };
    assert!(rt; shifts == want);
}

#[test]
fn a_root_of_negative_depth(rt: HostRuntime) {
    let alloc = rt.alloc();
    let fonts = toy_fonts(alloc).expect(&rt, "memory");
    let extents = Extents {
        width: 327680,
        height: 204800,
        depth: -122880,
    };
    let minus = glyph_box(alloc, 6, 0, extents).expect(&rt, "a minus");
    let body = radical_box(alloc, &fonts, Style::Tc, SIGN, minus).expect(&rt, "a root");
    let page = places(alloc, &body, 0, body.extents().height, 3).expect(&rt, "three places");
    let want = [
        glyph(6, 112, 0, 81920),
        rule(327680, 81920, 40960, 327680),
        glyph(6, 0, 327680, 578560),
    ];
    assert_eq!(rt; page.as_slice(), want.as_slice());
}

// A letter of the toy italic at the script size, as a box.
fn small_letter(rt: &impl Abort, alloc: Global, code: u8) -> Packed
    ensures { result.level ≡ 1 }
{
    glyph_box(alloc, 4, code, SMALL).expect(rt, "a letter")
}

// A letter over a letter, with a rule 3sp thick: half of 3 is 2, so the denominator is 1sp higher than
// its shift says.
#[test]
fn a_rule_of_odd_thickness(rt: HostRuntime) {
    let alloc = rt.alloc();
    let fonts = toy_fonts(alloc).expect(&rt, "memory");
    let num = small_letter(&rt, alloc, 97);
    let den = small_letter(&rt, alloc, 98);
    let body = fraction_box(
        alloc,
        &fonts,
        Style::T,
        3,
        NO_DELIMITER,
        NO_DELIMITER,
        num,
        den,
    )
    .expect(&rt, "a fraction");
    let page = places(alloc, &body, 0, body.extents().height, 3).expect(&rt, "three places");
    let want = [
        glyph(4, 97, 78643, 229376),
        rule(78643, 311297, 3, 229376),
        glyph(4, 98, 78643, 720895),
    ];
    assert_eq!(rt; page.as_slice(), want.as_slice());
}

#[test]
fn a_letter_with_a_degree_on_marks(rt: HostRuntime) {
    let alloc = rt.alloc();
    let fonts = toy_fonts(alloc).expect(&rt, "memory");
    let mut marks = Marks::of_box(alloc, letter(&rt, alloc)).expect(&rt, "memory");
    marks.push_box(&letter(&rt, alloc)).expect(&rt, "memory");
    let row = root_on_marks(&mut marks, &fonts, Style::T, LETTER, LETTER).expect(&rt, "a row");
    // a math unit is 36408, and the degree is raised by 196610
    let want = Extents {
        width: 473320,
        height: 524290,
        depth: 0,
    };
    assert!(rt; row == want);
    let body = marks.into_box(row, 1).expect(&rt, "memory");
    let page = places(alloc, &body, 0, 524290, 2).expect(&rt, "two places");
    let degree = glyph(3, 97, 182040, 327680);
    assert_eq!(rt;
        page.as_slice(),
        [degree, glyph(3, 97, 145640, 524290)].as_slice()
    );
}

#[test]
fn what_is_left_of_a_letter_on_marks(rt: HostRuntime) {
    let alloc = rt.alloc();
    let mut marks = Marks::new(alloc);
    marks.push_box(&letter(&rt, alloc)).expect(&rt, "memory");
    let left = veil_on_marks(&mut marks, LETTER, true, false, false).expect(&rt, "memory");
    let want = Extents {
        width: 327680,
        height: 0,
        depth: 0,
    };
    assert!(rt; left == want);
    let body = marks.top_box(alloc, left, 1).expect(&rt, "memory");
    let page = places(alloc, &body, 0, 0, 1).expect(&rt, "no place");
    assert_eq!(rt; page.len(), 0);
}
