//! Scripts and limits with worked numbers: those of The TeXbook's rules, reckoned by hand for a
//! font with odd parameters.
ghost use Rattle.std.specs.Prelude.{◌≡◌, ◌^◌, IfOk, length};
ghost use Rattle.std.specs.Option.{ForSome};
ghost use Rattle.mt_box.specs.Extents.{ExtentsInRange};
ghost use Rattle.mt_box.specs.Rows.{AllMeasurable};
ghost use Rattle.mt_scripts.specs.Reaches.{ReachesWithin};

use crate::fonts::fonts_of;
use crate::pieces::{glyph, in_range_or_zero};
use mt_box::{Extents, PackError, Packed, Piece, PlaceList, Row, glyph_box, places};
use mt_family::{FontSet, Size};
use mt_rules::Style;
use mt_scripts::{Shifts, attach_scripts, limits_box, script_shifts};
use std::alloc::{AllocError, Global};
use std::process::Abort;

const LIST: &[u8] = b"mathset fonts 1
font odd 1048576 -
family 2 0 0 0
family 3 0 0 0
";

// At 1048576sp its dimensions are these numbers of scaled points. x_height 15003;
// default_rule_thickness 1501; big_op_spacing1 to 5 4001, 5003, 7001, 21001, 3001; sup1 to sup3
// 3001, 14001, 11001; sub1 and sub2 6001, 9001; sup_drop 14003, sub_drop 2001; axis_height 9003.
const FONT: [u8; 148] = [
    0, 37, 0, 2, 0, 97, 0, 97, 0, 2, 0, 2, 0, 1, 0, 1, 0, 0, 0, 0, 0, 0, 0, 22, 0, 0, 0, 0, 0, 160,
    0, 0, 1, 16, 0, 0, 0, 0, 0, 0, 0, 0, 78, 32, 0, 0, 0, 0, 0, 0, 117, 49, 0, 0, 0, 0, 0, 0, 0, 0,
    0, 0, 0, 0, 0, 0, 0, 0, 0, 0, 0, 0, 0, 0, 0, 0, 0, 0, 58, 155, 0, 0, 140, 161, 0, 0, 0, 0, 0,
    0, 5, 221, 0, 0, 15, 161, 0, 0, 19, 139, 0, 0, 27, 89, 0, 0, 82, 9, 0, 0, 11, 185, 0, 0, 54,
    177, 0, 0, 42, 249, 0, 0, 23, 113, 0, 0, 35, 41, 0, 0, 54, 179, 0, 0, 7, 209, 0, 1, 95, 145, 0,
    0, 160, 43, 0, 0, 35, 43,
];

fn odd_fonts(rt: &impl Abort, alloc: Global) -> FontSet {
    fonts_of(rt, alloc, LIST, &FONT)
}

fn extents(width: i64, height: i64, depth: i64) -> Extents
    ensures is { ExtentsInRange result }
    ensures reaches { ReachesWithin (2 ^ 41) result }
{
    Extents {
        width: in_range_or_zero(width),
        height: in_range_or_zero(height),
        depth: in_range_or_zero(depth),
    }
}

// A script of this height and depth, where it is there.
fn script(reach: Option<(i64, i64)>) -> Option<Extents>
    ensures { ForSome result (λ e. ReachesWithin (2 ^ 41) e) }
{
    match reach {
        Some((height, depth)) => Some(extents(5, height, depth)),
        None => None,
    }
}

// The shifts of scripts of these heights and depths beside such a box, or else beside a letter.
fn shifts_beside(
    fonts: &FontSet,
    style: Style,
    body: Option<(i64, i64)>,
    sup: Option<(i64, i64)>,
    sub: Option<(i64, i64)>,
) -> Shifts {
    let (height, depth) = body.unwrap_or((30001, -4001));
    let nucleus = extents(20000, height, depth);
    let glyph = body.is_none();
    script_shifts(fonts, style, glyph, nucleus, script(sup), script(sub))
}

#[test]
fn shifts_of_scripts(rt: HostRuntime) {
    let fonts = odd_fonts(&rt, rt.alloc());
    // the style, the height and the depth of a box as nucleus, those of the scripts, and the shifts
    let cases = [
        // sup2; a quarter of the x-height is 3750
        (Style::T, None, Some((7, 3)), None, (14001, 0)),
        (Style::Tc, None, Some((7, 20001)), None, (23751, 0)),
        // sub1; four fifths of the x-height are 12002
        (Style::S, None, None, Some((7, 3)), (0, 6001)),
        (Style::T, None, None, Some((40001, 3)), (0, 27999)),
        // the gap is exactly four rules thick, and 1sp less
        (
            Style::T,
            None,
            Some((7, 5001)),
            Some((11997, 3)),
            (14001, 9001),
        ),
        (
            Style::T,
            None,
            Some((7, 5001)),
            Some((11998, 3)),
            (17003, 6000),
        ),
        // sup_drop and sub_drop
        (
            Style::T,
            Some((60001, 40001)),
            Some((7, 1)),
            Some((9, 5)),
            (45998, 42002),
        ),
    ];
    for (style, body, sup, sub, (up, down)) in cases {
        let shifts = shifts_beside(&fonts, style, body, sup, sub);
        assert_eq!(rt; shifts, Shifts { up, down });
    }
}

// A box with one glyph.
fn glyph_in(rt: &impl Abort, alloc: Global, font: u16, code: u8, extents: Extents) -> Packed
    ensures { result.level ≡ 1 }
{
    glyph_box(alloc, font, code, extents).expect(rt, "a box")
}

// A row of one letter.
fn letter(alloc: Global) -> Result<Row, AllocError>
    ensures few { IfOk result (λ row. length row ≡ 1) }
    ensures measurable { IfOk result AllMeasurable }
{
    let letter = Piece::Glyph {
        font: 0,
        code: 97,
        extents: Extents {
            width: 20000,
            height: 30001,
            depth: -4001,
        },
    };
    Ok(Row::from_vec(vec![in alloc; letter]?))
}

// The box behind the nucleus: its raise, its extents, and its places.
fn box_behind(rt: &impl Abort, alloc: Global, row: &Row) -> (i64, Extents, PlaceList) {
    match row.as_slice() {
        [_, Piece::Boxed { raise, body }] => {
            let places = places(alloc, body, 0, 0, 9).expect(rt, "places");
            (*raise, body.extents(), places)
        }
        _ => rt.abort(),
    }
}

#[test]
fn both_scripts_form_a_box(rt: HostRuntime) {
    let alloc = rt.alloc();
    let fonts = odd_fonts(&rt, alloc);
    let sup = glyph_in(&rt, alloc, 1, 97, extents(15, 23, -3));
    let sub = glyph_in(&rt, alloc, 1, 98, extents(10, 9, 5));
    let nucleus = letter(alloc).expect(&rt, "memory");
    let row = attach_scripts(alloc, &fonts, Style::T, nucleus, 1501, Some(sup), Some(sub)).expect(
        &rt, "a row",
    );
    // up 14001 and down 9001
    let (raise, reach, places) = box_behind(&rt, alloc, &row);
    assert_eq!(rt; raise, -9001);
    assert_eq!(rt; reach, extents(34284, 23025, 5));
    let want = [glyph(1, 97, 1501, -23002), glyph(1, 98, 0, 0)];
    assert_eq!(rt; places.as_slice(), want.as_slice());
}

#[test]
fn a_script_is_refused_when_it_is_wider(rt: HostRuntime) {
    let alloc = rt.alloc();
    let fonts = odd_fonts(&rt, alloc);
    let sup = glyph_in(&rt, alloc, 1, 97, extents(1073709056, 3, 1));
    let answer = attach_scripts(
        alloc,
        &fonts,
        Style::T,
        letter(alloc).expect(&rt, "memory"),
        0,
        Some(sup),
        None,
    );
    assert_eq!(rt; answer.err(), Some(PackError::Overflow(1073741824)));
}

#[test]
fn limits_stand_above_and_below(rt: HostRuntime) {
    let alloc = rt.alloc();
    let fonts = odd_fonts(&rt, alloc);
    let nucleus = glyph_in(&rt, alloc, 7, 19, extents(30001, 16001, 7));
    let sup = glyph_in(&rt, alloc, 1, 97, extents(10000, 7, -5001));
    let sub = glyph_in(&rt, alloc, 1, 98, extents(10001, 4001, 5));
    let body = limits_box(alloc, &fonts, Size::Text, nucleus, 3, Some(sup), Some(sub)).expect(
        &rt, "a box",
    );
    // the gaps are big_op_spacing3, and big_op_spacing4 less 4001; half of 3 is 2
    assert_eq!(rt; body.extents(), extents(30001, 26010, 24014));
    let list = places(alloc, &body, 0, 0, 9).expect(&rt, "places");
    let want = [
        glyph(1, 97, 10003, -23002),
        glyph(7, 19, 0, 0),
        glyph(1, 98, 9998, 21008),
    ];
    assert_eq!(rt; list.as_slice(), want.as_slice());
}
