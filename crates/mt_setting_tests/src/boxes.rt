ghost use Rattle.std.specs.Prelude.{◌≤ℤ◌, ◌^◌, IfOk, pos};
ghost use Rattle.mt_scaled.specs.Number.{Within};
ghost use Rattle.mt_box.specs.Columns.{IsModestEntry};

use crate::pieces::{LETTER, SMALL, glyph, letter, space};
use mt_box::{
    Entry, Extents, Mark, Node, NodeId, PackError, Packed, Piece, Place, PlaceError, clean,
    first_out, glyph_box, hpack, hpack_glyph, hpack_kern, hpack_to, places, put_places, recentre,
    row_extents, shrink_of, unmarked, vpack, with_extents,
};
use mt_scaled::Items;
use std::alloc::{AllocError, Global};

const SUNK: Extents = Extents {
    width: 5,
    height: 7,
    depth: -3,
};

// Two letters and a superscript.
fn power(alloc: Global) -> Result<Packed, PackError> {
    let body = glyph_box(alloc, 1, 50, SMALL)?;
    let script = Piece::Boxed {
        raise: 245760,
        body,
    };
    let pieces = vec![in alloc; letter(97), letter(98), script].map_err(AllocError::from)?;
    hpack(alloc, Items::from_vec(pieces))
}

#[test]
fn packs_a_row(rt: HostRuntime) {
    let body = power(rt.alloc()).expect(&rt, "memory");
    let want = Extents {
        width: 884736,
        height: 475136,
        depth: 0,
    };
    assert!(rt; body.extents() == want && body.level() == 2);
    let page = places(rt.alloc(), &body, 0, 475136, 3).expect(&rt, "memory");
    let want = [
        glyph(3, 97, 0, 475136),
        glyph(3, 98, 327680, 475136),
        glyph(1, 50, 655360, 229376),
    ];
    assert!(rt; page.as_slice() == want.as_slice());
    assert!(rt; (want[2].h(), want[2].v()) == (655360, 229376));
}

fn unshifted(alloc: Global, code: u8) -> Result<Entry, PackError>
    ensures { IfOk result IsModestEntry }
{
    let body = glyph_box(alloc, 4, code, SMALL)?;
    Ok(Entry::Boxed { shift: 0, body })
}

// A letter over a rule over a letter.
fn fraction(alloc: Global) -> Result<Packed, PackError> {
    let over = unshifted(alloc, 97)?;
    let under = unshifted(alloc, 98)?;
    let entries = vec![in alloc;
        over,
        Entry::Kern(81918),
        Entry::Rule(3),
        Entry::Kern(180222),
        under,
    ]
    .map_err(AllocError::from)?;
    vpack(alloc, Items::from_vec(entries), 229376)
}

#[test]
fn packs_a_column(rt: HostRuntime) {
    let body = fraction(rt.alloc()).expect(&rt, "memory");
    let want = Extents {
        depth: 491519,
        ..SMALL
    };
    assert!(rt; body.extents() == want);
    let page = places(rt.alloc(), &body, 78643, 229376, 3).expect(&rt, "memory");
    let rule = Place::Rule {
        h: 78643,
        v: 311297,
        height: 3,
        width: 229376,
    };
    let want = [
        glyph(4, 97, 78643, 229376),
        rule,
        glyph(4, 98, 78643, 720895),
    ];
    assert!(rt; page.as_slice() == want.as_slice());
    assert!(rt; (rule.h(), rule.v()) == (78643, 311297));
}

const SHARD: Extents = Extents {
    width: 327680,
    height: 0,
    depth: 81920,
};

// Three glyphs, one below the other.
fn pile(alloc: Global) -> Result<Packed, PackError> {
    let stack = Entry::Stack {
        font: 9,
        code: 62,
        extents: SHARD,
        count: 3,
    };
    let entries = vec![in alloc; stack].map_err(AllocError::from)?;
    vpack(alloc, Items::from_vec(entries), 0)
}

#[test]
fn packs_a_stack(rt: HostRuntime) {
    let body = pile(rt.alloc()).expect(&rt, "memory");
    let want = Extents {
        depth: 245760,
        ..SHARD
    };
    assert!(rt; body.extents() == want && body.level() == 2);
    let page = places(rt.alloc(), &body, 0, 0, 3).expect(&rt, "memory");
    let want = [
        glyph(9, 62, 0, 0),
        glyph(9, 62, 0, 81920),
        glyph(9, 62, 0, 163840),
    ];
    assert!(rt; page.as_slice() == want.as_slice());
    let stack = Node {
        x: 0,
        y: 0,
        mark: Mark::Stack {
            font: 9,
            code: 62,
            step: 81920,
            count: 3,
        },
        after: NodeId(1),
    };
    assert!(rt; body.nodes().len() == 1 && body.nodes().get(0) == Some(&stack));
}

// The clean box of a row of one box.
fn cleaned(alloc: Global, raise: i64) -> Result<Packed, PackError>
    requires { Within (2 ^ 40) raise }
{
    let body = glyph_box(alloc, 3, 97, SUNK)?;
    let pieces = vec![in alloc; Piece::Boxed { raise, body }].map_err(AllocError::from)?;
    clean(alloc, Items::from_vec(pieces))
}

#[test]
fn cleans(rt: HostRuntime) {
    let body = cleaned(rt.alloc(), 0).expect(&rt, "memory");
    assert!(rt; body.extents() == SUNK && body.level() == 1);
    let body = cleaned(rt.alloc(), 1).expect(&rt, "memory");
    let want = Extents {
        width: 5,
        height: 8,
        depth: 0,
    };
    assert!(rt; body.extents() == want && body.level() == 2);
}

// A glyph in the middle of its width, and then of a greater one.
fn recentred(alloc: Global) -> Result<Packed, PackError> {
    let body = glyph_box(alloc, 3, 97, SUNK)?;
    Ok(recentre(recentre(body, 5), 8))
}

#[test]
fn recentres(rt: HostRuntime) {
    let body = recentred(rt.alloc()).expect(&rt, "memory");
    let want = Extents {
        width: 8,
        height: 7,
        depth: 0,
    };
    assert!(rt; body.extents() == want && body.level() == 3);
    let body = with_extents(body, LETTER);
    assert!(rt; body.extents() == LETTER);
    let page = places(rt.alloc(), &body, 0, 0, 1).expect(&rt, "memory");
    assert!(rt; page.as_slice() == [glyph(3, 97, 2, 0)].as_slice());
    let body = unmarked(body);
    assert!(rt; body.extents() == LETTER && body.level() == 3);
    assert!(rt; places(rt.alloc(), &body, 0, 0, 0).is_ok());
}

#[test]
fn measures_spaces(rt: HostRuntime) {
    let space = Piece::Space {
        width: 145632,
        shrink: 145632,
    };
    let other = Piece::Space {
        width: 5,
        shrink: 2,
    };
    let row = Items::from_vec(vec![in rt.alloc(); space, Piece::Kern(-7), other].expect(
        &rt, "memory",
    ));
    let want = Extents {
        width: 145630,
        height: 0,
        depth: 0,
    };
    assert!(rt; row_extents(&row) == want && shrink_of(&row) == 145634);
}

// Three letters with two spaces, set to a width that is at most their own.
fn set_to(alloc: Global, width: i64) -> Result<Packed, PackError>
    requires small { Within (2 ^ 62) width }
    requires narrow { width ≤ℤ pos 1274304 }
{
    let pieces = vec![in alloc; letter(97), space(), letter(98), space(), letter(99)].map_err(
        AllocError::from,
    )?;
    hpack_to(alloc, Items::from_vec(pieces), width)
}

#[test]
fn sets_a_row_to_a_width(rt: HostRuntime) {
    let body = set_to(rt.alloc(), 1274303).expect(&rt, "memory");
    assert!(rt; body.extents().width == 1274303 && body.level() == 1);
    let page = places(rt.alloc(), &body, 0, 0, 3).expect(&rt, "memory");
    let want = [
        glyph(3, 97, 0, 0),
        glyph(3, 98, 473311, 0),
        glyph(3, 99, 946623, 0),
    ];
    assert!(rt; page.as_slice() == want.as_slice());
}

// Two kerns that are too wide together.
fn wide(alloc: Global) -> Result<Packed, PackError> {
    let kern = 16383 * 65536;
    let pieces = vec![in alloc; Piece::Kern(kern), Piece::Kern(kern)].map_err(AllocError::from)?;
    hpack(alloc, Items::from_vec(pieces))
}

#[test]
fn refuses_a_wide_row(rt: HostRuntime) {
    assert!(rt; matches!(wide(rt.alloc()), Err(PackError::Overflow(2147352576))));
    let extents = Extents {
        width: 1073741824,
        ..LETTER
    };
    assert!(rt; first_out(extents) == Some(1073741824) && first_out(LETTER).is_none());
}

#[test]
fn refuses_places(rt: HostRuntime) {
    let body = glyph_box(rt.alloc(), 3, 97, LETTER).expect(&rt, "memory");
    let far = 1073741824;
    let refusal = places(rt.alloc(), &body, 0, 0, 0).err();
    assert!(rt; refusal == Some(PlaceError::TooMany));
    let refusal = places(rt.alloc(), &body, 0, -far, 0).err();
    assert!(rt; refusal == Some(PlaceError::OutOfRange(-1073741824)));
    let refusal = places(rt.alloc(), &body, far, -far, 0).err();
    assert!(rt; refusal == Some(PlaceError::OutOfRange(1073741824)));
}

#[test]
fn packs_a_glyph_with_a_kern(rt: HostRuntime) {
    let body = hpack_glyph(rt.alloc(), 3, 97, LETTER, 65536).expect(&rt, "memory");
    let want = Extents {
        width: 393216,
        ..LETTER
    };
    assert!(rt; body.extents() == want && body.level() == 1 && body.nodes().len() == 1);
    let page = places(rt.alloc(), &body, 5, 7, 1).expect(&rt, "memory");
    assert!(rt; page.as_slice() == [glyph(3, 97, 5, 7)].as_slice());
    let refusal = hpack_glyph(rt.alloc(), 3, 97, LETTER, 1073741823).err();
    assert!(rt; refusal == Some(PackError::Overflow(1074069503)));
}

#[test]
fn packs_a_kern(rt: HostRuntime) {
    let body = hpack_kern(rt.alloc(), -7).expect(&rt, "memory");
    let want = Extents {
        width: -7,
        height: 0,
        depth: 0,
    };
    assert!(rt; body.extents() == want && body.level() == 1 && body.nodes().len() == 0);
    let page = places(rt.alloc(), &body, 5, 7, 0).expect(&rt, "memory");
    assert!(rt; page.as_slice().len() == 0);
    let refusal = hpack_kern(rt.alloc(), -1073741824).err();
    assert!(rt; refusal == Some(PackError::Overflow(-1073741824)));
}

#[test]
fn puts_places_after_others(rt: HostRuntime) {
    let body = power(rt.alloc()).expect(&rt, "memory");
    let first = glyph(4, 98, 1, 2);
    let mut page = vec![in rt.alloc(); first].expect(&rt, "memory");
    let refusal = put_places(&mut page, &body, 0, 475136, 3).err();
    assert!(rt; refusal == Some(PlaceError::TooMany));
    assert!(rt; page.as_slice() == [first].as_slice());
    put_places(&mut page, &body, 0, 475136, 4).expect(&rt, "memory");
    let want = [
        first,
        glyph(3, 97, 0, 475136),
        glyph(3, 98, 327680, 475136),
        glyph(1, 50, 655360, 229376),
    ];
    assert!(rt; page.as_slice() == want.as_slice());
}

// The box as the only piece of a row; one of the greatest level stays as it is.
fn wrapped(alloc: Global, body: Packed) -> Result<Packed, PackError> {
    if body.level() == 1048576 {
        return Ok(body);
    }
    let pieces = vec![in alloc; Piece::Boxed { raise: 0, body }].map_err(AllocError::from)?;
    hpack(alloc, Items::from_vec(pieces))
}

// The box of a digit in so many rows, one in another.
fn deep(alloc: Global, count: u32) -> Result<Packed, PackError> {
    let mut body = glyph_box(alloc, 1, 50, SMALL)?;
    for _turn in 0..count {
        body = wrapped(alloc, body)?;
    }
    Ok(body)
}

#[test]
fn packs_and_places_a_million_levels(rt: HostRuntime) {
    let body = deep(rt.alloc(), 999999).expect(&rt, "memory");
    assert!(rt; body.level() == 1000000);
    let page = places(rt.alloc(), &body, 0, 229376, 1).expect(&rt, "memory");
    assert!(rt; page.as_slice() == [glyph(1, 50, 0, 229376)].as_slice());
}

// A row of the box, raised by 1sp, and of a letter behind it; one of the greatest level stays as it is.
fn with_letter(alloc: Global, body: Packed) -> Result<Packed, PackError> {
    if body.level() == 1048576 {
        return Ok(body);
    }
    let pieces = vec![in alloc; Piece::Boxed { raise: 1, body }, letter(97)].map_err(
        AllocError::from,
    )?;
    hpack(alloc, Items::from_vec(pieces))
}

// The box of a digit in so many rows, one in another, each with a letter behind the one in it.
fn nested(alloc: Global, count: u32) -> Result<Packed, PackError> {
    let mut body = glyph_box(alloc, 1, 50, SMALL)?;
    for _turn in 0..count {
        body = with_letter(alloc, body)?;
    }
    Ok(body)
}

#[test]
fn packs_and_places_a_thousand_rows_in_rows(rt: HostRuntime) {
    let body = nested(rt.alloc(), 1000).expect(&rt, "memory");
    assert!(rt; body.level() == 1001 && body.nodes().len() == 1001);
    let page = places(rt.alloc(), &body, 0, 0, 1001).expect(&rt, "memory");
    assert!(rt; page.get(0) == Some(&glyph(1, 50, 0, -1000)));
    assert!(rt; page.get(1000) == Some(&glyph(3, 97, 327581696, 0)));
}
