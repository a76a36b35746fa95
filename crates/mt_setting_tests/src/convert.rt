//! Lists set in the toy fonts, reckoned by hand.
ghost use Rattle.std.specs.Prelude.{IfOk, OnOk, length, ◌≡◌, ◌≤◌, ◌+◌, ◌^◌};
ghost use Rattle.mt_box.specs.Rows.{AllMeasurable, AllModest};
ghost use Rattle.mt_rules.specs.Facts.{Inside};
ghost use Rattle.mt_rules.specs.Modest.{IsModestList, ListAmounts, list_items, list_nesting};
ghost use Rattle.mt_rules.specs.View.{sequence_of};

use crate::pieces::glyph;
use mt_box::{Packed, Row, hpack, places, row_extents, shrink_of};
use mt_convert::{first_pass, second_pass, set_list};
use mt_family::FontSet;
use mt_rules::{Atom, Class, Field, Item, Kind, Limits, MathList, Style, Symbol};
use mt_samples::toy_fonts;
use std::alloc::{AllocError, Global};
use std::process::Abort;

// So many atoms of this class, each of this symbol.
fn push_atoms(
    alloc: Global,
    items: &mut Vec<Item>,
    class: Class,
    symbol: Symbol,
    count: usize,
) -> Result<(), AllocError>
    ensures inside { OnOk result (Inside (sequence_of items.old.items) → Inside (sequence_of items.new.items)) }
    ensures items { OnOk result (list_items (sequence_of items.new.items) ≡ list_items (sequence_of items.old.items) + count) }
    ensures nesting { OnOk result (list_nesting (sequence_of items.new.items) ≡ list_nesting (sequence_of items.old.items)) }
    ensures amounts { OnOk result (ListAmounts (sequence_of items.old.items) → ListAmounts (sequence_of items.new.items)) }
{
    for _ in 0..count {
        let atom = Atom {
            kind: Kind::Plain(class),
            limits: Limits::Default,
            nucleus: Field::Sym(symbol),
            sup: Field::Empty,
            sub: Field::Empty,
        };
        items.push(Item::Atom(Box::new(alloc, atom)?))?;
    }
    Ok(())
}

// a + b
fn sum(alloc: Global) -> Result<MathList, AllocError>
    ensures { IfOk result IsModestList }
{
    let mut items = Vec::new(alloc);
    push_atoms(
        alloc,
        &mut items,
        Class::Ord,
        Symbol { fam: 1, code: 97 },
        1,
    )?;
    push_atoms(
        alloc,
        &mut items,
        Class::Bin,
        Symbol { fam: 0, code: 43 },
        1,
    )?;
    push_atoms(
        alloc,
        &mut items,
        Class::Ord,
        Symbol { fam: 1, code: 98 },
        1,
    )?;
    Ok(MathList::from_vec(items))
}

// A sum sign with n above it and i below it.
fn sum_sign(alloc: Global) -> Result<MathList, AllocError>
    ensures { IfOk result IsModestList }
{
    let atom = Atom {
        kind: Kind::Plain(Class::Op),
        limits: Limits::Default,
        nucleus: Field::Sym(Symbol { fam: 3, code: 80 }),
        sup: Field::Sym(Symbol { fam: 1, code: 110 }),
        sub: Field::Sym(Symbol { fam: 1, code: 105 }),
    };
    let mut items = Vec::new(alloc);
    items.push(Item::Atom(Box::new(alloc, atom)?))?;
    Ok(MathList::from_vec(items))
}

// The row of the sum in text style, by both passes.
fn sum_row(rt: &impl Abort, alloc: Global, fonts: &FontSet) -> Result<Row, AllocError>
    ensures few { IfOk result (λ row. length row ≤ 2 ^ 21) }
    ensures measurable { IfOk result AllMeasurable }
    ensures modest { IfOk result AllModest }
{
    let half = first_pass(alloc, fonts, sum(alloc)?, Style::T).expect(rt, "the items");
    Ok(second_pass(alloc, fonts, half, Style::T).expect(rt, "a row"))
}

// The box of the sum sign in display style.
fn sum_sign_box(rt: &impl Abort, alloc: Global, fonts: &FontSet) -> Result<Packed, AllocError> {
    let row = set_list(alloc, fonts, sum_sign(alloc)?, Style::D).expect(rt, "a row");
    Ok(hpack(alloc, row).expect(rt, "a box"))
}

#[test]
fn sets_a_sum_in_two_passes(rt: HostRuntime) {
    let alloc = rt.alloc();
    let fonts = toy_fonts(alloc).expect(&rt, "memory");
    let row = sum_row(&rt, alloc, &fonts).expect(&rt, "memory");
    assert_eq!(rt; row.len(), 5);
    assert_eq!(rt; row_extents(&row).width, 1274304);
    assert_eq!(rt; shrink_of(&row), 291264);
    let body = hpack(alloc, row).expect(&rt, "a box");
    let found = places(alloc, &body, 0, body.extents().height, 3).expect(&rt, "its places");
    let wanted = [
        glyph(3, 97, 0, 327680),
        glyph(0, 43, 473312, 327680),
        glyph(3, 98, 946624, 327680),
    ];
    assert_eq!(rt; found.as_slice(), wanted.as_slice());
}

#[test]
fn sets_limits_in_display_style(rt: HostRuntime) {
    let alloc = rt.alloc();
    let fonts = toy_fonts(alloc).expect(&rt, "memory");
    let body = sum_sign_box(&rt, alloc, &fonts).expect(&rt, "memory");
    let found = places(alloc, &body, 0, body.extents().height, 3).expect(&rt, "its places");
    let wanted = [
        glyph(4, 110, 294912, 311296),
        glyph(9, 88, 0, 434176),
        glyph(4, 105, 294912, 1785856),
    ];
    assert_eq!(rt; found.as_slice(), wanted.as_slice());
}
