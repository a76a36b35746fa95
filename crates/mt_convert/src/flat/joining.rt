//! Symbols side by side that are joined (The TeXbook, Appendix G, rule 14; tex.web, section 752).
ghost use Rattle.std.specs.Prelude.{◌≡◌, List, Some};
ghost use Rattle.mt_rules.specs.Styles.{size_of};
ghost use Rattle.mt_arena.specs.Arena.{Held, cell_part, value_in};
ghost use Rattle.mt_arena.specs.Rest.{KeptItem};
ghost use Rattle.mt_convert.specs.Joining.{is_any_but_inner, is_ord_by_now, pair_in_font};
ghost use Rattle.mt_convert.specs.Joining.{pair_of_fonts, symbol_pair};
ghost use Rattle.mt_convert.specs.inner.Spans.{held_as, held_symbol, noad_symbol_before};
ghost use Rattle.mt_convert.specs.inner.Turns.{is_empty_part, part_symbol, symbol_after};

use mt_arena::{Cell, Noad, Thing};
use mt_family::FontSet;
use mt_rules::{Class, Kind, Style, Symbol};
use mt_spacing::forward;
use mt_tfm::{Font, Pair};

/// Two characters side by side, of one family.
#[derive(Clone, Copy)]
pub struct SymbolPair {
    /// The number of the family.
    pub fam: u8,
    /// The code of the first character.
    pub first: u8,
    /// The code of the second character.
    pub second: u8,
}

fn symbol_of_cell(cell: Cell) -> Option<Symbol>
    ensures { (es : List Held) → result ≡ part_symbol (cell_part es cell) }
{
    match cell {
        Cell::Sym(symbol) => Some(symbol),
        _ => None,
    }
}

pub(crate) fn is_empty(cell: Cell) -> bool
    ensures { (es : List Held) → result ≡ is_empty_part (cell_part es cell) }
{
    matches!(cell, Cell::Empty)
}

// An atom of the plain kind that is ordinary by now, after the atom before it.
pub(crate) fn is_ord_by_now(last: Option<Class>, kind: Kind) -> bool
    ensures { result ≡ is_ord_by_now last kind }
{
    match kind {
        Kind::Plain(own) => matches!(forward(last, own), Class::Ord),
        _ => false,
    }
}

pub(crate) fn is_any_but_inner(kind: Kind) -> bool
    ensures { result ≡ is_any_but_inner kind }
{
    match kind {
        Kind::Plain(Class::Inner) => false,
        Kind::Plain(_) => true,
        _ => false,
    }
}

// The symbol of an atom that may be joined with the next one: it has no scripts.
pub(crate) fn first_symbol(last: Option<Class>, noad: &Noad) -> Option<Symbol>
    ensures { (es : List Held) → result ≡ noad_symbol_before es last noad.now }
{
    if is_ord_by_now(last, noad.kind) && is_empty(noad.sup) && is_empty(noad.sub) {
        symbol_of_cell(noad.nucleus)
    } else {
        None
    }
}

// The symbol of an item, if it is an atom that may be joined with the one before it.
pub(crate) fn second_symbol(thing: Thing) -> Option<Symbol>
    ensures { (es : List Held) → result ≡ held_symbol (value_in es thing) }
{
    match thing {
        Thing::Atom(noad) if is_any_but_inner(noad.kind) => symbol_of_cell(noad.nucleus),
        _ => None,
    }
}

// An atom becomes an ordinary one of this symbol.
pub(crate) fn as_symbol(thing: Thing, symbol: Symbol) -> Thing
    ensures is { (es : List Held) → value_in es result ≡ held_as symbol (value_in es thing) }
    ensures kept { (es : List Held) → KeptItem es thing → KeptItem es result }
{
    match thing {
        Thing::Atom(noad) => Thing::Atom(Noad {
            kind: Kind::Plain(Class::Ord),
            limits: noad.limits,
            nucleus: Cell::Sym(symbol),
            sup: noad.sup,
            sub: noad.sub,
        }),
        _ => thing,
    }
}

// The pair of two symbols, where they are of one family.
pub(crate) fn symbol_pair(first: Option<Symbol>, second: Option<Symbol>) -> Option<SymbolPair>
    ensures { result ≡ symbol_pair first second }
{
    let (Some(first), Some(second)) = (first, second) else {
        return None;
    };
    if first.fam != second.fam {
        return None;
    }
    Some(SymbolPair {
        fam: first.fam,
        first: first.code,
        second: second.code,
    })
}

fn pair_in_font(font: &Font, pair: SymbolPair) -> Option<Pair>
    ensures { result ≡ pair_in_font (Some font.now) pair }
{
    if font.exists(pair.first) {
        Some(font.pair(pair.first, pair.second))
    } else {
        None
    }
}

// What the font of the pair's family says of it, where its first character exists.
pub(crate) fn pair_of_fonts(fonts: &FontSet, style: Style, pair: SymbolPair) -> Option<Pair>
    ensures { result ≡ pair_of_fonts fonts.now (size_of style) pair }
{
    match fonts.font_of(pair.fam, style.size()) {
        Some(font) => pair_in_font(font, pair),
        None => None,
    }
}
