//! Atoms in an arena: how they are made, and what the one at hand becomes.
ghost use Rattle.std.specs.Prelude.{◌≡◌, List};
ghost use Rattle.mt_rules.specs.declared.class.Class.TheVariants.{Ord};
ghost use Rattle.mt_rules.specs.declared.kind.Kind.TheVariants.{Plain};
ghost use Rattle.mt_arena.specs.Arena.{Held};
ghost use Rattle.mt_arena.specs.declared.thing.Cell.TheVariants.{Sym};
ghost use Rattle.mt_scan.specs.Role.{nucleus_kind};
ghost use Rattle.mt_formula.specs.Atoms.{is_bare_ord, is_accent_kind, is_free, is_op};
ghost use Rattle.mt_formula.specs.reading.Noads.{bare_noad, last_in, limited, noad_in, noad_with, symbol_noad};

use mt_arena::{Cell, Noad};
use mt_rules::{Class, Kind, Limits, Symbol};
use mt_scan::{FieldKind, Side, class_of, code_symbol};

/// The kind of an atom with a nucleus of this kind.
pub fn kind_of(kind: FieldKind) -> Kind
    ensures { result ≡ nucleus_kind kind }
{
    match kind {
        FieldKind::Class(class) => Kind::Plain(class),
        FieldKind::Radical(delim) => Kind::Radical(delim),
        FieldKind::Accent(symbol) => Kind::Accent(symbol),
        FieldKind::Over => Kind::Over,
        FieldKind::Under => Kind::Under,
        FieldKind::Veil {
            width,
            height,
            marks,
        } => Kind::Veil {
            width,
            height,
            marks,
        },
    }
}

/// An atom without scripts.
pub fn plain_noad(kind: Kind, nucleus: Cell) -> Noad
    ensures { result ≡ bare_noad kind nucleus }
{
    Noad {
        kind,
        limits: Limits::Default,
        nucleus,
        sup: Cell::Empty,
        sub: Cell::Empty,
    }
}

/// The atom of a math code, where this family is current.
pub fn symbol_noad(family: Option<u8>, code: u16) -> Noad
    ensures { result ≡ symbol_noad family code }
{
    let code = u32::from(code);
    let symbol = code_symbol(family, code);
    plain_noad(Kind::Plain(class_of(code)), Cell::Sym(symbol))
}

/// The atom of a prime (plain TeX's `\prime`).
pub fn prime_noad() -> Noad
    ensures { result ≡ bare_noad (Plain Ord) (Sym (record { fam = 2; code = 48 })) }
{
    let prime = Symbol { fam: 2, code: 48 };
    plain_noad(Kind::Plain(Class::Ord), Cell::Sym(prime))
}

/// The atom at hand with this script, or a new one where there is none.
pub fn with_script(last: Option<Noad>, side: Side, part: Cell) -> Noad
    ensures { result ≡ noad_with side part last }
{
    let noad = match last {
        Some(noad) => noad,
        None => plain_noad(Kind::Plain(Class::Ord), Cell::Empty),
    };
    match side {
        Side::Up => Noad { sup: part, ..noad },
        Side::Down => Noad { sub: part, ..noad },
    }
}

/// The atom at hand with its limits placed so.
pub fn with_limits(last: Option<Noad>, limits: Limits) -> Option<Noad>
    ensures { result ≡ limited limits last }
{
    match last {
        Some(noad) => Some(Noad { limits, ..noad }),
        None => None,
    }
}

/// Whether a script can be put to the atom at hand.
pub fn is_free(side: Side, last: &Option<Noad>) -> bool
    ensures { (es : List Held) → result ≡ is_free side (last_in es last.now) }
{
    match last {
        None => true,
        Some(noad) => match side {
            Side::Up => matches!(noad.sup, Cell::Empty),
            Side::Down => matches!(noad.sub, Cell::Empty),
        },
    }
}

/// Whether the atom at hand is an operator.
pub fn is_op(last: &Option<Noad>) -> bool
    ensures { (es : List Held) → result ≡ is_op (last_in es last.now) }
{
    match last {
        None => false,
        Some(noad) => matches!(noad.kind, Kind::Plain(Class::Op)),
    }
}

/// Whether an atom is an Ord without scripts, of which the nucleus is a field.
pub fn is_bare(noad: &Noad) -> bool
    ensures { (es : List Held) → result ≡ is_bare_ord (noad_in es noad.now) }
{
    matches!(noad.kind, Kind::Plain(Class::Ord))
        && matches!(noad.nucleus, Cell::Empty | Cell::Sym(_) | Cell::List(_))
        && matches!(noad.sup, Cell::Empty)
        && matches!(noad.sub, Cell::Empty)
}

/// Whether an atom is an accent.
pub fn is_accent(noad: &Noad) -> bool
    ensures { result ≡ is_accent_kind noad.now.kind }
{
    matches!(noad.kind, Kind::Accent(_))
}
