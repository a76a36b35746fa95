//! Parts round a nucleus, which is the last piece (The TeXbook, Appendix G, rules 8 to 12 and 15).
ghost use Rattle.std.specs.Prelude.{◌≡◌, ◌≤◌, ◌^◌, ◌++◌, ◌∷◌, [], ℕ, IsOk, List, Ok, drop, length, pos};
ghost use Rattle.std.specs.Prelude.{unwrap_or};
ghost use Rattle.mt_scaled.specs.Number.{Within};
ghost use Rattle.mt_box.specs.Extents.{ExtentsInRange};
ghost use Rattle.mt_box.specs.Layout.{Layout};
ghost use Rattle.mt_box.specs.Rows.{PieceBox, PieceValue};
ghost use Rattle.mt_rules.specs.Accents;
ghost use Rattle.mt_rules.specs.AtomRow.{content_skew, skew_in};
ghost use Rattle.mt_rules.specs.Fractions;
ghost use Rattle.mt_rules.specs.Modest.{ThicknessAmount};
ghost use Rattle.mt_rules.specs.Parameters;
ghost use Rattle.mt_rules.specs.Sequence.{EmptyPart, End, RootPart};
ghost use Rattle.mt_rules.specs.Styles.{size_of};
ghost use Rattle.mt_rules.specs.Symbols.{find_symbol};
ghost use Rattle.mt_rules.specs.Vcenter;
ghost use Rattle.mt_rules.specs.Veils.{veil_layout};
ghost use Rattle.mt_arena.specs.Arena.{Held, as_root, cell_end, cell_part};
ghost use Rattle.mt_arena.specs.Arena.{sequence_in, thing_end, value_in};
ghost use Rattle.mt_family.specs.SetValue.{number_in};
ghost use Rattle.mt_pieces.specs.Putting.{unraised_boxes};
ghost use Rattle.mt_convert.specs.inner.AtomSteps.{lone_box, row_of_root};
ghost use Rattle.mt_convert.specs.inner.Fields.{field_content};
ghost use Rattle.mt_convert.specs.inner.Forms.{HasDegree};
ghost use Rattle.mt_convert.specs.inner.OnPieces.{EndsInTwoBoxes, SetsAtomOn, SetsBoxOn};

use crate::SetFault;
use crate::set::answers::part_set;
use crate::set::lengths::long_length;
use crate::set::row::{look_at_last, test_row};
use mt_arena::{Arena, Cell, RootParts, Span, Thing};
use mt_box::Extents;
use mt_family::{FontSet, Size};
use mt_pieces::Pieces;
use mt_rules::parameters::default_rule_thickness;
use mt_rules::{Delim, Style, Symbol};
use mt_scaled::Length;
use std::alloc::Global;

// The degree and the body of a field that is a root.
pub(crate) fn root_of(arena: &Arena, field: Cell) -> RootParts
    requires within { cell_end field ≤ length arena.now.closed }
    ensures is { HasDegree (cell_part arena.now.closed field)
        → cell_part arena.now.closed field
        ≡ RootPart (sequence_in arena.now.closed result.degree) (cell_part arena.now.closed result.body) }
    ensures degree { result.degree.end ≤ length arena.now.closed }
    ensures body { cell_end result.body ≤ length arena.now.closed }
{
    match field {
        Cell::Root(at) => parts_of(arena.thing(at as usize)),
        _ => root_of_nothing(),
    }
}

fn parts_of(thing: &Thing) -> RootParts
    ensures is { (es : List Held) → as_root (value_in es thing.now ∷ [])
        ≡ RootPart (sequence_in es result.degree) (cell_part es result.body) }
    ensures degree { result.degree.end ≤ thing_end thing.now }
    ensures body { cell_end result.body ≤ thing_end thing.now }
{
    match thing {
        Thing::Root(parts) => *parts,
        _ => root_of_nothing(),
    }
}

fn root_of_nothing() -> RootParts
    ensures degree { (es : List Held) → sequence_in es result.degree ≡ End }
    ensures body { (es : List Held) → cell_part es result.body ≡ EmptyPart }
    ensures degree_end { result.degree.end ≡ 0 }
    ensures body_end { cell_end result.body ≡ 0 }
{
    RootParts {
        degree: Span { start: 0, end: 0 },
        body: Cell::Empty,
    }
}

// The row of a degree and its radical, which are the last pieces, tested. The degree is number `first`.
#[inline(never)]
pub(crate) fn with_degree(
    pieces: &mut Pieces,
    fonts: &FontSet,
    style: Style,
    first: usize,
) -> Result<(), SetFault>
    requires { EndsInTwoBoxes first pieces.old }
    ensures { (rest : List PieceValue) (d r : Layout) → length rest ≡ first
        → pieces.old ≡ rest ++ PieceBox (pos 0) d ∷ PieceBox (pos 0) r ∷ []
        → SetsAtomOn result rest pieces.new (row_of_root fonts.now style d r) }
{
    part_set(pieces.root(fonts, style))?;
    test_row(pieces, first)
}

// The rows from number `first` on, one below another, with the axis in the middle.
#[inline(never)]
pub(crate) fn vcenter(
    pieces: &mut Pieces,
    alloc: Global,
    fonts: &FontSet,
    size: Size,
    first: usize,
) -> Result<(), SetFault>
    requires few { length (drop first pieces.old) ≤ 2 ^ 18 }
    ensures { (rest : List PieceValue) (ls : List Layout) → length rest ≡ first
        → pieces.old ≡ rest ++ unraised_boxes ls
        → SetsBoxOn result rest pieces.new (Vcenter.vcenter fonts.now size ls) }
{
    part_set(pieces.vcenter(alloc, fonts, size, first))
}

// The accent over the last piece. The accent's symbol is found at this size.
#[inline(never)]
pub(crate) fn accent(
    pieces: &mut Pieces,
    fonts: &FontSet,
    size: Size,
    symbol: Symbol,
    skew: Length,
    plain: Extents,
) -> Result<(), SetFault>
    requires found { IsOk (find_symbol fonts.now size symbol) }
    requires skew { Within (2 ^ 31) skew.sp }
    requires plain { ExtentsInRange plain }
    ensures { (k : ℕ) → find_symbol fonts.now size symbol ≡ Ok k → (rest : List PieceValue) (l : Layout)
        → pieces.old ≡ rest ++ PieceBox (pos 0) l ∷ []
        → SetsBoxOn result rest pieces.new (Accents.accent fonts.now k symbol.code skew.sp plain l) }
{
    part_set(pieces.accent(fonts, size, symbol, skew, plain))
}

// What a phantom leaves of the last piece.
pub(crate) fn veil(
    pieces: &mut Pieces,
    width: bool,
    height: bool,
    marks: bool,
) -> Result<(), SetFault>
    ensures { (rest : List PieceValue) (l : Layout) → pieces.old ≡ rest ++ PieceBox (pos 0) l ∷ []
        → SetsBoxOn result rest pieces.new (Ok (veil_layout width height marks l)) }
{
    part_set(pieces.veil(width, height, marks))
}

// The skew of a symbol, in the font that its family has at this size.
pub(crate) fn skew_of(fonts: &FontSet, size: Size, symbol: Symbol) -> Length
    ensures is { result.sp ≡ skew_in fonts.now (number_in fonts.now.families symbol.fam size) symbol.code }
    ensures small { Within (2 ^ 31) result.sp }
{
    match fonts.font_of(symbol.fam, size) {
        Some(font) => Length {
            sp: font.skew_of(symbol.code),
        },
        None => Length { sp: 0 },
    }
}

// The skew of what is a symbol, else 0.
pub(crate) fn field_skew(fonts: &FontSet, size: Size, field: Cell) -> Length
    ensures is { (es : List Held) → result.sp ≡ content_skew fonts.now size (field_content fonts.now es field) }
    ensures small { Within (2 ^ 31) result.sp }
{
    match field {
        Cell::Sym(symbol) => skew_of(fonts, size, symbol),
        _ => Length { sp: 0 },
    }
}

// The row of a fraction, whose numerator and denominator are the last pieces. Without a thickness of its own its rule
// has that of the font.
#[inline(never)]
pub(crate) fn fraction(
    pieces: &mut Pieces,
    fonts: &FontSet,
    style: Style,
    thickness: Option<i32>,
    left: Delim,
    right: Delim,
) -> Result<(), SetFault>
    requires thickness { ThicknessAmount thickness }
    ensures { (rest : List PieceValue) (n d : Layout)
        → pieces.old ≡ rest ++ PieceBox (pos 0) n ∷ PieceBox (pos 0) d ∷ []
        → SetsAtomOn result rest pieces.new (lone_box (Fractions.fraction fonts.now style
        (unwrap_or thickness (Parameters.default_rule_thickness fonts.now (size_of style))) left right n d)) }
{
    let thickness = thickness_of(fonts, style, thickness);
    part_set(pieces.fraction(fonts, style, thickness, left, right))?;
    look_at_last(pieces);
    Ok(())
}

fn thickness_of(fonts: &FontSet, style: Style, thickness: Option<i32>) -> Length
    requires { ThicknessAmount thickness }
    ensures is { result.sp ≡ unwrap_or thickness (Parameters.default_rule_thickness fonts.now (size_of style)) }
    ensures small { Within (2 ^ 31) result.sp }
{
    match thickness {
        Some(amount) => long_length(amount),
        None => default_rule_thickness(fonts, style.size()),
    }
}
