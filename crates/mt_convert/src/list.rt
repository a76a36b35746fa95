//! The conversion of a math list on a stack of pieces (The TeXbook, Appendix G; tex.web, sections 726 to 767).
ghost use Rattle.std.specs.Prelude.{◌≡◌, ◌≤◌, ◌++◌, ◌^◌, All, IfErr, IfOk, OnOk, List, drop, length};
ghost use Rattle.mt_rules.specs.declared.class.Class.{Class};
ghost use Rattle.mt_rules.specs.declared.kind.Kind.TheVariants.{Plain};
ghost use Rattle.mt_box.specs.Rows.{PieceValue};
ghost use Rattle.mt_scaled.specs.Number.{Within};
ghost use Rattle.mt_rules.specs.AtomRow.{accent_inside, pack_cells, pack_rows, packed_field};
ghost use Rattle.mt_rules.specs.AtomRow.{radical_row, script_box, table_part, vcenter_part, veil_part};
ghost use Rattle.mt_rules.specs.declared.list.Look.TheVariants.{Equations};
ghost use Rattle.mt_rules.specs.Sequence.{rows_length};
ghost use Rattle.mt_rules.specs.Nuclei.{Content, SymbolContent, clean_field, clean_list};
ghost use Rattle.mt_arena.specs.Arena.{cell_part, grid_in, rows_in, sequence_in};
ghost use Rattle.mt_convert.specs.Calls.{SetFails, SetsRowOn};
ghost use Rattle.mt_convert.specs.FirstPass;
ghost use Rattle.mt_convert.specs.ListRow.{cells_by_style, halves_of, rows_by_style};
ghost use Rattle.mt_convert.specs.inner.Fields.{atom_row_of, field_content, fraction_row_of, list_content};
ghost use Rattle.mt_convert.specs.inner.AtomSteps.{accent_part, class_nucleus, kind_nucleus, operator_box, row_with_fields};
ghost use Rattle.mt_convert.specs.inner.AtomSteps.{list_box, part_box, symbol_with_scripts, under_limits};
ghost use Rattle.mt_convert.specs.inner.Forms.{HasDegree};
ghost use Rattle.mt_convert.specs.inner.Modest.{IsModestGrid, IsModestRows};
ghost use Rattle.mt_convert.specs.inner.OnPieces.{CellsOn, SetsAtomOn, SetsBoxOn, SetsBoxesOn, SetsHalfOn};
ghost use Rattle.mt_convert.specs.inner.OnPieces.{SetsNucleusOn, SetsOperatorOn, SetsScriptOn};
ghost use Rattle.mt_convert.specs.inner.Placed.{SetsItemsOn};
ghost use Rattle.mt_convert.specs.inner.Spans.{passed_in, ModestAtom, ModestCell, ModestFraction, ModestPassed, ModestSpan};
ghost use Rattle.mt_convert.specs.inner.Tables.{rows_in_columns};
ghost use Rattle.mt_convert.specs.inner.Turns.{flat_item, role_value};

use crate::SetFault;
use crate::context::Context;
use crate::flat::current::{Current, kind_class};
use crate::flat::joining::{first_symbol, is_empty};
use crate::flat::passed::{Joined, JoiningRole};
use crate::flat::turn::turn;
use crate::lone::{lone_atom, lone_symbol};
use crate::placed::{PlacedList, placed_after};
use crate::second::join::join_items;
use crate::set::answers::part_set;
use crate::set::clean::{clean_symbol, cleaned, empty_box, find_symbol, packed, symbol_extents};
use crate::set::form::{AtomForm, class_nucleus, form_of};
use crate::set::lengths::{
    glue_in_points, long_glue, long_length, make_kern, make_space, push_with_kern,
};
use crate::set::nucleus::{
    big_nucleus, big_operator, part_nucleus, part_operator, symbol_nucleus, symbol_operator,
};
use crate::set::parts::{
    accent, field_skew, fraction, root_of, skew_of, vcenter, veil, with_degree,
};
use crate::set::row::{test_row, tested};
use crate::set::scripts::{symbol_row, with_limits, with_scripts, without_scripts};
use crate::set::settle::finish;
use crate::set::tables::{equations, has_column, matrix, push_count, table_strut};
use mt_arena::{Arena, Cell, FractionNoad, Noad, Rest, Span, Thing, next_cells, next_row};
use mt_family::FontSet;
use mt_pieces::{Pieces, PlacedItem, Scripts};
use mt_rules::{Class, Delim, Glue, Kind, Look, Style, Symbol, in_points};
use mt_scaled::Length;
use mt_spacing::forward;
use std::alloc::Global;

// A space without a size.
const NO_SPACE: Glue = Glue {
    width: 0,
    shrink: 0,
};

// The row of a math list in a style, behind the pieces that are there: at most 2^21 pieces.
#[cycle(setting)]
pub(crate) fn set_span_on(
    pieces: &mut Pieces,
    context: Context<'_>,
    list: Span,
    style: Style,
) -> Result<(), SetFault>
    requires modest { ModestSpan context.arena.now.closed list }
    ensures is { SetsRowOn result pieces.old pieces.new
        (list_content context.entry.fonts.now (sequence_in context.entry.arena.now.closed list) style) }
    ensures few { OnOk result (length (drop (length pieces.old) pieces.new) ≤ 2 ^ 21) }
{
    let first = pieces.len();
    if let Some(atom) = lone_atom(context.arena, list) {
        set_atom(pieces, context, style, JoiningRole::Ordinary, &atom)?;
        return tested(pieces, first);
    }
    let halves = first_pass_on(pieces, context, list, style)?;
    join_items(pieces, context.alloc, context.fonts, style, first, halves)
}

// The first pass over a math list in a style: its items with their final classes, whose rows are behind the pieces that
// are there.
#[cycle(setting)]
pub(crate) fn first_pass_on(
    pieces: &mut Pieces,
    context: Context<'_>,
    list: Span,
    style: Style,
) -> Result<PlacedList, SetFault>
    requires modest { ModestSpan context.arena.now.closed list }
    ensures is { SetsItemsOn result pieces.old pieces.new
        (halves_of context.entry.fonts.now style (sequence_in context.entry.arena.now.closed list)) }
{
    let mut rest = Rest::of(context.alloc, list);
    let mut items = pieces.take_items(context.alloc);
    let mut current = Current::opening(style);
    while let Some(front) = rest.pop(context.arena) {
        if let Some(joined) = turn(context.fonts, context.arena, current, &front, &mut rest)? {
            let half = set_item(pieces, context, current, &front, joined)?;
            push_with_kern(&mut items, half, joined.kern)?;
            current = current.after_half(half);
        }
    }
    Ok(finish(items))
}

// An item that passes, set.
#[cycle(setting)]
fn set_item(
    pieces: &mut Pieces,
    context: Context<'_>,
    current: Current,
    item: &Thing,
    joined: Joined,
) -> Result<PlacedItem, SetFault>
    requires modest { ModestPassed context.arena.now.closed item.now joined }
    ensures is { SetsHalfOn result pieces.old pieces.new
        (FirstPass.set_item context.entry.fonts.now current (flat_item context.entry.fonts.now
        (passed_in context.entry.arena.now.closed item.now joined))) }
{
    match item {
        Thing::Atom(noad) => {
            let class = forward(current.last, kind_class(noad.kind));
            let first = pieces.len();
            set_atom(pieces, context, current.style, joined.role, noad)?;
            Ok(placed_after(pieces, first, class))
        }
        Thing::Fraction(fraction) => {
            let first = pieces.len();
            set_fraction(pieces, context, current.style, fraction)?;
            Ok(placed_after(pieces, first, Class::Inner))
        }
        Thing::Left(delim) => Ok(PlacedItem::Left(*delim)),
        Thing::Middle(delim) => Ok(PlacedItem::Middle(*delim)),
        Thing::Right(delim) => Ok(PlacedItem::Right(*delim)),
        Thing::Style(style) => Ok(PlacedItem::Style(*style)),
        Thing::MuSpace(glue) => {
            make_space(glue_in_points(context.fonts, current.style, long_glue(*glue)))
        }
        Thing::Space(glue) => make_space(long_glue(*glue)),
        Thing::MuKern(amount) => {
            make_kern(in_points(context.fonts, current.style, long_length(*amount)))
        }
        Thing::Kern(amount) => make_kern(long_length(*amount)),
        // A conditional space has no size. The others do not pass.
        _ => make_space(NO_SPACE),
    }
}

// The row of an atom.
#[cycle(setting)]
fn set_atom(
    pieces: &mut Pieces,
    context: Context<'_>,
    style: Style,
    role: JoiningRole,
    atom: &Noad,
) -> Result<(), SetFault>
    requires modest { ModestAtom context.arena.now.closed atom.now }
    ensures is { SetsAtomOn result pieces.old pieces.new
        (atom_row_of context.entry.fonts.now context.entry.arena.now.closed style (role_value role) atom.now) }
{
    if let Some(symbol) = first_symbol(None, atom) {
        return symbol_row(pieces, context.fonts, style, role, symbol);
    }
    match form_of(style, atom) {
        AtomForm::Limits => {
            set_under_limits(pieces, context, style, atom.nucleus, atom.sup, atom.sub)
        }
        AtomForm::AccentInside { accent, symbol } => {
            set_accent_inside(pieces, context, style, accent, symbol, atom.sup, atom.sub)
        }
        AtomForm::Root { sign } => set_root(pieces, context, style, sign, atom.nucleus),
        AtomForm::Beside => {
            let has_subscript = !is_empty(atom.sub);
            let first = pieces.len();
            let delta = set_nucleus(
                pieces,
                context,
                style,
                atom.kind,
                role,
                atom.nucleus,
                has_subscript,
            )?;
            if is_empty(atom.sup) && !has_subscript {
                return without_scripts(pieces, first);
            }
            set_scripts(pieces, context, style, first, delta, atom.sup, atom.sub)
        }
    }
}

// ---- scripts

// The row of a nucleus, which are the pieces from number `first` on, with its scripts beside it.
#[cycle(setting)]
#[inline(never)]
fn set_scripts(
    pieces: &mut Pieces,
    context: Context<'_>,
    style: Style,
    first: usize,
    delta: Length,
    sup: Cell,
    sub: Cell,
) -> Result<(), SetFault>
    requires few { length (drop first pieces.old) ≤ 2 }
    requires delta { Within (2 ^ 31) delta.sp }
    requires sup { ModestCell context.arena.now.closed sup }
    requires sub { ModestCell context.arena.now.closed sub }
    ensures is { (before row : List PieceValue) → length before ≡ first → pieces.old ≡ before ++ row
        → SetsAtomOn result before pieces.new
        (row_with_fields context.entry.fonts.now style (record { row = row; delta = delta.sp })
        (field_content context.entry.fonts.now context.entry.arena.now.closed sup)
        (field_content context.entry.fonts.now context.entry.arena.now.closed sub)) }
{
    let sup = set_script(pieces, context, style.sup(), sup)?;
    let sub = set_script(pieces, context, style.sub(), sub)?;
    with_scripts(
        pieces,
        context.fonts,
        style,
        first,
        delta,
        Scripts { sup, sub },
    )
}

// The row of an operator that is set now, with its scripts above and below it.
#[cycle(setting)]
#[inline(never)]
fn set_under_limits(
    pieces: &mut Pieces,
    context: Context<'_>,
    style: Style,
    nucleus: Cell,
    sup: Cell,
    sub: Cell,
) -> Result<(), SetFault>
    requires nucleus { ModestCell context.arena.now.closed nucleus }
    requires sup { ModestCell context.arena.now.closed sup }
    requires sub { ModestCell context.arena.now.closed sub }
    ensures is { SetsAtomOn result pieces.old pieces.new
        (under_limits context.entry.fonts.now style
        (field_content context.entry.fonts.now context.entry.arena.now.closed nucleus)
        (field_content context.entry.fonts.now context.entry.arena.now.closed sup)
        (field_content context.entry.fonts.now context.entry.arena.now.closed sub)) }
{
    let delta = set_operator(pieces, context, style, nucleus)?;
    let sup = set_script(pieces, context, style.sup(), sup)?;
    let sub = set_script(pieces, context, style.sub(), sub)?;
    with_limits(
        pieces,
        context.fonts,
        style.size(),
        delta,
        Scripts { sup, sub },
    )
}

// The clean box of a script, and whether there is one.
#[cycle(setting)]
#[inline(always)]
fn set_script(
    pieces: &mut Pieces,
    context: Context<'_>,
    style: Style,
    field: Cell,
) -> Result<bool, SetFault>
    requires modest { ModestCell context.arena.now.closed field }
    ensures is { SetsScriptOn result pieces.old pieces.new
        (script_box context.entry.fonts.now style
        (field_content context.entry.fonts.now context.entry.arena.now.closed field)) }
{
    if is_empty(field) {
        return Ok(false);
    }
    clean_field(pieces, context, style, field)?;
    Ok(true)
}

// The clean box of a field.
#[cycle(setting)]
fn clean_field(
    pieces: &mut Pieces,
    context: Context<'_>,
    style: Style,
    field: Cell,
) -> Result<(), SetFault>
    requires modest { ModestCell context.arena.now.closed field }
    ensures is { SetsBoxOn result pieces.old pieces.new
        (clean_field context.entry.fonts.now style
        (field_content context.entry.fonts.now context.entry.arena.now.closed field)) }
{
    match field {
        Cell::Sym(symbol) => clean_symbol(pieces, context.fonts, style, symbol),
        Cell::List(list) => clean_list(pieces, context, style, list),
        _ => empty_box(pieces),
    }
}

// The clean box of a list.
#[cycle(setting)]
fn clean_list(
    pieces: &mut Pieces,
    context: Context<'_>,
    style: Style,
    list: Span,
) -> Result<(), SetFault>
    requires modest { ModestSpan context.arena.now.closed list }
    ensures is { SetsBoxOn result pieces.old pieces.new
        (clean_list (list_content context.entry.fonts.now (sequence_in context.entry.arena.now.closed list)) style) }
{
    if let Some(symbol) = lone_symbol(context.arena, list) {
        return clean_symbol(pieces, context.fonts, style, symbol);
    }
    let first = pieces.len();
    set_span_on(pieces, context, list, style)?;
    cleaned(pieces, first)
}

// ---- the nucleus

// The nucleus of an atom of any kind, where its scripts are beside it: its pieces, and the italic correction that they do
// not have yet.
#[cycle(setting)]
fn set_nucleus(
    pieces: &mut Pieces,
    context: Context<'_>,
    style: Style,
    kind: Kind,
    role: JoiningRole,
    field: Cell,
    has_subscript: bool,
) -> Result<Length, SetFault>
    requires modest { ModestCell context.arena.now.closed field }
    ensures is { SetsNucleusOn result pieces.old pieces.new
        (kind_nucleus kind context.entry.fonts.now style (role_value role)
        (field_content context.entry.fonts.now context.entry.arena.now.closed field) has_subscript) }
{
    match kind {
        Kind::Plain(class) => {
            set_plain(pieces, context, style, class, role, field, has_subscript)
        }
        _ => part_nucleus(set_part(pieces, context, style, kind, field)),
    }
}

// The box of an atom of any kind but the plain one.
#[cycle(setting)]
#[inline(never)]
fn set_part(
    pieces: &mut Pieces,
    context: Context<'_>,
    style: Style,
    kind: Kind,
    field: Cell,
) -> Result<(), SetFault>
    requires modest { ModestCell context.arena.now.closed field }
    requires other { (class : Class) → kind ≡ Plain class → ⊥ }
    ensures is { SetsBoxOn result pieces.old pieces.new
        (part_box kind context.entry.fonts.now style
        (field_content context.entry.fonts.now context.entry.arena.now.closed field)) }
{
    match kind {
        Kind::Radical(sign) => {
            clean_field(pieces, context, style.cramped(), field)?;
            part_set(pieces.radical(context.fonts, style, sign))
        }
        Kind::Accent(accent) => set_accent(pieces, context, style, accent, field),
        Kind::Over => {
            clean_field(pieces, context, style.cramped(), field)?;
            part_set(pieces.overline(context.fonts, style.size()))
        }
        Kind::Under => {
            clean_field(pieces, context, style, field)?;
            part_set(pieces.underline(context.fonts, style.size()))
        }
        Kind::Vcenter => set_vcenter(pieces, context, style, field),
        Kind::Veil {
            width,
            height,
            marks,
        } => set_veil(pieces, context, style, width, height, marks, field),
        Kind::Plain(_) => unreachable!(),
    }
}

// The nucleus of an atom of the plain kind.
#[cycle(setting)]
#[inline]
fn set_plain(
    pieces: &mut Pieces,
    context: Context<'_>,
    style: Style,
    class: Class,
    role: JoiningRole,
    field: Cell,
    has_subscript: bool,
) -> Result<Length, SetFault>
    requires modest { ModestCell context.arena.now.closed field }
    ensures is { SetsNucleusOn result pieces.old pieces.new
        (class_nucleus class context.entry.fonts.now style (role_value role)
        (field_content context.entry.fonts.now context.entry.arena.now.closed field) has_subscript) }
{
    match field {
        Cell::Sym(symbol) => {
            class_nucleus(
                pieces,
                context.fonts,
                style,
                class,
                role,
                symbol,
                has_subscript,
            )
        }
        Cell::List(list) => part_nucleus(pack_list(pieces, context, style, list)),
        Cell::Big { delim, level } => big_nucleus(pieces, context.fonts, delim, level),
        _ => Ok(Length { sp: 0 }),
    }
}

// The row of a list, packed.
#[cycle(setting)]
fn pack_list(
    pieces: &mut Pieces,
    context: Context<'_>,
    style: Style,
    list: Span,
) -> Result<(), SetFault>
    requires modest { ModestSpan context.arena.now.closed list }
    ensures is { SetsBoxOn result pieces.old pieces.new
        (list_box (list_content context.entry.fonts.now (sequence_in context.entry.arena.now.closed list)) style) }
{
    let first = pieces.len();
    set_span_on(pieces, context, list, style)?;
    packed(pieces, first)
}

// An operator under limits: its clean box, and the italic correction that the box does not have.
#[cycle(setting)]
#[inline(never)]
fn set_operator(
    pieces: &mut Pieces,
    context: Context<'_>,
    style: Style,
    field: Cell,
) -> Result<Length, SetFault>
    requires modest { ModestCell context.arena.now.closed field }
    ensures is { SetsOperatorOn result pieces.old pieces.new
        (operator_box context.entry.fonts.now style
        (field_content context.entry.fonts.now context.entry.arena.now.closed field)) }
{
    match field {
        Cell::Sym(symbol) => symbol_operator(pieces, context.fonts, style, symbol),
        Cell::List(list) => part_operator(clean_list(pieces, context, style, list)),
        Cell::Big { delim, level } => big_operator(pieces, context.fonts, delim, level),
        _ => part_operator(empty_box(pieces)),
    }
}

// The box of a field as the nucleus of an ordinary atom without scripts.
#[cycle(setting)]
#[inline(never)]
fn pack_field(
    pieces: &mut Pieces,
    context: Context<'_>,
    style: Style,
    field: Cell,
) -> Result<(), SetFault>
    requires modest { ModestCell context.arena.now.closed field }
    ensures is { SetsBoxOn result pieces.old pieces.new
        (packed_field context.entry.fonts.now style
        (field_content context.entry.fonts.now context.entry.arena.now.closed field)) }
{
    let first = pieces.len();
    let role = JoiningRole::Ordinary;
    set_plain(pieces, context, style, Class::Ord, role, field, false)?;
    without_scripts(pieces, first)?;
    packed(pieces, first)
}

// ---- parts round a nucleus

// A radical with its degree: the degree, then the radical, then both side by side.
#[cycle(setting)]
#[inline(never)]
fn set_root(
    pieces: &mut Pieces,
    context: Context<'_>,
    style: Style,
    sign: Delim,
    nucleus: Cell,
) -> Result<(), SetFault>
    requires degree { HasDegree (cell_part context.arena.now.closed nucleus) }
    requires modest { ModestCell context.arena.now.closed nucleus }
    ensures is { (sup sub : Content) → SetsAtomOn result pieces.old pieces.new
        (radical_row context.entry.fonts.now style sign
        (field_content context.entry.fonts.now context.entry.arena.now.closed nucleus) sup sub) }
{
    let root = root_of(context.arena, nucleus);
    let first = pieces.len();
    pack_field(pieces, context, Style::Ss, Cell::List(root.degree))?;
    let kind = Kind::Radical(sign);
    set_part(pieces, context, style.uncramped(), kind, root.body)?;
    with_degree(pieces, context.fonts, style, first)
}

// An accent over a nucleus whose scripts belong to the whole.
#[cycle(setting)]
#[inline(never)]
fn set_accent(
    pieces: &mut Pieces,
    context: Context<'_>,
    style: Style,
    symbol: Symbol,
    field: Cell,
) -> Result<(), SetFault>
    requires modest { ModestCell context.arena.now.closed field }
    ensures is { SetsBoxOn result pieces.old pieces.new
        (accent_part context.entry.fonts.now style symbol
        (field_content context.entry.fonts.now context.entry.arena.now.closed field)) }
{
    find_symbol(context.fonts, style.size(), symbol)?;
    let skew = field_skew(context.fonts, style.size(), field);
    clean_field(pieces, context, style.cramped(), field)?;
    let plain = pieces.last_extents();
    accent(pieces, context.fonts, style.size(), symbol, skew, plain)
}

// An accent over a symbol whose scripts belong under it.
#[cycle(setting)]
#[inline(never)]
fn set_accent_inside(
    pieces: &mut Pieces,
    context: Context<'_>,
    style: Style,
    accent_symbol: Symbol,
    symbol: Symbol,
    sup: Cell,
    sub: Cell,
) -> Result<(), SetFault>
    requires sup { ModestCell context.arena.now.closed sup }
    requires sub { ModestCell context.arena.now.closed sub }
    ensures is { SetsAtomOn result pieces.old pieces.new
        (accent_inside context.entry.fonts.now style accent_symbol (SymbolContent symbol)
        (field_content context.entry.fonts.now context.entry.arena.now.closed sup)
        (field_content context.entry.fonts.now context.entry.arena.now.closed sub)) }
{
    find_symbol(context.fonts, style.size(), accent_symbol)?;
    let plain = symbol_extents(pieces, context.fonts, style.cramped(), symbol)?;
    let first = pieces.len();
    set_symbol(pieces, context, style, symbol, sup, sub)?;
    let skew = skew_of(context.fonts, style.size(), symbol);
    accent(
        pieces,
        context.fonts,
        style.size(),
        accent_symbol,
        skew,
        plain,
    )?;
    test_row(pieces, first)
}

// The box of a symbol with its scripts beside it.
#[cycle(setting)]
fn set_symbol(
    pieces: &mut Pieces,
    context: Context<'_>,
    style: Style,
    symbol: Symbol,
    sup: Cell,
    sub: Cell,
) -> Result<(), SetFault>
    requires sup { ModestCell context.arena.now.closed sup }
    requires sub { ModestCell context.arena.now.closed sub }
    ensures is { SetsBoxOn result pieces.old pieces.new
        (symbol_with_scripts context.entry.fonts.now style symbol
        (field_content context.entry.fonts.now context.entry.arena.now.closed sup)
        (field_content context.entry.fonts.now context.entry.arena.now.closed sub)) }
{
    let first = pieces.len();
    let role = JoiningRole::Ordinary;
    let delta = symbol_nucleus(pieces, context.fonts, style, symbol, role, !is_empty(sub))?;
    set_scripts(pieces, context, style, first, delta, sup, sub)?;
    packed(pieces, first)
}

// What a phantom leaves of its nucleus.
#[cycle(setting)]
#[inline(never)]
fn set_veil(
    pieces: &mut Pieces,
    context: Context<'_>,
    style: Style,
    width: bool,
    height: bool,
    marks: bool,
    field: Cell,
) -> Result<(), SetFault>
    requires modest { ModestCell context.arena.now.closed field }
    ensures is { SetsBoxOn result pieces.old pieces.new
        (veil_part context.entry.fonts.now style width height marks
        (field_content context.entry.fonts.now context.entry.arena.now.closed field)) }
{
    pack_field(pieces, context, style.uncramped(), field)?;
    veil(pieces, width, height, marks)
}

#[cycle(setting)]
#[inline(never)]
fn set_vcenter(
    pieces: &mut Pieces,
    context: Context<'_>,
    style: Style,
    field: Cell,
) -> Result<(), SetFault>
    requires modest { ModestCell context.arena.now.closed field }
    ensures is { SetsBoxOn result pieces.old pieces.new
        (vcenter_part context.entry.fonts.now style
        (field_content context.entry.fonts.now context.entry.arena.now.closed field)) }
{
    let first = pieces.len();
    match field {
        Cell::Rows(rows) => {
            set_rows(pieces, context, Look::Matrix, rows)?;
            vcenter(pieces, context.alloc, context.fonts, style.size(), first)
        }
        Cell::Table(look, rows) => set_table(pieces, context, style, look, rows),
        _ => vcenter(pieces, context.alloc, context.fonts, style.size(), first),
    }
}

// Rows, each a formula in text style, as boxes: how many. Of a row of equations these are the cells that have a column.
#[cycle(setting)]
fn set_rows(
    pieces: &mut Pieces,
    context: Context<'_>,
    look: Look,
    rows: Span,
) -> Result<usize, SetFault>
    requires within { rows.end ≤ length context.arena.now.closed }
    requires modest { IsModestRows (rows_in context.arena.now.closed rows) }
    ensures is { SetsBoxesOn result pieces.old pieces.new
        (pack_rows (rows_by_style context.entry.fonts.now (rows_in_columns look
        (rows_in context.entry.arena.now.closed rows)))) }
    ensures few { IfOk result (λ n. n ≤ 2 ^ 18) }
    ensures count { IfOk result (λ n. n ≡ rows_length (rows_in_columns look
        (rows_in context.entry.arena.now.closed rows))) }
{
    let mut rest = rows;
    let mut count = 0;
    while let Some(list) = next_row(context.arena, &mut rest) {
        if !has_column(look, count) {
            return Ok(count);
        }
        pack_list(pieces, context, Style::T, list)?;
        count += 1;
    }
    Ok(count)
}

// A table: for a matrix its strut, then the cells, then their box.
#[cycle(setting)]
#[inline(never)]
fn set_table(
    pieces: &mut Pieces,
    context: Context<'_>,
    style: Style,
    look: Look,
    rows: Span,
) -> Result<(), SetFault>
    requires within { rows.end ≤ length context.arena.now.closed }
    requires modest { IsModestGrid (grid_in context.arena.now.closed rows) }
    ensures is { SetsBoxOn result pieces.old pieces.new
        (table_part context.entry.fonts.now style look (cells_by_style context.entry.fonts.now
        (grid_in context.entry.arena.now.closed rows))) }
{
    let first = pieces.len();
    match look {
        Look::Matrix => {
            let strut = table_strut(context.fonts)?;
            let counts = set_cells(pieces, context, look, rows)?;
            matrix(
                pieces,
                context.alloc,
                context.fonts,
                style.size(),
                strut,
                first,
                &counts,
            )
        }
        Look::Equations => {
            let counts = set_cells(pieces, context, look, rows)?;
            equations(
                pieces,
                context.alloc,
                context.fonts,
                style.size(),
                first,
                &counts,
            )
        }
    }
}

// The cells of a table, row by row: how many there are in each.
#[cycle(setting)]
fn set_cells(
    pieces: &mut Pieces,
    context: Context<'_>,
    look: Look,
    rows: Span,
) -> Result<Vec<usize>, SetFault>
    requires within { rows.end ≤ length context.arena.now.closed }
    requires modest { IsModestGrid (grid_in context.arena.now.closed rows) }
    ensures is { IfOk result (λ counts. CellsOn counts.items pieces.old pieces.new
        (pack_cells look (cells_by_style context.entry.fonts.now (grid_in context.entry.arena.now.closed rows)))) }
    ensures fault { IfErr result (λ fault. SetFails fault
        (pack_cells look (cells_by_style context.entry.fonts.now (grid_in context.entry.arena.now.closed rows)))) }
    ensures few { IfOk result (λ counts. length counts.items ≤ 2 ^ 18) }
    ensures columns { IfOk result (λ counts. All (λ n. n ≤ 2 ^ 18) counts.items) }
    ensures sides { look ≡ Equations → IfOk result (λ counts. All (λ n. n ≤ 2) counts.items) }
{
    let mut counts = Vec::new(context.alloc);
    let mut rest = rows;
    while let Some(cells) = next_cells(context.arena, &mut rest) {
        let count = set_rows(pieces, context, look, cells)?;
        push_count(&mut counts, count)?;
    }
    Ok(counts)
}

// ---- fractions

// The row of a fraction.
#[cycle(setting)]
#[inline(never)]
fn set_fraction(
    pieces: &mut Pieces,
    context: Context<'_>,
    style: Style,
    fields: &FractionNoad,
) -> Result<(), SetFault>
    requires modest { ModestFraction context.arena.now.closed fields.now }
    ensures is { SetsAtomOn result pieces.old pieces.new
        (fraction_row_of context.entry.fonts.now context.entry.arena.now.closed style fields.now) }
{
    let FractionNoad {
        thickness,
        left,
        right,
        num,
        den,
    } = *fields;
    clean_list(pieces, context, style.num(), num)?;
    clean_list(pieces, context, style.den(), den)?;
    fraction(pieces, context.fonts, style, thickness, left, right)
}
