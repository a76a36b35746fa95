//! What an action gives, and how it is put to the list in which it is read.
ghost use Rattle.std.specs.Prelude.{◌≡◌, ◌≤◌, ℕ, pos, List, Option, IfOk, OnOk, length, true};
ghost use Rattle.mt_rules.specs.Sequence.{End, More};
ghost use Rattle.mt_rules.specs.declared.kind.Kind.TheVariants.{Vcenter};
ghost use Rattle.mt_rules.specs.declared.list.Look.TheVariants.{Matrix};
ghost use Rattle.mt_scaled.specs.declared.unit.Units.{Units};
ghost use Rattle.mt_token.specs.declared.token.Token.{Token};
ghost use Rattle.mt_plain.specs.CodeTables.{CodeTables};
ghost use Rattle.mt_arena.specs.Arena.{Held, cell_part, grid_in, sequence_in};
ghost use Rattle.mt_arena.specs.Keeping.{GridLists};
ghost use Rattle.mt_arena.specs.declared.thing.Cell.TheVariants.{List as OfList, Table as OfTable};
ghost use Rattle.mt_arena.specs.declared.thing.Thing.TheVariants.{MuSpace};
ghost use Rattle.mt_scan.specs.Parts.{Got};
ghost use Rattle.mt_scan.specs.Role.{nucleus_kind, simple_element};
ghost use Rattle.mt_formula.specs.Atoms.{is_ord_kind, nucleus_atom, plain_atom, root_atom};
ghost use Rattle.mt_formula.specs.Items.{atom_given, given, table_given};
ghost use Rattle.mt_formula.specs.Lists.{ItemRunReader};
ghost use Rattle.mt_formula.specs.Tables.{enclosed_items};
ghost use Rattle.mt_formula.specs.declared.reading.given.Given.TheVariants as give;
ghost use Rattle.mt_formula.specs.reading.Givens.{KeptGiven, KeptThing, given_in, is_plain_action, item_in, table_held};
ghost use Rattle.mt_formula.specs.reading.Noads.{KeptField, KeptLast, OpenNoad, bare_noad, symbol_noad};
ghost use Rattle.mt_formula.specs.reading.Reads.{Adds, Grows, Puts};
ghost use Rattle.mt_formula.specs.reading.WholeLists.{KeptSpan, KeptWhole, list_in};

use crate::actions::action::Action;
use crate::actions::table_form::{TableForm, look_of};
use crate::reading::noads::{kind_of, plain_noad, symbol_noad, with_limits, with_script};
use crate::reading::whole_list::{WholeList, group_noad, nucleus_of, push_last};
use mt_arena::{Arena, Cell, Noad, RootParts, ShortGlue, Span, Thing, short_amount, short_glue};
use mt_rules::{Class, Delim, Kind, Limits, Look};
use mt_scan::{FieldKind, Side, Simple, delim_of};
use std::alloc::AllocError;

/// What an action gives.
#[derive(Clone, Copy)]
pub enum Given {
    /// Nothing.
    Nothing,
    /// An atom, which may still get scripts.
    Atom(Noad),
    /// Another item, or an atom without scripts.
    Item(Thing),
    /// A table of these rows, between thin spaces.
    Table(Look, Span),
    /// A script of the atom at hand, or of a new one.
    Script(Side, Cell),
    /// How the limits of the atom at hand are placed.
    Limits(Limits),
    /// The current family.
    Family(Option<u8>),
}

/// How far a run of items is read.
#[derive(Clone, Copy)]
pub struct RunEnd {
    /// The atom at hand, which may still get scripts and is no item yet.
    pub last: Option<Noad>,
    /// The current family.
    pub family: Option<u8>,
}

// An item behind the atom at hand.
fn put_item(arena: &mut Arena, run: &mut RunEnd, thing: Thing) -> Result<(), AllocError>
    requires last { KeptLast arena.old.closed run.old.last }
    requires thing { KeptThing arena.old.closed thing }
    ensures is { OnOk result (Puts arena.old arena.new run.old (give.Item thing) run.new) }
    ensures last { OnOk result (KeptLast arena.new.closed run.new.last) }
{
    push_last(arena, &run.last)?;
    arena.push(thing)?;
    run.last = None;
    Ok(())
}

// An atom behind the one at hand.
fn put_atom(arena: &mut Arena, run: &mut RunEnd, noad: Noad) -> Result<(), AllocError>
    requires last { KeptLast arena.old.closed run.old.last }
    requires noad { OpenNoad arena.old.closed noad }
    ensures is { OnOk result (Puts arena.old arena.new run.old (give.Atom noad) run.new) }
    ensures last { OnOk result (KeptLast arena.new.closed run.new.last) }
{
    push_last(arena, &run.last)?;
    run.last = Some(noad);
    Ok(())
}

/// Puts the atom of a math code, with the current family, to the run of items in which it is read.
#[inline(always)]
pub fn put_symbol(arena: &mut Arena, run: &mut RunEnd, code: u16) -> Result<(), AllocError>
    requires { KeptLast arena.old.closed run.old.last }
    ensures is { OnOk result (Puts arena.old arena.new run.old (give.Atom (symbol_noad run.old.family code)) run.new) }
    ensures last { OnOk result (KeptLast arena.new.closed run.new.last) }
{
    let noad = symbol_noad(run.family, code);
    put_atom(arena, run, noad)
}

// The thin space at a side of a table.
fn thin_space() -> Thing
    ensures { result ≡ MuSpace (record { width = pos 196608; shrink = pos 0 }) }
{
    Thing::MuSpace(ShortGlue {
        width: 196_608,
        shrink: 0,
    })
}

/// The atom of a table.
pub fn table_noad(look: Look, rows: Span) -> Noad
    ensures { result ≡ bare_noad Vcenter (OfTable look rows) }
{
    plain_noad(Kind::Vcenter, Cell::Table(look, rows))
}

/// Puts an empty Ord and a table between thin spaces behind the items of the innermost open list (plain TeX's
/// `\null\,\vcenter{..}\,`).
pub fn push_table(arena: &mut Arena, look: Look, rows: Span) -> Result<(), AllocError>
    requires within { rows.end ≤ length arena.old.closed }
    requires lists { GridLists (grid_in arena.old.closed rows) }
    ensures { OnOk result (Adds arena.old arena.new (table_held arena.old.closed look rows)) }
{
    arena.push(Thing::Atom(plain_noad(Kind::Plain(Class::Ord), Cell::Empty)))?;
    arena.push(thin_space())?;
    arena.push(Thing::Atom(table_noad(look, rows)))?;
    arena.push(thin_space())
}

// A table behind the atom at hand.
fn put_table(arena: &mut Arena, run: &mut RunEnd, look: Look, rows: Span) -> Result<(), AllocError>
    requires last { KeptLast arena.old.closed run.old.last }
    requires within { rows.end ≤ length arena.old.closed }
    requires lists { GridLists (grid_in arena.old.closed rows) }
    ensures is { OnOk result (Puts arena.old arena.new run.old (give.Table look rows) run.new) }
    ensures last { OnOk result (KeptLast arena.new.closed run.new.last) }
{
    push_last(arena, &run.last)?;
    push_table(arena, look, rows)?;
    run.last = None;
    Ok(())
}

/// Puts what an action gives to the run of items in which it is read.
// It is inlined although the program has the grammar of two kinds of items: it is called at each token.
#[inline(always)]
pub fn put_given(arena: &mut Arena, run: &mut RunEnd, given: Given) -> Result<(), AllocError>
    requires last { KeptLast arena.old.closed run.old.last }
    requires given { KeptGiven arena.old.closed given }
    ensures is { OnOk result (Puts arena.old arena.new run.old given run.new) }
    ensures last { OnOk result (KeptLast arena.new.closed run.new.last) }
{
    match given {
        Given::Nothing => Ok(()),
        Given::Atom(noad) => put_atom(arena, run, noad),
        Given::Item(thing) => put_item(arena, run, thing),
        Given::Table(look, rows) => put_table(arena, run, look, rows),
        Given::Script(side, part) => {
            run.last = Some(with_script(run.last, side, part));
            Ok(())
        }
        Given::Limits(limits) => {
            run.last = with_limits(run.last, limits);
            Ok(())
        }
        Given::Family(family) => {
            run.family = family;
            Ok(())
        }
    }
}

// An atom; where it takes no scripts it is an item like others.
fn atom_given(kind: FieldKind, nucleus: Cell) -> Given
    ensures is { (es : List Held) → KeptField es nucleus
        → given_in es result ≡ atom_given (plain_atom (nucleus_kind kind) (cell_part es nucleus)) }
    ensures kept { (es : List Held) → KeptField es nucleus → KeptGiven es result }
{
    let noad = plain_noad(kind_of(kind), nucleus);
    match kind {
        FieldKind::Veil { .. } => Given::Item(Thing::Atom(noad)),
        _ => Given::Atom(noad),
    }
}

fn is_ordinary(kind: FieldKind) -> bool
    ensures { result ≡ is_ord_kind (nucleus_kind kind) }
{
    matches!(kind, FieldKind::Class(Class::Ord))
}

/// A group of this list as the nucleus of an atom of this kind.
pub fn nucleus_given(
    arena: &mut Arena,
    kind: FieldKind,
    list: WholeList,
) -> Result<Given, AllocError>
    requires { KeptWhole arena.old.closed list }
    ensures is { IfOk result (λ all. given_in arena.new.closed all
        ≡ atom_given (nucleus_atom (nucleus_kind kind) (list_in arena.old.closed list))) }
    ensures kept { IfOk result (KeptGiven arena.new.closed) }
    ensures grows { OnOk result (Grows arena.old arena.new) }
{
    if is_ordinary(kind) {
        return Ok(Given::Atom(group_noad(arena, list)?));
    }
    let nucleus = nucleus_of(arena, list)?;
    Ok(atom_given(kind, nucleus))
}

// The delimiter number of plain TeX's `\sqrt` (The TeXbook, Appendix B).
const ROOT_SIGN: u32 = 0x270370;

/// A root of this degree, with this under its sign.
pub fn root_given(arena: &mut Arena, degree: Span, body: Cell) -> Result<Given, AllocError>
    requires degree { KeptSpan arena.old.closed degree }
    requires body { KeptField arena.old.closed body }
    ensures is { IfOk result (λ all. given_in arena.new.closed all
        ≡ atom_given (root_atom (sequence_in arena.old.closed degree) (cell_part arena.old.closed body))) }
    ensures kept { IfOk result (KeptGiven arena.new.closed) }
    ensures grows { OnOk result (Grows arena.old arena.new) }
{
    let root = arena.insert(Thing::Root(RootParts { degree, body }))?;
    let sign = Kind::Radical(delim_of(ROOT_SIGN));
    Ok(Given::Item(Thing::Atom(plain_noad(sign, Cell::Root(root)))))
}

// A matrix between delimiters, as a list.
fn enclosed_list(
    arena: &mut Arena,
    left: Delim,
    right: Delim,
    rows: Span,
) -> Result<Span, AllocError>
    requires within { rows.end ≤ length arena.old.closed }
    requires lists { GridLists (grid_in arena.old.closed rows) }
    ensures is { IfOk result (λ span. sequence_in arena.new.closed span
        ≡ enclosed_items left right Matrix (grid_in arena.old.closed rows)) }
    ensures kept { IfOk result (λ span. KeptField arena.new.closed (OfList span)) }
    ensures grows { OnOk result (Grows arena.old arena.new) }
{
    arena.begin()?;
    arena.push(Thing::Left(left))?;
    push_table(arena, Look::Matrix, rows)?;
    arena.push(Thing::Right(right))?;
    arena.close()
}

/// A table of these rows.
pub fn table_given(arena: &mut Arena, form: TableForm, rows: Span) -> Result<Given, AllocError>
    requires within { rows.end ≤ length arena.old.closed }
    requires lists { GridLists (grid_in arena.old.closed rows) }
    ensures is { IfOk result (λ all. given_in arena.new.closed all ≡ table_given form (grid_in arena.old.closed rows)) }
    ensures kept { IfOk result (KeptGiven arena.new.closed) }
    ensures grows { OnOk result (Grows arena.old arena.new) }
{
    match form {
        TableForm::Spaced(preamble) => Ok(Given::Table(look_of(preamble), rows)),
        TableForm::Enclosed(left, right) => {
            let inner = enclosed_list(arena, left, right, rows)?;
            let nucleus = Cell::List(inner);
            Ok(Given::Atom(plain_noad(Kind::Plain(Class::Inner), nucleus)))
        }
    }
}

// A style, a space or a kern.
fn simple_thing(item: Simple) -> Result<Thing, AllocError>
    ensures is { IfOk result (λ thing. (es : List Held) → item_in es thing ≡ More (simple_element item) End) }
    ensures kept { IfOk result (λ thing. (es : List Held) → KeptThing es thing) }
{
    match item {
        Simple::Style(style) => Ok(Thing::Style(style)),
        Simple::MuSpace(glue) => Ok(Thing::MuSpace(short_glue(glue)?)),
        Simple::Space(glue) => Ok(Thing::Space(short_glue(glue)?)),
        Simple::MuKern(amount) => Ok(Thing::MuKern(short_amount(amount)?)),
        Simple::Kern(amount) => Ok(Thing::Kern(short_amount(amount)?)),
        Simple::Nonscript => Ok(Thing::Nonscript),
    }
}

/// What an action gives that reads no list.
// Inlined as `put_given` is.
#[inline(always)]
pub fn plain_given(action: Action) -> Result<Given, AllocError>
    requires { is_plain_action action ≡ true }
    ensures is { IfOk result (λ all. (es : List Held) (tables : CodeTables) (units : Units) (again : ItemRunReader)
        (level : ℕ) (family : Option ℕ) (rest : List Token)
        → given tables units again level family action rest ≡ Got (given_in es all) rest) }
    ensures kept { IfOk result (λ all. (es : List Held) → KeptGiven es all) }
{
    match action {
        Action::Nothing => Ok(Given::Nothing),
        Action::Atom(kind, symbol) => { Ok(atom_given(kind, Cell::Sym(symbol))) }
        Action::Script(side, symbol) => Ok(Given::Script(side, Cell::Sym(symbol))),
        Action::Item(item) => Ok(Given::Item(simple_thing(item)?)),
        Action::Family(family) => Ok(Given::Family(family)),
        Action::Limits(limits) => Ok(Given::Limits(limits)),
        Action::Big(class, delim, level) => {
            let nucleus = Cell::Big { delim, level };
            Ok(Given::Atom(plain_noad(Kind::Plain(class), nucleus)))
        }
        _ => unreachable!(),
    }
}
