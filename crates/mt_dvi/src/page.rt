//! The places of a page, and the moves between them.
ghost use Rattle.std.specs.Prelude.{◌≡◌, ◌<◌, ◌≤◌, ◌+◌, ◌*◌, ◌-ℤ◌, List, ℕ, All, OnOk, IfOk, IsSomeAnd, length, take, nat_abs, Some, false, if◌then◌else◌};
ghost use Rattle.mt_box.specs.Places.{h_of, v_of};
ghost use Rattle.mt_family.specs.SetValue.{IsSet, SetValue};
ghost use Rattle.mt_dvi.specs.Fonts.{metrics_at};
ghost use Rattle.mt_dvi.specs.Limits.{max_edge};
ghost use Rattle.mt_dvi.specs.Machine.{is_far};
ghost use Rattle.mt_dvi.specs.Moves.{move_form};
ghost use Rattle.mt_dvi.specs.writer.Emits.{FitsFourBytes, register_value};
ghost use Rattle.mt_dvi.specs.writer.Greatest.{edges_after};
ghost use Rattle.mt_dvi.specs.writer.HeldAmounts.{EmitsMove, held_after};
ghost use Rattle.mt_dvi.specs.writer.Stands.{Arrived, FillsPlace, Introduces, IsNoneOrAmong, Lowered, Selects, Stands, WritesPlaces};
ghost use Rattle.mt_dvi.specs.Writable.{HasGlyph, InRange, IsWritable};
ghost use Rattle.mt_dvi.specs.WrittenPlaces.{first_of};
ghost use Rattle.mt_dvi.specs.writer.LeadsTo.{GrowsWith, Reached, cursor_past, font_after, is_among, is_beyond, numbers_after, numbers_after_all, with_number};

use crate::defined::DefinedFonts;
use crate::edges::{GreatestEdges, edges_of};
use crate::emit;
use crate::emit::Register;
use crate::encode::define;
use crate::moves::{HeldAmounts, MAX_COORDINATE, MoveForm, move_code};
use mt_box::Place;
use mt_family::FontSet;
use std::alloc::AllocError;

/// Where the machine is in a page, what its registers hold, and the font that is selected.
#[derive(Clone, Copy, Debug)]
pub struct Cursor {
    /// In scaled points, to the right of the page's origin.
    pub h: i64,
    /// In scaled points, below the page's origin.
    pub v: i64,
    /// w and x.
    pub across: HeldAmounts,
    /// y and z.
    pub downward: HeldAmounts,
    /// The font's number in the set.
    pub font: Option<u16>,
}

// As bop leaves the machine.
const AT_ORIGIN: Cursor = Cursor {
    h: 0,
    v: 0,
    across: NOTHING_HELD,
    downward: NOTHING_HELD,
    font: None,
};

const NOTHING_HELD: HeldAmounts = HeldAmounts {
    first: 0,
    second: 0,
    second_next: false,
};

// The register that the next operand goes to.
fn next_register(second_next: bool, first: Register, second: Register) -> Register
    ensures { register_value result ≡ (if second_next then register_value second else register_value first) }
{
    if second_next { second } else { first }
}

// Moves by an amount along the axis of two registers, and answers where the bytes end.
#[inline(always)]
fn write_move(
    row: &mut [u8],
    at: usize,
    held: &mut HeldAmounts,
    first: Register,
    second: Register,
    amount: i64,
) -> usize
    requires fits { FitsFourBytes amount }
    requires room { at + 5 ≤ length row.now }
    ensures moves { EmitsMove (register_value first) (register_value second) held.old amount
        (take at row.old) (take result row.new) (move_form amount held.old.first held.old.second) }
    ensures held { held.new ≡ held_after held.old amount (move_form amount held.old.first held.old.second) }
    ensures end { result ≤ at + 5 }
    ensures long { length row.new ≡ length row.old }
{
    match move_code(amount, held.first, held.second) {
        MoveForm::None => at,
        MoveForm::First => emit::add(row, at, first),
        MoveForm::Second => emit::add(row, at, second),
        MoveForm::Bytes(size) => {
            let register = next_register(held.second_next, first, second);
            held.set_next(amount);
            emit::set(row, at, register, amount, size)
        }
    }
}

// Moves to the right by an amount.
#[inline(never)]
fn move_across(row: &mut [u8], at: usize, held: &mut HeldAmounts, amount: i64) -> usize
    requires fits { FitsFourBytes amount }
    requires room { at + 5 ≤ length row.now }
    ensures moves { EmitsMove (register_value Register.W) (register_value Register.X) held.old amount
        (take at row.old) (take result row.new) (move_form amount held.old.first held.old.second) }
    ensures held { held.new ≡ held_after held.old amount (move_form amount held.old.first held.old.second) }
    ensures end { result ≤ at + 5 }
    ensures long { length row.new ≡ length row.old }
{
    write_move(row, at, held, Register::W, Register::X, amount)
}

// Moves down by an amount.
#[inline(never)]
fn move_down(row: &mut [u8], at: usize, held: &mut HeldAmounts, amount: i64) -> usize
    requires fits { FitsFourBytes amount }
    requires room { at + 5 ≤ length row.now }
    ensures moves { EmitsMove (register_value Register.Y) (register_value Register.Z) held.old amount
        (take at row.old) (take result row.new) (move_form amount held.old.first held.old.second) }
    ensures held { held.new ≡ held_after held.old amount (move_form amount held.old.first held.old.second) }
    ensures end { result ≤ at + 5 }
    ensures long { length row.new ≡ length row.old }
{
    write_move(row, at, held, Register::Y, Register::Z, amount)
}

// Moves to a place: to the right, and then down.
fn move_to(row: &mut [u8], at: usize, cursor: &mut Cursor, place: Place) -> usize
    requires right { FitsFourBytes (h_of place -ℤ cursor.now.h) }
    requires down { FitsFourBytes (v_of place -ℤ cursor.now.v) }
    requires h { InRange (h_of place) }
    requires v { InRange (v_of place) }
    requires from { FitsFourBytes cursor.now.v }
    requires room { at + 10 ≤ length row.now }
    ensures h { cursor.new.h ≡ h_of place }
    ensures v { cursor.new.v ≡ v_of place }
    ensures font { cursor.new.font ≡ cursor.old.font }
    ensures leads { (fonts : SetValue) → (reached : Reached)
        → Stands fonts (take at row.old) reached cursor.old Arrived
        → Stands fonts (take result row.new) reached cursor.new Lowered }
    ensures end { result ≤ at + 10 }
    ensures long { length row.new ≡ length row.old }
{
    let right = place.h() - cursor.h;
    let at = move_across(row, at, &mut cursor.across, right);
    let down = place.v() - cursor.v;
    let at = move_down(row, at, &mut cursor.downward, down);
    cursor.h = place.h();
    cursor.v = place.v();
    at
}

// The most bytes of a place, but for the definition of a font.
const PLACE_ROOM: usize = 19;

// How many bytes are made at once behind those that are written.
const FRESH: usize = 512;

// Makes room for a place behind the first bytes.
fn make_room(out: &mut Vec<u8>, at: usize) -> Result<(), AllocError>
    requires { at ≤ length out.now.items }
    ensures kept { OnOk result (take at out.new.items ≡ take at out.old.items) }
    ensures room { OnOk result (at + 19 ≤ length out.new.items) }
{
    if out.len() - at < PLACE_ROOM {
        lengthen(out)?;
    }
    Ok(())
}

#[cold]
#[inline(never)]
fn lengthen(out: &mut Vec<u8>) -> Result<(), AllocError>
    ensures kept { OnOk result ((n : ℕ) → n ≤ length out.old.items
        → take n out.new.items ≡ take n out.old.items) }
    ensures room { OnOk result (length out.new.items ≡ length out.old.items + 512) }
{
    out.extend_from_slice(&[0; FRESH])?;
    Ok(())
}

// Defines a font behind the first bytes, and answers where its definition ends.
#[cold]
#[inline(never)]
#[tactic(auto, using(crate::proofs::Prefix::longer))]
fn introduce(
    out: &mut Vec<u8>,
    at: usize,
    defined: &mut DefinedFonts,
    fonts: &FontSet,
    n: u16,
) -> Result<usize, AllocError>
    requires at { at ≤ length out.now.items }
    requires there { n < length fonts.now.fonts }
    requires set { IsSet fonts.now }
    requires new { is_among defined.now n ≡ false }
    ensures defined { OnOk result (defined.new ≡ with_number defined.old n) }
    ensures leads { IfOk result (λ end. Introduces fonts.now
        (take at out.old.items) (take end out.new.items) defined.old defined.new) }
    ensures end { IfOk result (λ end.
        end + 271 * length defined.old ≤ at + 271 * length defined.new) }
    ensures room { IfOk result (λ end. end + 19 ≤ length out.new.items) }
{
    out.truncate(at);
    define(out, fonts, n)?;
    defined.push(n)?;
    let end = out.len();
    make_room(out, end)?;
    Ok(end)
}

// Selects a font, unless it is selected. It is defined first, unless it is defined.
fn select(
    out: &mut Vec<u8>,
    at: usize,
    defined: &mut DefinedFonts,
    fonts: &FontSet,
    cursor: &mut Cursor,
    n: u16,
) -> Result<usize, AllocError>
    requires there { n < length fonts.now.fonts }
    requires set { IsSet fonts.now }
    requires selected { IsNoneOrAmong defined.now cursor.now.font }
    requires h { InRange cursor.now.h }
    requires v { InRange cursor.now.v }
    requires room { at + 3 ≤ length out.now.items }
    ensures defined { OnOk result (defined.new ≡ with_number defined.old n) }
    ensures cursor { OnOk result (cursor.new ≡ record cursor.old { font = Some n }) }
    ensures leads { IfOk result (λ end. Selects fonts.now
        (take at out.old.items) (take end out.new.items) defined.old defined.new cursor.old n) }
    ensures end { IfOk result (λ end.
        end + 271 * length defined.old ≤ at + 271 * length defined.new + 1) }
    ensures room { IfOk result (λ end. end + 2 ≤ length out.new.items) }
{
    if cursor.font == Some(n) {
        return Ok(at);
    }
    cursor.font = Some(n);
    if defined.contains(n) {
        return Ok(emit::select(out, at, n as u8));
    }
    let at = introduce(out, at, defined, fonts, n)?;
    Ok(emit::select(out, at, n as u8))
}

// Whether a place with this right edge goes by put, and not by set: the next one is too far away.
fn must_put(edge: i64, later: &[Place]) -> bool
    requires edge { nat_abs edge ≤ max_edge }
    requires next { All (λ place. InRange (h_of place)) later.now }
    ensures { result ≡ is_beyond edge (first_of later.now) }
{
    match later {
        [next, ..] => is_apart(next.h(), edge),
        [] => false,
    }
}

fn is_apart(h: i64, edge: i64) -> bool
    requires h { InRange h }
    requires edge { nat_abs edge ≤ max_edge }
    ensures { result ≡ is_far (h -ℤ edge) }
{
    is_far(h - edge)
}

fn is_far(amount: i64) -> bool
    requires { nat_abs amount < 4294967296 }
    ensures { result ≡ is_far amount }
{
    amount > MAX_COORDINATE || amount < -MAX_COORDINATE
}

// Goes over the place where the cursor is, which has this right edge, as the machine does.
fn pass(cursor: &mut Cursor, put: bool, edge: i64)
    ensures { cursor.new ≡ cursor_past put edge cursor.old }
{
    if !put {
        cursor.h = edge;
    }
}

// Writes a glyph where the machine is: the selection of its font, and the character.
fn write_glyph(
    out: &mut Vec<u8>,
    at: usize,
    defined: &mut DefinedFonts,
    fonts: &FontSet,
    cursor: &mut Cursor,
    n: u16,
    code: u8,
    put: bool,
) -> Result<usize, AllocError>
    requires set { IsSet fonts.now }
    requires can { IsSomeAnd (metrics_at fonts.now n) (λ metrics. HasGlyph metrics code) }
    requires selected { IsNoneOrAmong defined.now cursor.now.font }
    requires h { InRange cursor.now.h }
    requires v { InRange cursor.now.v }
    requires room { at + 3 ≤ length out.now.items }
    ensures defined { OnOk result (defined.new ≡ with_number defined.old n) }
    ensures cursor { OnOk result (cursor.new ≡ record cursor.old { font = Some n }) }
    ensures leads { IfOk result (λ end. FillsPlace fonts.now
        (take at out.old.items) (take end out.new.items) defined.old defined.new
        cursor.old (Place.Glyph n code cursor.old.h cursor.old.v) put) }
    ensures end { IfOk result (λ end.
        end + 271 * length defined.old ≤ at + 271 * length defined.new + 3) }
    ensures room { IfOk result (λ end. end ≤ length out.new.items) }
{
    let at = select(out, at, defined, fonts, cursor, n)?;
    Ok(emit::char(out, at, put, code))
}

// Writes a rule where the machine is.
fn write_rule(
    row: &mut [u8],
    at: usize,
    fonts: &FontSet,
    cursor: &Cursor,
    height: i64,
    width: i64,
    put: bool,
) -> usize
    requires can { IsWritable fonts.now (Place.Rule cursor.now.h cursor.now.v height width) }
    requires room { at + 9 ≤ length row.now }
    ensures leads { (numbers : List ℕ) → FillsPlace fonts.now
        (take at row.old) (take result row.new) numbers numbers
        cursor.now (Place.Rule cursor.now.h cursor.now.v height width) put }
    ensures end { result ≡ at + 9 }
    ensures long { length row.new ≡ length row.old }
{
    emit::rule(row, at, put, height, width)
}

// Writes the place where the machine is, which leaves the cursor there.
fn fill_place(
    out: &mut Vec<u8>,
    at: usize,
    defined: &mut DefinedFonts,
    fonts: &FontSet,
    cursor: &mut Cursor,
    place: Place,
    put: bool,
) -> Result<usize, AllocError>
    requires set { IsSet fonts.now }
    requires can { IsWritable fonts.now place }
    requires h { cursor.now.h ≡ h_of place }
    requires v { cursor.now.v ≡ v_of place }
    requires selected { IsNoneOrAmong defined.now cursor.now.font }
    requires room { at + 9 ≤ length out.now.items }
    ensures defined { OnOk result (defined.new ≡ numbers_after defined.old place) }
    ensures cursor { OnOk result
        (cursor.new ≡ record cursor.old { font = font_after place cursor.old.font }) }
    ensures leads { IfOk result (λ end. FillsPlace fonts.now
        (take at out.old.items) (take end out.new.items) defined.old defined.new
        cursor.old place put) }
    ensures end { IfOk result (λ end.
        end + 271 * length defined.old ≤ at + 271 * length defined.new + 9) }
    ensures room { IfOk result (λ end. end ≤ length out.new.items) }
{
    match place {
        Place::Glyph { font, code, .. } => {
            let end = write_glyph(out, at, defined, fonts, cursor, font, code, put)?;
            Ok(end)
        }
        Place::Rule { height, width, .. } => {
            Ok(write_rule(out, at, fonts, cursor, height, width, put))
        }
    }
}

/// Writes the places of a page that has begun, and defines the fonts that they use first. It takes the
/// edges of the places into account.
pub fn write_places(
    out: &mut Vec<u8>,
    defined: &mut DefinedFonts,
    greatest: &mut GreatestEdges,
    fonts: &FontSet,
    page: &[Place],
) -> Result<(), AllocError>
    requires set { IsSet fonts.now }
    requires can { All (IsWritable fonts.now) page.now }
    ensures defined { OnOk result (defined.new ≡ numbers_after_all defined.old page.now) }
    ensures edges { OnOk result (greatest.new ≡ edges_after fonts.now greatest.old page.now) }
    ensures leads { OnOk result (WritesPlaces fonts.now
        out.old.items out.new.items defined.old defined.new page.now) }
    ensures long { OnOk result (GrowsWith (19 * length page.now)
        out.old.items out.new.items defined.old defined.new) }
{
    let mut cursor = AT_ORIGIN;
    let mut at = out.len();
    let mut rest = page;
    while let [place, later @ ..] = rest {
        make_room(out, at)?;
        at = move_to(out, at, &mut cursor, *place);
        let edges = edges_of(fonts, *place);
        let put = must_put(edges.right, later);
        at = fill_place(out, at, defined, fonts, &mut cursor, *place, put)?;
        pass(&mut cursor, put, edges.right);
        greatest.include(edges);
        rest = later;
    }
    out.truncate(at);
    Ok(())
}
