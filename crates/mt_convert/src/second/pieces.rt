//! The pieces of items, each behind those before it.
ghost use Rattle.std.specs.Prelude.{◌≡◌, ◌≤◌, ◌+◌, ◌^◌, ◌++◌, IfOk, List, OnOk, Some, drop, false, length, take};
ghost use Rattle.mt_scaled.specs.Number.{Within};
ghost use Rattle.mt_box.specs.Rows.{PieceValue};
ghost use Rattle.mt_pieces.specs.Runs.{IsAt};
ghost use Rattle.mt_convert.specs.SecondPass.{half_pieces, space_before};
ghost use Rattle.mt_convert.specs.Halfway.{MayMeet};
ghost use Rattle.mt_convert.specs.inner.LoneAtoms.{is_set_atom};
ghost use Rattle.mt_convert.specs.Calls.{SetsRowOn};
ghost use Rattle.mt_convert.specs.inner.Placed.{PlacedFits, placed_left, placed_length, placed_value};

use crate::SetFault;
use crate::flat::current::Current;
use crate::second::boundary::{BoundaryFrame, put_boundary};
use crate::second::space::{put_glue, put_space};
use mt_family::FontSet;
use mt_pieces::{PieceAt, Pieces, PlacedItem};
use mt_rules::Class;
use mt_scaled::Length;
use std::alloc::AllocError;

// The pieces of an item behind the others. Those of an atom are copied from this place on, and the place after them is the answer.
pub(crate) fn put_half(
    pieces: &mut Pieces,
    fonts: &FontSet,
    frame: BoundaryFrame,
    current: Current,
    half: PlacedItem,
    from: PieceAt,
) -> Result<PieceAt, SetFault>
    requires wanted { Within (2 ^ 40) frame.wanted.sp }
    requires meets { MayMeet current.last (placed_left half) }
    requires fits { PlacedFits half }
    requires at { IsAt from pieces.old }
    ensures is { (old done : List PieceValue) → pieces.old ≡ old ++ done → from.piece + placed_length half ≤ length old
        → SetsRowOn result pieces.old pieces.new (half_pieces fonts.now frame.size frame.wanted.sp current (placed_value half (drop from.piece old))) }
    ensures after { IfOk result (λ at. IsAt at pieces.new) }
    ensures piece { IfOk result (λ at. from.piece + placed_length half ≤ length pieces.old → at.piece ≡ from.piece + placed_length half) }
{
    match half {
        PlacedItem::Set { class, count } => {
            Ok(put_atom(pieces, fonts, current, class, from, count)?)
        }
        half => {
            put_alone(pieces, fonts, frame, current, half)?;
            Ok(from)
        }
    }
}

// The space before an atom, and a copy of its pieces, so many from this place on.
fn put_atom(
    pieces: &mut Pieces,
    fonts: &FontSet,
    current: Current,
    class: Class,
    from: PieceAt,
    count: usize,
) -> Result<PieceAt, AllocError>
    requires meets { MayMeet current.last (Some class) }
    requires at { IsAt from pieces.old }
    ensures is { (old done : List PieceValue) → pieces.old ≡ old ++ done → from.piece + count ≤ length old
        → OnOk result (pieces.new ≡ pieces.old ++ (space_before fonts.now current class ++ take count (drop from.piece old))) }
    ensures after { IfOk result (λ at. IsAt at pieces.new) }
    ensures piece { IfOk result (λ at. from.piece + count ≤ length pieces.old → at.piece ≡ from.piece + count) }
{
    put_space(pieces, fonts, current, class)?;
    pieces.copy_run(from, count)
}

// The pieces of an item that is no atom.
fn put_alone(
    pieces: &mut Pieces,
    fonts: &FontSet,
    frame: BoundaryFrame,
    current: Current,
    half: PlacedItem,
) -> Result<(), SetFault>
    requires wanted { Within (2 ^ 40) frame.wanted.sp }
    requires meets { MayMeet current.last (placed_left half) }
    requires fits { PlacedFits half }
    ensures { (row : List PieceValue) → is_set_atom half ≡ false
        → SetsRowOn result pieces.old pieces.new (half_pieces fonts.now frame.size frame.wanted.sp current (placed_value half row)) }
{
    match half {
        PlacedItem::Left(delim) => put_boundary(pieces, fonts, frame, current, Class::Open, delim),
        PlacedItem::Middle(delim) => {
            put_boundary(pieces, fonts, frame, current, Class::Close, delim)
        }
        PlacedItem::Right(delim) => {
            put_boundary(pieces, fonts, frame, current, Class::Close, delim)
        }
        PlacedItem::Set { .. } | PlacedItem::Style(_) => Ok(()),
        PlacedItem::Kern(amount) => Ok(pieces.put_kern(Length { sp: amount })?),
        PlacedItem::Space(glue) => Ok(put_glue(pieces, glue)?),
    }
}
