//! The second pass in place: the pieces of the items become the row of the list.
ghost use Rattle.std.specs.Prelude.{◌≡◌, ◌≤◌, ◌^◌, false, ℤ, None, OnOk, drop, length, take};
ghost use Rattle.mt_family.specs.declared.size.Size.{Size};
ghost use Rattle.mt_scaled.specs.Number.{Within};
ghost use Rattle.mt_convert.specs.Current.{opening};
ghost use Rattle.mt_convert.specs.Halfway.{AllMeet};
ghost use Rattle.mt_convert.specs.SecondPass.{all_pieces, row_of_halves, second_pass_of};
ghost use Rattle.mt_convert.specs.inner.LoneAtoms.{is_lone_atom};
ghost use Rattle.mt_convert.specs.inner.Runs.{has_boundary};
ghost use Rattle.mt_convert.specs.Calls.{RowOn, SetsRowOn};
ghost use Rattle.mt_convert.specs.inner.Placed.{IsPlaced, PlacesIn, placed_halves, placed_values, reaching};

use crate::SetFault;
use crate::flat::current::Current;
use crate::placed::{PlacedHalves, PlacedList};
use crate::second::boundary::{BoundaryFrame, boundary_frame};
use crate::second::pieces::put_half;
use crate::second::runs::{has_boundary, put_runs};
use crate::set::row::tested;
use mt_family::FontSet;
use mt_pieces::{Pieces, PlacedItem};
use mt_rules::Style;
use mt_scaled::Length;
use std::alloc::{AllocError, Global};

// The pieces from number `first` on, which are those of these items, become the row of the list, tested.
pub(crate) fn join_on(
    pieces: &mut Pieces,
    alloc: Global,
    fonts: &FontSet,
    style: Style,
    first: usize,
    halves: PlacedHalves,
) -> Result<(), SetFault>
    requires first { first ≤ length pieces.old }
    requires placed { IsPlaced halves (drop first pieces.old) }
    ensures is { SetsRowOn result (take first pieces.old) pieces.new
        (second_pass_of fonts.now style (placed_halves halves (drop first pieces.old))) }
    ensures few { OnOk result (length (drop first pieces.new) ≤ 2 ^ 21) }
{
    let items = halves.items.as_slice();
    if !has_boundary(items) {
        return join_runs(pieces, alloc, fonts, style, first, items);
    }
    join_bounded(
        pieces,
        fonts,
        style,
        first,
        items,
        halves.height,
        halves.depth,
    )
}

// The same of items with boundaries or middles.
#[inline(never)]
fn join_bounded(
    pieces: &mut Pieces,
    fonts: &FontSet,
    style: Style,
    first: usize,
    items: &[PlacedItem],
    height: Length,
    depth: Length,
) -> Result<(), SetFault>
    requires first { first ≤ length pieces.old }
    requires placed { IsPlaced (record { items = items.now; height = height; depth = depth }) (drop first pieces.old) }
    ensures is { SetsRowOn result (take first pieces.old) pieces.new
        (second_pass_of fonts.now style
        (placed_halves (record { items = items.now; height = height; depth = depth }) (drop first pieces.old))) }
    ensures few { OnOk result (length (drop first pieces.new) ≤ 2 ^ 21) }
{
    let frame = boundary_frame(fonts, style, height, depth);
    join_rows(pieces, fonts, frame, style, first, items)
}

// The same of items that the first pass has set. The memory of their list is kept.
pub(crate) fn join_items(
    pieces: &mut Pieces,
    alloc: Global,
    fonts: &FontSet,
    style: Style,
    first: usize,
    items: PlacedList,
) -> Result<(), SetFault>
    requires first { first ≤ length pieces.old }
    requires placed { IsPlaced (reaching items (drop first pieces.old)) (drop first pieces.old) }
    ensures is { SetsRowOn result (take first pieces.old) pieces.new
        (second_pass_of fonts.now style
        (placed_halves (reaching items (drop first pieces.old)) (drop first pieces.old))) }
    ensures few { OnOk result (length (drop first pieces.new) ≤ 2 ^ 21) }
{
    join_placed(pieces, alloc, fonts, style, first, items.as_slice())?;
    pieces.keep_items(items.into_vec())?;
    Ok(())
}

// The same. How far the items reach is found only for boundaries and middles.
fn join_placed(
    pieces: &mut Pieces,
    alloc: Global,
    fonts: &FontSet,
    style: Style,
    first: usize,
    items: &[PlacedItem],
) -> Result<(), SetFault>
    requires first { first ≤ length pieces.old }
    requires placed { IsPlaced (reaching items.now (drop first pieces.old)) (drop first pieces.old) }
    ensures is { SetsRowOn result (take first pieces.old) pieces.new
        (second_pass_of fonts.now style
        (placed_halves (reaching items.now (drop first pieces.old)) (drop first pieces.old))) }
    ensures few { OnOk result (length (drop first pieces.new) ≤ 2 ^ 21) }
{
    if !has_boundary(items) {
        return join_runs(pieces, alloc, fonts, style, first, items);
    }
    let reach = pieces.reach(first);
    let height = Length { sp: reach.height };
    let depth = Length { sp: reach.depth };
    join_bounded(pieces, fonts, style, first, items, height, depth)
}

// The same of items without boundaries and middles: only spaces and kerns come between their pieces.
fn join_runs(
    pieces: &mut Pieces,
    alloc: Global,
    fonts: &FontSet,
    style: Style,
    first: usize,
    items: &[PlacedItem],
) -> Result<(), SetFault>
    requires first { first ≤ length pieces.old }
    requires placed { PlacesIn items.now (drop first pieces.old) }
    requires inside { has_boundary items.now ≡ false }
    ensures is { (size : Size) (wanted : ℤ) → SetsRowOn result (take first pieces.old) pieces.new
        (row_of_halves fonts.now size wanted style (placed_values items.now (drop first pieces.old))) }
    ensures few { OnOk result (length (drop first pieces.new) ≤ 2 ^ 21) }
{
    space_out(pieces, alloc, fonts, style, first, items)?;
    tested(pieces, first)
}

// The row of such items, not tested. That of an atom alone stays as it is.
fn space_out(
    pieces: &mut Pieces,
    alloc: Global,
    fonts: &FontSet,
    style: Style,
    first: usize,
    items: &[PlacedItem],
) -> Result<(), AllocError>
    requires first { first ≤ length pieces.old }
    requires placed { PlacesIn items.now (drop first pieces.old) }
    requires inside { has_boundary items.now ≡ false }
    ensures { OnOk result ((size : Size) (wanted : ℤ) → RowOn (take first pieces.old) pieces.new
        (all_pieces fonts.now size wanted (opening style) (placed_values items.now (drop first pieces.old)))) }
{
    if is_lone_atom(items) {
        return Ok(());
    }
    put_runs(pieces, alloc, fonts, style, first, items)
}

fn is_lone_atom(items: &[PlacedItem]) -> bool
    ensures { result ≡ is_lone_atom items.now }
{
    matches!(items, [PlacedItem::Set { .. }])
}

// The same of items with boundaries or middles, whose wanted size is found.
fn join_rows(
    pieces: &mut Pieces,
    fonts: &FontSet,
    frame: BoundaryFrame,
    style: Style,
    first: usize,
    items: &[PlacedItem],
) -> Result<(), SetFault>
    requires wanted { Within (2 ^ 40) frame.wanted.sp }
    requires first { first ≤ length pieces.old }
    requires placed { PlacesIn items.now (drop first pieces.old) }
    ensures is { SetsRowOn result (take first pieces.old) pieces.new
        (row_of_halves fonts.now frame.size frame.wanted.sp style (placed_values items.now (drop first pieces.old))) }
    ensures few { OnOk result (length (drop first pieces.new) ≤ 2 ^ 21) }
{
    join_pieces(pieces, fonts, frame, style, first, items)?;
    tested(pieces, first)
}

// The row, not tested.
fn join_pieces(
    pieces: &mut Pieces,
    fonts: &FontSet,
    frame: BoundaryFrame,
    style: Style,
    first: usize,
    items: &[PlacedItem],
) -> Result<(), SetFault>
    requires wanted { Within (2 ^ 40) frame.wanted.sp }
    requires first { first ≤ length pieces.old }
    requires placed { PlacesIn items.now (drop first pieces.old) }
    ensures { SetsRowOn result (take first pieces.old) pieces.new
        (all_pieces fonts.now frame.size frame.wanted.sp (opening style) (placed_values items.now (drop first pieces.old))) }
{
    let count = pieces.len() - first;
    put_halves(pieces, fonts, frame, style, first, items)?;
    pieces.remove(first, count);
    Ok(())
}

// The row behind the pieces of the items, which begin with number `first` and stay.
fn put_halves(
    pieces: &mut Pieces,
    fonts: &FontSet,
    frame: BoundaryFrame,
    style: Style,
    first: usize,
    items: &[PlacedItem],
) -> Result<(), SetFault>
    requires wanted { Within (2 ^ 40) frame.wanted.sp }
    requires first { first ≤ length pieces.old }
    requires placed { PlacesIn items.now (drop first pieces.old) }
    ensures { SetsRowOn result pieces.old pieces.new
        (all_pieces fonts.now frame.size frame.wanted.sp (opening style) (placed_values items.now (drop first pieces.old))) }
{
    let mut from = pieces.place_of(first);
    let mut current = Current::opening(style);
    for item in items {
        from = put_half(pieces, fonts, frame, current, *item, from)?;
        current = current.after_half(*item);
    }
    Ok(())
}
