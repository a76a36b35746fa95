//! The two passes over a math list (The TeXbook, Appendix G; tex.web, sections 719 to 767).
ghost use Rattle.std.specs.Prelude.{◌≤◌, ◌*◌, ◌^◌, IfOk, OnOk, drop, length};
ghost use Rattle.mt_arena.specs.Arena.{sequence_in};
ghost use Rattle.mt_arena.specs.Keeping.{KeptList};
ghost use Rattle.mt_box.specs.Rows.{piece_values};
ghost use Rattle.mt_rules.specs.Modest.{IsModestList, list_nesting};
ghost use Rattle.mt_convert.specs.Calls.{SetsHalves, SetsRow, SetsRowOn};
ghost use Rattle.mt_convert.specs.Halfway.{HalvesFit, RowFits};
ghost use Rattle.mt_convert.specs.Holding.{RowHolds};
ghost use Rattle.mt_convert.specs.ListRow.{halves_of, list_row};

use crate::SetFault;
use crate::context::Context;
use crate::halfway::Halfway;
use crate::list::{first_pass_on, set_span_on};
use crate::placed::with_reach;
use crate::set::clean::look_at_fonts;
use crate::taking::halfway_of;
use mt_arena::{Arena, Span, put_list};
use mt_box::Row;
use mt_family::FontSet;
use mt_pieces::Pieces;
use mt_rules::{MathList, Style};
use std::alloc::Global;

// The pieces that there is room for at first: few formulas have more.
const ROOM: usize = 16;

/// The row of a math list in a style (The TeXbook, Appendix G).
///
/// The list is modest: at most 320 lists lie one inside another, it has at most 2^18 items at all
/// levels, and each space, shrink, kern and thickness in it is below 2^30sp in size.
///
/// The row has at most 2^21 pieces. Each number in it is at most 2^40 in size, and its boxes have a
/// level of at most 12 for each list one inside another. Each glyph, also in a box, is a character of
/// its font whose extents are in range, and each rule has a height and a width above 0 and in range.
///
/// # Errors
///
/// The first of these, in the order in which the items and their parts are set: `MissingFamily`
/// where a family has no font at a size, `MissingChar` where its font has no such character,
/// `SmartLigature` where two characters form a ligature that is not set, `Overflow` with a length
/// out of range, `TooTall` where a delimiter needs more than 2,000 repeats. `OutOfMemory` where
/// memory ran out.
pub fn set_list(
    alloc: Global,
    fonts: &FontSet,
    list: MathList,
    style: Style,
) -> Result<Row, SetFault>
    requires modest { IsModestList list }
    ensures is { SetsRow result (list_row fonts.now style list) }
    ensures few { IfOk result (λ row. length row ≤ 2 ^ 21) }
    ensures fits { IfOk result (RowFits (12 * list_nesting list)) }
    ensures holds { IfOk result (λ row. RowHolds fonts.now (piece_values row)) }
{
    let mut pieces = Pieces::with_capacity(alloc, ROOM)?;
    let mut arena = Arena::new(alloc);
    let span = put_list(&mut arena, &list)?;
    set_span(&mut pieces, alloc, fonts, &arena, span, style)?;
    Ok(pieces.take_row(alloc, 0)?)
}

/// The row of a math list of an arena in a style, as by [`set_list`], as pieces behind those that are there.
///
/// The list is modest, as for [`set_list`].
///
/// # Errors
///
/// Those of [`set_list`]. What pieces there are after an error is not said.
pub fn set_span(
    pieces: &mut Pieces,
    alloc: Global,
    fonts: &FontSet,
    arena: &Arena,
    list: Span,
    style: Style,
) -> Result<(), SetFault>
    requires within { list.end ≤ length arena.now.closed }
    requires modest { IsModestList (sequence_in arena.now.closed list) }
    requires lists { KeptList (sequence_in arena.now.closed list) }
    ensures is { SetsRowOn result pieces.old pieces.new
        (list_row fonts.now style (sequence_in arena.now.closed list)) }
    ensures few { OnOk result (length (drop (length pieces.old) pieces.new) ≤ 2 ^ 21) }
    ensures holds { OnOk result (RowHolds fonts.now (drop (length pieces.old) pieces.new)) }
{
    look_at_fonts(fonts);
    let context = Context {
        alloc,
        fonts,
        arena,
    };
    set_span_on(pieces, context, list, style)
}

/// The first pass over a math list in a style: its items set, with their final classes, and how far
/// its atoms reach (The TeXbook, Appendix G, rules 1 to 18).
///
/// The list is modest, as for [`set_list`]. Boxes in the answer have a level of at most 12 for each
/// list one inside another.
///
/// # Errors
///
/// The first fault of an item, with the causes of [`set_list`]. Boundaries, middles and the row as a
/// whole are not tested yet.
pub fn first_pass(
    alloc: Global,
    fonts: &FontSet,
    list: MathList,
    style: Style,
) -> Result<Halfway, SetFault>
    requires modest { IsModestList list }
    ensures is { SetsHalves result (halves_of fonts.now style list) }
    ensures fits { IfOk result (λ half. HalvesFit (12 * list_nesting list) half.items) }
{
    let mut pieces = Pieces::with_capacity(alloc, ROOM)?;
    let mut arena = Arena::new(alloc);
    let span = put_list(&mut arena, &list)?;
    let context = Context {
        alloc,
        fonts,
        arena: &arena,
    };
    let items = first_pass_on(&mut pieces, context, span, style)?;
    let halves = with_reach(&pieces, 0, items);
    Ok(halfway_of(alloc, pieces, halves)?)
}
