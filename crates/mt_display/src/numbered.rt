//! A display and its number, set on a stack of pieces.
ghost use Rattle.std.specs.Prelude.{◌≡◌, ◌≤◌, ◌^◌, ◌+◌, ◌-◌, ◌+ℤ◌, ◌++◌, ◌∷◌, [], drop, length, pos, ℕ, List, IfOk, OnOk, if◌then◌else◌};
ghost use Rattle.mt_scaled.specs.Number.{Within};
ghost use Rattle.mt_box.specs.Layout.{Layout};
ghost use Rattle.mt_box.specs.Rows.{PieceBox, PieceValue, row_width};
ghost use Rattle.mt_display.specs.Displays.{indent as indent_of, numbered_lines};
ghost use Rattle.mt_display.specs.LineStack.{IsStack, PutsLines, is_left};
ghost use Rattle.mt_display.specs.Lines.{LineValue};
ghost use Rattle.mt_display.specs.inner.Fits.{IsSmallSlot};
ghost use Rattle.mt_display.specs.inner.OnStack.{IsSmallSize, SetsBoth, e_of_box, fit_of_row, in_order, lines_beside};

use crate::display_row::{last_width, set_display};
use crate::fit::NumberWidths;
use crate::line_stack::{LineStack, NumberSide};
use crate::slot::{Slot, indent, right_end, room_between};
use mt_box::PackError;
use mt_pieces::Pieces;
use mt_scaled::Length;
use std::alloc::AllocError;

// The pieces from number `first` up to `end` are the row of a display in a line of width z, and those
// from `end` on are that of its number: the boxes of both come in their place, display first.
pub(crate) fn set_both(
    pieces: &mut Pieces,
    first: usize,
    end: usize,
    quad: Length,
    z: Length,
) -> Result<Slot, PackError>
    requires body { end - first ≤ 2 ^ 21 }
    requires number { length (drop end pieces.old) ≤ 2 ^ 21 }
    requires quad { Within (2 ^ 31) quad.sp }
    requires z { Within (2 ^ 30) z.sp }
    ensures is { (before row number : List PieceValue) → pieces.old ≡ before ++ (row ++ number)
        → length before ≡ first → first + length row ≡ end
        → SetsBoth before row number
        (fit_of_row z.sp row (row_width number) (row_width number +ℤ quad.sp)) z.sp result pieces.new }
    ensures small { IfOk result IsSmallSlot }
{
    let number = pieces.len().saturating_sub(end);
    let widths = number_widths(pieces, end, quad);
    let at = pieces.put_behind(first, end.saturating_sub(first))?;
    let slot = set_display(pieces, at, widths, z)?;
    let at = pieces.put_behind(first, number)?;
    pieces.pack(at)?;
    Ok(with_box(slot, last_width(pieces)))
}

// The widths of a number whose row is the pieces from number `end` on.
#[tactic(auto, using(std::proofs::lemmas::Int::ints))]
fn number_widths(pieces: &Pieces, end: usize, quad: Length) -> NumberWidths
    requires few { length (drop end pieces.now) ≤ 2 ^ 21 }
    requires quad { Within (2 ^ 31) quad.sp }
    ensures e { result.e.sp ≡ row_width (drop end pieces.now) }
    ensures q { result.q.sp ≡ row_width (drop end pieces.now) +ℤ quad.sp }
    ensures small_e { Within (2 ^ 61) result.e.sp }
    ensures small_q { Within (2 ^ 61 + 2 ^ 31) result.q.sp }
{
    let e = Length {
        sp: pieces.reach(end).width,
    };
    NumberWidths { e, q: e.plus(quad) }
}

// The slot of a display whose number has a box of this width.
fn with_box(slot: Slot, width: Length) -> Slot
    requires slot { IsSmallSize slot }
    requires width { Within (2 ^ 30) width.sp }
    ensures z { result.z ≡ slot.z }
    ensures w { result.w ≡ slot.w }
    ensures e { result.e.sp ≡ e_of_box slot.e.sp width.sp }
    ensures flush { result.flush ≡ slot.flush }
    ensures small { IsSmallSlot result }
{
    if slot.e.is_zero() {
        slot
    } else {
        Slot { e: width, ..slot }
    }
}

impl LineStack {
    // The last two pieces are the boxes of a display and its number: they become one line or two.
    pub(crate) fn put_both(&mut self, side: NumberSide, slot: Slot) -> Result<(), PackError>
        requires { IsSmallSlot slot }
        ensures { (lines : List LineValue) (display number : Layout)
            → IsStack lines (PieceBox (pos 0) display ∷ PieceBox (pos 0) number ∷ []) self.old
            → slot.w.sp ≡ display.extents.width
            → PutsLines result lines self.new (numbered_lines (is_left side) slot.z.sp slot.e.sp
            (indent_of slot.flush slot.z.sp slot.w.sp slot.e.sp) display number) }
    {
        let d = indent(slot);
        let right = right_end(slot.z, last_width(&self.pieces));
        put_in_order(&mut self.pieces, side)?;
        if slot.e.is_zero() {
            self.end_line(choose(side, ZERO, d))?;
            self.end_line(choose(side, d, right))?;
            Ok(())
        } else {
            self.put_beside(room_between(slot, d), choose(side, ZERO, d))
        }
    }

    // The last two pieces are boxes: the row of both with so much between them becomes a line.
    fn put_beside(&mut self, room: Length, shift: Length) -> Result<(), PackError>
        requires room { Within (2 ^ 40) room.sp }
        requires shift { Within (2 ^ 40) shift.sp }
        ensures { (lines : List LineValue) (a b : Layout)
            → IsStack lines (PieceBox (pos 0) a ∷ PieceBox (pos 0) b ∷ []) self.old
            → PutsLines result lines self.new (lines_beside room.sp shift.sp a b) }
    {
        self.pieces.put_kern(room)?;
        swap_last(&mut self.pieces)?;
        let first = self.pieces.len().saturating_sub(3);
        self.pieces.pack(first)?;
        self.end_line(shift)?;
        Ok(())
    }

    // The first of the pieces that are of no line becomes a line of its own.
    pub(crate) fn end_line(&mut self, shift: Length) -> Result<(), AllocError>
        ensures { (lines : List LineValue) (body : Layout) (row : List PieceValue)
            → IsStack lines (PieceBox (pos 0) body ∷ row) self.old
            → OnOk result (IsStack (lines ++ record { shift = shift.sp; body = body } ∷ []) row self.new) }
    {
        self.shifts.push(shift.sp)?;
        Ok(())
    }
}

const ZERO: Length = Length { sp: 0 };

// A number at the left comes before the display.
fn put_in_order(pieces: &mut Pieces, side: NumberSide) -> Result<(), AllocError>
    ensures { (before : List PieceValue) (display number : PieceValue)
        → pieces.old ≡ before ++ display ∷ number ∷ []
        → OnOk result (pieces.new ≡ before ++ in_order (is_left side) display number) }
{
    match side {
        NumberSide::Left => swap_last(pieces),
        NumberSide::Right => Ok(()),
    }
}

// The last two pieces in the other order.
fn swap_last(pieces: &mut Pieces) -> Result<(), AllocError>
    ensures { (before : List PieceValue) (a b : PieceValue) → pieces.old ≡ before ++ a ∷ b ∷ []
        → OnOk result (pieces.new ≡ before ++ b ∷ a ∷ []) }
{
    let first = pieces.len().saturating_sub(2);
    pieces.put_behind(first, 1)?;
    Ok(())
}

// One of two lengths, by the side of the number.
fn choose(side: NumberSide, at_left: Length, at_right: Length) -> Length
    ensures is { result.sp ≡ (if is_left side then at_left.sp else at_right.sp) }
    ensures small { (n : ℕ) → Within n at_left.sp → Within n at_right.sp → Within n result.sp }
{
    match side {
        NumberSide::Left => at_left,
        NumberSide::Right => at_right,
    }
}
