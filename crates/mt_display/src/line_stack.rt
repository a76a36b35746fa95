//! Lines of a page on one stack of pieces.
ghost use Rattle.std.specs.Prelude.{◌≡◌, ◌≤◌, ◌<◌, ◌≤ℤ◌, ◌^◌, ◌+◌, ◌-◌, ◌++◌, ◌∷◌, [], drop, length, pos, ℤ, All, Some, None, List, IfOk, OnOk};
ghost use Rattle.mt_scaled.specs.Number.{Within, max_dimen};
ghost use Rattle.mt_box.specs.Rows.{PieceValue};
ghost use Rattle.mt_family.specs.Sets.{sy};
ghost use Rattle.mt_family.specs.declared.size.Size.TheVariants.{Text};
ghost use Rattle.mt_display.specs.Displays.{display_lines};
ghost use Rattle.mt_display.specs.LineStack.{IsStack, PutsLines, is_left};
ghost use Rattle.mt_display.specs.Lines.{LineValue, inline_lines, line_value};
ghost use Rattle.mt_display.specs.Stack.{stacked_lines, StackAnswers};

use crate::display_row::set_display;
use crate::fit::NO_NUMBER;
use crate::numbered::set_both;
use crate::slot::indent;
use crate::stack::{FIRST_LINE, add_line};
use crate::{Line, StackError};
use mt_box::{PackError, PlaceList};
use mt_family::{FontSet, Size};
use mt_pieces::Pieces;
use mt_scaled::{Items, Length};
use std::alloc::{AllocError, Global};

// How many places there is room for at first, for each line: those of a short formula.
const PLACES_OF_A_LINE: usize = 8;

/// Lines of a page that is being set: the box of each is a piece of a stack, and the pieces of what
/// is set now come behind them.
#[derive(Drop)]
pub struct LineStack {
    /// The boxes of the lines, from the top of the page downward, and other pieces behind them.
    pub pieces: Pieces,
    /// How far each line is to the right of the page's origin, in scaled points.
    pub shifts: Vec<i64>,
}

/// At which end of its line the number of a display is.
#[derive(Clone, Copy, Debug, PartialEq, Eq)]
pub enum NumberSide {
    /// At the left, as by plain TeX's `\leqno`.
    Left,
    /// At the right, as by plain TeX's `\eqno`.
    Right,
}

impl NumberSide {
    /// The left end for `\leqno`, where `left` is true, and the right end for `\eqno`.
    pub fn of(left: bool) -> NumberSide
        ensures { is_left result ≡ left }
    {
        if left {
            NumberSide::Left
        } else {
            NumberSide::Right
        }
    }
}

impl LineStack {
    /// No line.
    pub fn new(alloc: Global) -> LineStack
        ensures { IsStack [] [] result }
    {
        LineStack {
            pieces: Pieces::new(alloc),
            shifts: Vec::new(alloc),
        }
    }

    /// No line, with room for so many pieces and lines.
    pub fn with_capacity(alloc: Global, pieces: usize) -> Result<LineStack, AllocError>
        ensures { IfOk result (λ stack. IsStack [] [] stack) }
    {
        Ok(LineStack {
            pieces: Pieces::with_capacity(alloc, pieces)?,
            shifts: Vec::with_capacity(alloc, pieces)?,
        })
    }

    /// Without lines, and without pieces. What memory they had stays.
    pub fn clear(&mut self)
        ensures { IsStack [] [] self.new }
    {
        self.pieces.clear();
        self.shifts.clear();
    }

    /// The pieces from number `first` on, which are of no line yet, are the row of a formula in the
    /// text: they become its line, as by [`crate::place_inline`].
    ///
    /// Refused with `Overflow` of the first of width, height and depth of the packed row that is out
    /// of range, and with `OutOfMemory`.
    pub fn put_inline(&mut self, first: usize) -> Result<(), PackError>
        requires few { length (drop first self.old.pieces) ≤ 2 ^ 21 }
        ensures { (lines : List LineValue) (row : List PieceValue) → length lines ≡ first
            → IsStack lines row self.old → PutsLines result lines self.new (inline_lines row) }
    {
        self.pieces.pack(first)?;
        self.end_line(Length { sp: 0 })?;
        Ok(())
    }

    /// The pieces from number `first` on, which are of no line yet, are the row of a display without
    /// a number: they become its line, as by [`crate::place_display`].
    ///
    /// The width of the line is from 1 to 2^30 - 1 scaled points. Refused with `Overflow` of the
    /// first of width, height and depth of the display, as it is set, that is out of range, and with
    /// `OutOfMemory`.
    pub fn put_display(&mut self, fonts: &FontSet, first: usize, line: i64) -> Result<(), PackError>
        requires few { length (drop first self.old.pieces) ≤ 2 ^ 21 }
        requires some { pos 1 ≤ℤ line }
        requires in_range { line ≤ℤ pos max_dimen }
        ensures { (lines : List LineValue) (row : List PieceValue) → length lines ≡ first
            → IsStack lines row self.old
            → PutsLines result lines self.new (display_lines (sy fonts.now 6 Text) row None line) }
    {
        let slot = set_display(&mut self.pieces, first, NO_NUMBER, Length { sp: line })?;
        self.end_line(indent(slot))?;
        Ok(())
    }

    /// The pieces from number `first` on, which are of no line yet, are the rows of a display and of
    /// its number: that of the display goes up to `end`, and that of the number is from `end` on. They
    /// become one line or two, as by [`crate::place_display`].
    ///
    /// The width of the line is from 1 to 2^30 - 1 scaled points. Refused with `Overflow` of the
    /// first of width, height and depth that is out of range: of the display as it is set, then of
    /// the number, then of the row of both where they are one line; and with `OutOfMemory`.
    pub fn put_numbered(
        &mut self,
        fonts: &FontSet,
        first: usize,
        end: usize,
        side: NumberSide,
        line: i64,
    ) -> Result<(), PackError>
        requires body { end - first ≤ 2 ^ 21 }
        requires number { length (drop end self.old.pieces) ≤ 2 ^ 21 }
        requires some { pos 1 ≤ℤ line }
        requires in_range { line ≤ℤ pos max_dimen }
        ensures { (lines : List LineValue) (row number : List PieceValue) → length lines ≡ first
            → first + length row ≡ end → IsStack lines (row ++ number) self.old
            → PutsLines result lines self.new (display_lines (sy fonts.now 6 Text) row
            (Some (record { row = number; left = is_left side })) line) }
    {
        let quad = Length {
            sp: fonts.sy(6, Size::Text),
        };
        let slot = set_both(&mut self.pieces, first, end, quad, Length { sp: line })?;
        self.put_both(side, slot)
    }

    /// A line that is a box already, after the others. No other pieces are behind them.
    pub fn put_line(&mut self, line: &Line) -> Result<(), AllocError>
        ensures { (lines : List LineValue) → IsStack lines [] self.old
            → OnOk result (IsStack (lines ++ line_value line.now ∷ []) [] self.new) }
    {
        self.pieces.put_box(&line.body)?;
        self.end_line(Length { sp: line.shift })
    }

    // The last line, which goes, where no other pieces are behind it.
    pub(crate) fn take_line(&mut self, alloc: Global) -> Result<Line, AllocError>
        ensures line { (lines : List LineValue) (l : LineValue) → IsStack (lines ++ l ∷ []) [] self.old
            → IfOk result (λ made. line_value made ≡ l) }
        ensures others { (lines : List LineValue) (l : LineValue) → IsStack (lines ++ l ∷ []) [] self.old
            → OnOk result (IsStack lines [] self.new) }
        ensures level { IfOk result (λ made. made.body.level ≡ 1) }
    {
        let body = self.pieces.take_box(alloc)?;
        let shift = last_shift(&self.shifts);
        self.shifts.pop();
        Ok(Line { shift, body })
    }

    /// The places of the lines one below another, as by [`crate::stack_lines`], where no other
    /// pieces are behind them; `room` is the greatest number of places.
    ///
    /// There are at most 2^21 lines, and their shifts are at most 2^40 in size.
    ///
    /// Refused at the first place with a coordinate out of range (`OutOfRange`), or for which there
    /// is no room (`TooMany`), both with the line of the place; at one place h is tested first, then
    /// v, then the room. `OutOfMemory` may come at any time.
    pub fn places(&self, alloc: Global, room: u64) -> Result<PlaceList, StackError>
        requires few { length self.now.shifts.items ≤ 2 ^ 21 }
        requires shifts { All (λ s. Within (2 ^ 40) s) self.now.shifts.items }
        ensures { (lines : List LineValue) → IsStack lines [] self.now
            → StackAnswers result (stacked_lines room lines) }
    {
        let mut page = Vec::with_capacity(alloc, self.shifts.len() * PLACES_OF_A_LINE)?;
        let mut at = self.pieces.place_of(0);
        let mut next = FIRST_LINE;
        for shift in self.shifts.as_slice() {
            next = add_line(&mut page, &self.pieces, at, *shift, next, room)?;
            at = self.pieces.place_after(at);
        }
        Ok(Items::from_vec(page))
    }
}

fn last_shift(shifts: &[i64]) -> i64
    ensures { (before : List ℤ) (shift : ℤ) → shifts.now ≡ before ++ shift ∷ [] → result ≡ shift }
{
    match shifts {
        [.., shift] => *shift,
        [] => 0,
    }
}
