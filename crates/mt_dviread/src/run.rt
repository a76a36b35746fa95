//! The opcodes that most of a page is made of, one by one (tex.web §585).
ghost use Rattle.std.specs.Prelude.{◌≡◌, ◌<◌, ◌≤◌, ◌+◌, [], length, IfErr, IfOk, IfSome, Ok, Err, Some, true, false};
ghost use Rattle.mt_dvi.specs.Edges.{right_edge, lower_edge};
ghost use Rattle.mt_dvi.specs.File as files;
ghost use Rattle.mt_dvi.specs.Machine as machine;
ghost use Rattle.mt_dviread.specs.Deeds.{IsNear, IsSmallMark};
ghost use Rattle.mt_dviread.specs.Runs.{run_opcode, coming, IsMoved, mark_turn, move_turn};
ghost use Rattle.mt_dviread.specs.Sees.{IsWithin, Sees, Turns, are_cut};
ghost use Rattle.mt_dviread.specs.declared.error.DviError.TheVariants.{Truncated};
ghost use Rattle.mt_dviread.specs.declared.file.Phase.TheVariants.{InPage};
ghost use Rattle.mt_dviread.specs.declared.run.RunOpcode.{RunOpcode};
ghost use Rattle.mt_dviread.specs.declared.run.RunOpcode.TheVariants.{Mark as TheMark, Select as TheSelect};
ghost use Rattle.mt_dviread.specs.inner.Follows.{Fills};
ghost use Rattle.mt_dviread.specs.inner.Performs.{marked};

use crate::deed::Mark;
use crate::error::{Cause, DviError};
use crate::file::{OpenFile, Phase};
use crate::number::{front, past};
use crate::operands::operand_size;
use crate::operation::decode;
use mt_dvi::opcode::{FNT_NUM_0, FNT1, POP, PUSH, RIGHT1, SET1};
use mt_family::FontSet;

/// An opcode of a run: those that a page is made of, but for a few.
#[derive(Clone, Copy, Debug, PartialEq, Eq)]
pub enum RunOpcode {
    /// set_char_0 to set_char_127.
    Mark,
    /// right, w, x, down, y and z, push and pop.
    Move,
    /// fnt_num_0 to fnt_num_63.
    Select,
}

// The kind of an opcode, if it is one of a run.
#[inline(always)]
fn run_opcode(code: u8) -> Option<RunOpcode>
    ensures { result ≡ run_opcode code }
{
    if code < SET1 {
        Some(RunOpcode::Mark)
    } else if code == PUSH || code == POP {
        Some(RunOpcode::Move)
    } else if code < RIGHT1 {
        None
    } else if code < FNT_NUM_0 {
        Some(RunOpcode::Move)
    } else if code < FNT1 {
        Some(RunOpcode::Select)
    } else {
        None
    }
}

impl<'a> OpenFile<'a> {
    /// The kind of the next opcode, if it is in a page and is one of a run.
    #[inline(always)]
    pub fn coming(&self) -> Option<RunOpcode>
        ensures is { result ≡ coming self.now }
        ensures in_page { IfSome result (λ kind. self.now.phase ≡ InPage) }
    {
        if self.phase != Phase::InPage {
            return None;
        }
        let [code, ..] = self.rest else {
            return None;
        };
        run_opcode(*code)
    }

    /// Performs the next opcode, which is a mark, and tells its place and how far it reaches.
    ///
    /// # Errors
    ///
    /// The fault of this opcode, with its offset.
    #[inline(always)]
    pub fn perform_mark(&mut self, fonts: &FontSet) -> Result<Mark, DviError>
        requires within { IsWithin self.old }
        requires is { coming self.old ≡ Some TheMark }
        ensures turns { (file : files.File) → Sees fonts.now self.old file
            → Turns fonts.now file self.old.rest.now (mark_turn result) self.new }
        ensures cut { are_cut self.old.rest.now ≡ true → result ≡ Err (Truncated self.old.at) }
        ensures near { IfOk result (λ mark. IsNear mark.place) }
        ensures right { IfOk result (λ mark. mark.right ≡ right_edge fonts.now mark.place) }
        ensures lower { IfOk result (λ mark. mark.lower ≡ lower_edge fonts.now mark.place) }
        ensures small { IfOk result IsSmallMark }
        ensures within { IfOk result (λ mark. IsWithin self.new) }
        ensures shorter { IfOk result (λ mark. length self.new.rest.now < length self.old.rest.now) }
        ensures same { IfOk result (λ mark. self.new.at + length self.new.rest.now
            ≡ self.old.at + length self.old.rest.now) }
    {
        let [code, ..] = self.rest else {
            return Err(DviError::Truncated(self.at as u64));
        };
        let later = past(self.rest, 1);
        match self.mark(fonts, *code) {
            Ok(mark) => {
                self.at += 1;
                self.rest = later;
                Ok(mark)
            }
            Err(cause) => Err(cause.at(self.at as u64)),
        }
    }

    // Sets a character.
    #[inline(always)]
    fn mark(&mut self, fonts: &FontSet, code: u8) -> Result<Mark, Cause>
        ensures fills { (file : files.File) → Sees fonts.now self.old file → file.again ≡ []
            → Fills fonts.now file (marked result) self.new (files.effect_step file
            (machine.glyph_effect fonts.now file.machine false code file.machine.font)) }
        ensures near { IfOk result (λ mark. IsNear mark.place) }
        ensures right { IfOk result (λ mark. mark.right ≡ right_edge fonts.now mark.place) }
        ensures lower { IfOk result (λ mark. mark.lower ≡ lower_edge fonts.now mark.place) }
        ensures small { IfOk result IsSmallMark }
        ensures at { self.new.at ≡ self.old.at }
        ensures rest { self.new.rest ≡ self.old.rest }
        ensures pages { self.new.page_count ≡ self.old.page_count }
    {
        let mark = self.machine.mark(fonts, false, u32::from(code))?;
        self.deepest = self.deepest.max(self.machine.saved_count());
        self.count(Some(mark.place))?;
        Ok(mark)
    }

    /// Performs the next opcode, which is a move or the selection of a font; neither fills a place.
    ///
    /// # Errors
    ///
    /// The fault of this opcode, with its offset. `OutOfMemory` where memory ran out.
    #[inline(always)]
    pub fn perform_move(&mut self, fonts: &FontSet) -> Result<(), DviError>
        requires within { IsWithin self.old }
        requires is { IsMoved (coming self.old) }
        ensures turns { (file : files.File) (kind : RunOpcode) → Sees fonts.now self.old file
            → coming self.old ≡ Some kind
            → Turns fonts.now file self.old.rest.now (move_turn kind result) self.new }
        ensures cut { are_cut self.old.rest.now ≡ true → result ≡ Err (Truncated self.old.at) }
        ensures within { IfOk result (λ done. IsWithin self.new) }
        ensures shorter { IfOk result (λ done. length self.new.rest.now < length self.old.rest.now) }
        ensures same { IfOk result (λ done. self.new.at + length self.new.rest.now
            ≡ self.old.at + length self.old.rest.now) }
        ensures one { coming self.old ≡ Some TheSelect → IfOk result (λ done. self.new.at ≡ self.old.at + 1) }
    {
        let [code, ..] = self.rest else {
            return Err(DviError::Truncated(self.at as u64));
        };
        let later = past(self.rest, 1);
        let size = operand_size(*code, later);
        if later.len() < size {
            return Err(DviError::Truncated(self.at as u64));
        }
        let operation = decode(*code, front(later, size));
        match self.perform(fonts, operation) {
            Ok(_) => {
                self.at += size + 1;
                self.rest = past(later, size);
                Ok(())
            }
            Err(cause) => Err(cause.at(self.at as u64)),
        }
    }
}
