//! What is read of a file so far, and what an operation does to it.
ghost use Rattle.std.specs.Prelude.{◌≡◌, ◌<◌, ◌≤◌, ◌+◌, ◌^◌, nat_le, [], List, ℕ, ◌==◌, ◌&&◌, length, IfErr, IfOk, IfSome, IsSome, Ok, Err, Some, true};
ghost use Rattle.std.specs.List.{list_all};
ghost use Rattle.std.specs.Ordering.{int_eq};
ghost use Rattle.mt_family.specs.SetValue.{SetValue};
ghost use Rattle.mt_dvi.specs.Limits.{max_pushes};
ghost use Rattle.mt_dvi.specs.Codes as codes;
ghost use Rattle.mt_dvi.specs.Codes.{Pre, Post};
ghost use Rattle.mt_dvi.specs.File as files;
ghost use Rattle.mt_dvi.specs.Machine as machine;
ghost use Rattle.mt_dviread.specs.declared.deed.Deed.{Deed};
ghost use Rattle.mt_dviread.specs.declared.deed.Deed.TheVariants.{Passes, BeginsPage, EndsPage};
ghost use Rattle.mt_dviread.specs.declared.file.Phase.TheVariants.{AfterPost, BeforePre, BetweenPages};
ghost use Rattle.mt_dviread.specs.declared.error.Cause.TheVariants.{BadPreamble};
ghost use Rattle.mt_dviread.specs.Deeds.{IsNear, IsNearDeed};
ghost use Rattle.mt_dviread.specs.Errors.{cause_of, fault_of};
ghost use Rattle.mt_dviread.specs.inner.Operations.{IsOperation, IsPreamble, IsPostamble, IsDefinition};
ghost use Rattle.mt_dviread.specs.inner.Follows.{Goes, Fills, Does, EndsFile, Follows, Counts};
ghost use Rattle.mt_dviread.specs.Sees.{Sees, IsWithin, Turns, are_cut};
ghost use Rattle.mt_dviread.specs.declared.error.DviError.TheVariants.{Truncated};

use crate::deed::Deed;
use crate::definitions::Definitions;
use crate::error::{Cause, DviError};
use crate::machine::Machine;
use crate::number::{front, past};
use crate::operands::operand_size;
use crate::operation::{Definition, Operation, Postamble, Preamble, decode};
use crate::run::RunOpcode;
use mt_box::Place;
use mt_dvi::MAX_PLACES;
use mt_dvi::opcode::{IDENTIFIER, PADDING};
use mt_family::FontSet;
use std::alloc::Global;

// The unit is the fraction num / den of 10^-7 meters: these make it a scaled point.
const NUM: u32 = 25_400_000;

const DEN: u32 = 473_628_672;

/// Which part of the file the next opcode is in.
#[derive(Clone, Copy, Debug, PartialEq, Eq)]
pub enum Phase {
    /// At the file's first byte.
    BeforePre,
    /// After pre and before post, but in no page.
    BetweenPages,
    /// After bop, before eop.
    InPage,
    /// After the pages.
    AfterPost,
}

/// A DVI file that is read opcode by opcode (tex.web §585 to §594). It keeps what tells whether the next
/// opcode is allowed there and what it does, but no places.
#[derive(Drop)]
pub struct OpenFile<'a> {
    // The offset of the next opcode, and the bytes from there on.
    pub(crate) at: usize,
    pub(crate) rest: &'a [u8],
    pub(crate) phase: Phase,
    // The magnification of pre.
    mag: i32,
    definitions: Definitions<'a>,
    // The number of pages that have ended.
    page_count: usize,
    pub(crate) machine: Machine,
    // The offset of the last bop, -1 where there is none.
    last: i64,
    // The greatest depth of the stack so far.
    pub(crate) deepest: usize,
    // The number of places so far.
    pub(crate) place_count: u64,
    // The offset of post.
    post_at: usize,
}

fn is_scaled_point(num: u32, den: u32) -> bool
    ensures { result ≡ (num == 25400000) && (den == 473628672) }
{
    num == NUM && den == DEN
}

fn is_preamble(preamble: Preamble) -> bool
    ensures { (meant : codes.Preamble) → IsPreamble preamble meant → result ≡ files.is_preamble meant }
{
    preamble.version == u32::from(IDENTIFIER)
        && is_scaled_point(preamble.num, preamble.den)
        && preamble.mag > 0
}

impl<'a> OpenFile<'a> {
    /// The file before its first byte.
    pub fn at_start(alloc: Global, bytes: &'a [u8]) -> OpenFile<'a>
        ensures sees { (fonts : SetValue) → Sees fonts result files.at_start }
        ensures rest { result.rest.now ≡ bytes.now }
        ensures within { IsWithin result }
    {
        OpenFile {
            at: 0,
            rest: bytes,
            phase: Phase::BeforePre,
            mag: 0,
            definitions: Definitions::none(alloc),
            page_count: 0,
            machine: Machine::at_bop(alloc),
            last: -1,
            deepest: 0,
            place_count: 0,
            post_at: 0,
        }
    }

    /// The offset of the next opcode.
    pub fn at(&self) -> usize
        ensures { result ≡ self.now.at }
    {
        self.at
    }

    /// The bytes from the next opcode on.
    pub fn rest(&self) -> &'a [u8]
        ensures { result.now ≡ self.now.rest.now }
    {
        self.rest
    }

    /// The magnification in thousandths that pre states, 0 before it.
    pub fn mag(&self) -> i32
        ensures { result ≡ self.now.mag }
    {
        self.mag
    }

    /// How many registers push has saved in the page, at most 1,000.
    pub fn depth(&self) -> usize
        ensures is { result ≡ length self.now.machine.saved }
        ensures small { result ≤ max_pushes }
    {
        self.machine.saved_count()
    }

    /// The number in the set of the font that is selected in the page, if any.
    pub fn font(&self) -> Option<u16>
        ensures { result ≡ self.now.machine.font }
    {
        self.machine.font()
    }

    /// Performs the next opcode, and tells what it does to the pages; `None` where it ends the file.
    ///
    /// # Errors
    ///
    /// The fault of this opcode, with its offset. `OutOfMemory` where memory ran out.
    #[inline(never)]
    pub fn next(&mut self, alloc: Global, fonts: &FontSet) -> Result<Option<Deed>, DviError>
        requires within { IsWithin self.old }
        ensures turns { (file : files.File) → Sees fonts.now self.old file
            → Turns fonts.now file self.old.rest.now result self.new }
        ensures cut { are_cut self.old.rest.now ≡ true → result ≡ Err (Truncated self.old.at) }
        ensures first { self.old.phase ≡ BeforePre → IfErr result (λ error. IsSome (fault_of error)) }
        ensures near { IfOk result (λ deed. IfSome deed IsNearDeed) }
        ensures within { IfOk result (λ deed. IsWithin self.new) }
        ensures shorter { (deed : Deed) → result ≡ Ok (Some deed)
            → length self.new.rest.now < length self.old.rest.now }
        ensures same { IfOk result (λ deed. self.new.at + length self.new.rest.now
            ≡ self.old.at + length self.old.rest.now) }
    {
        match self.coming() {
            Some(RunOpcode::Mark) => {
                let mark = self.perform_mark(fonts)?;
                Ok(Some(Deed::Performs(Some(mark.place))))
            }
            Some(RunOpcode::Move) => {
                self.perform_move(fonts)?;
                Ok(Some(Deed::Performs(None)))
            }
            Some(RunOpcode::Select) => {
                self.perform_move(fonts)?;
                Ok(Some(Deed::Selects))
            }
            None => self.next_operation(alloc, fonts),
        }
    }

    // The same, by the operation of the opcode.
    #[inline(always)]
    fn next_operation(&mut self, alloc: Global, fonts: &FontSet) -> Result<Option<Deed>, DviError>
        requires within { IsWithin self.old }
        ensures turns { (file : files.File) → Sees fonts.now self.old file
            → Turns fonts.now file self.old.rest.now result self.new }
        ensures cut { are_cut self.old.rest.now ≡ true → result ≡ Err (Truncated self.old.at) }
        ensures first { self.old.phase ≡ BeforePre → IfErr result (λ error. IsSome (fault_of error)) }
        ensures near { IfOk result (λ deed. IfSome deed IsNearDeed) }
        ensures within { IfOk result (λ deed. IsWithin self.new) }
        ensures shorter { (deed : Deed) → result ≡ Ok (Some deed)
            → length self.new.rest.now < length self.old.rest.now }
        ensures same { IfOk result (λ deed. self.new.at + length self.new.rest.now
            ≡ self.old.at + length self.old.rest.now) }
    {
        let [opcode, ..] = self.rest else {
            return Err(DviError::Truncated(self.at as u64));
        };
        let later = past(self.rest, 1);
        let size = operand_size(*opcode, later);
        if later.len() < size {
            return Err(DviError::Truncated(self.at as u64));
        }
        let operation = decode(*opcode, front(later, size));
        let after = past(later, size);
        let deed = match self.step(alloc, fonts, operation, after) {
            Ok(deed) => deed,
            Err(cause) => return Err(cause.at(self.at as u64)),
        };
        self.at += size + 1;
        self.rest = after;
        Ok(deed)
    }

    // Performs the operation of the next opcode, which has these bytes after it.
    #[inline(always)]
    fn step(
        &mut self,
        alloc: Global,
        fonts: &FontSet,
        operation: Operation<'a>,
        after: &[u8],
    ) -> Result<Option<Deed>, Cause>
        requires within { IsWithin self.old }
        ensures follows { (file : files.File) (meant : codes.Operation)
            → Sees fonts.now self.old file → IsOperation operation.entry meant
            → Follows fonts.now file.phase file meant result self.new
            (files.file_step fonts.now file meant after.now) }
        ensures first { self.old.phase ≡ BeforePre → IfErr result (λ cause. IsSome (cause_of cause)) }
        ensures near { IfOk result (λ deed. IfSome deed IsNearDeed) }
        ensures at { self.new.at ≡ self.old.at }
        ensures rest { self.new.rest ≡ self.old.rest }
        ensures pages { self.new.page_count ≤ self.old.page_count + 1 }
    {
        match self.phase {
            Phase::BeforePre => {
                self.before_pre(operation)?;
                Ok(Some(Deed::Passes))
            }
            Phase::BetweenPages => {
                let deed = self.between_pages(alloc, fonts, operation)?;
                Ok(Some(deed))
            }
            Phase::InPage => {
                let deed = self.in_page(alloc, fonts, operation)?;
                Ok(Some(deed))
            }
            Phase::AfterPost => self.after_post(fonts, operation, after),
        }
    }

    fn before_pre(&mut self, operation: Operation<'a>) -> Result<(), Cause>
        ensures goes { (fonts : SetValue) (file : files.File) (meant : codes.Operation)
            → Sees fonts self.old file → file.again ≡ [] → IsOperation operation.entry meant
            → Goes fonts Passes file result self.new (files.before_pre_step file meant) }
        ensures refused { IfErr result (λ cause. cause ≡ BadPreamble) }
        ensures others { self.new ≡ record (self.old) { phase = self.new.phase; mag = self.new.mag } }
    {
        match operation {
            Operation::Pre(preamble) => self.begin(preamble),
            _ => Err(Cause::BadPreamble),
        }
    }

    fn begin(&mut self, preamble: Preamble) -> Result<(), Cause>
        ensures goes { (fonts : SetValue) (file : files.File) (meant : codes.Preamble)
            → Sees fonts self.old file → file.again ≡ [] → IsPreamble preamble meant
            → Goes fonts Passes file result self.new (files.before_pre_step file (Pre meant)) }
        ensures refused { IfErr result (λ cause. cause ≡ BadPreamble) }
        ensures others { self.new ≡ record (self.old) { phase = self.new.phase; mag = self.new.mag } }
    {
        if !is_preamble(preamble) {
            return Err(Cause::BadPreamble);
        }
        self.begin_at(preamble.mag);
        Ok(())
    }

    // Takes the magnification.
    fn begin_at(&mut self, mag: i32)
        ensures { self.new ≡ record (self.old) { phase = BetweenPages; mag = mag } }
    {
        self.phase = Phase::BetweenPages;
        self.mag = mag;
    }

    // Defines a font before post.
    fn define(&mut self, fonts: &FontSet, definition: Definition<'a>) -> Result<(), Cause>
        ensures goes { (file : files.File) (meant : codes.Definition)
            → Sees fonts.now self.old file → file.again ≡ [] → IsDefinition definition.entry meant
            → Goes fonts.now Passes file result self.new (files.define_step file meant) }
        ensures others { self.new ≡ record (self.old) { definitions = self.new.definitions } }
    {
        self.definitions.define(fonts, definition)
    }

    // Defines a font after post.
    fn define_again(&mut self, fonts: &FontSet, definition: Definition<'a>) -> Result<(), Cause>
        requires phase { self.old.phase ≡ AfterPost }
        ensures goes { (file : files.File) (meant : codes.Definition)
            → Sees fonts.now self.old file → IsDefinition definition.entry meant
            → Goes fonts.now Passes file result self.new (files.define_again_step file meant) }
        ensures others { self.new ≡ record (self.old) { definitions = self.new.definitions } }
    {
        self.definitions.define(fonts, definition)
    }

    fn between_pages(
        &mut self,
        alloc: Global,
        fonts: &FontSet,
        operation: Operation<'a>,
    ) -> Result<Deed, Cause>
        requires small { self.old.at < 2 ^ 63 }
        ensures does { (file : files.File) (meant : codes.Operation)
            → Sees fonts.now self.old file → file.again ≡ [] → IsOperation operation.entry meant
            → Does fonts.now files.BetweenPages file meant result self.new
            (files.between_pages_step file meant) }
        ensures near { IfOk result IsNearDeed }
        ensures at { self.new.at ≡ self.old.at }
        ensures rest { self.new.rest ≡ self.old.rest }
        ensures pages { self.new.page_count ≡ self.old.page_count }
    {
        match operation {
            Operation::Bop(before) => {
                self.begin_page(alloc, before)?;
                Ok(Deed::BeginsPage)
            }
            Operation::Post(postamble) => {
                self.end_pages(postamble)?;
                Ok(Deed::Passes)
            }
            Operation::Define(definition) => {
                self.define(fonts, definition)?;
                Ok(Deed::Passes)
            }
            Operation::Nop => Ok(Deed::Passes),
            _ => Err(Cause::BadOpcode),
        }
    }

    fn begin_page(&mut self, alloc: Global, before: i32) -> Result<(), Cause>
        requires small { self.old.at < 2 ^ 63 }
        ensures goes { (fonts : SetValue) (file : files.File) (counts : List ℕ)
            → Sees fonts self.old file → file.again ≡ []
            → Goes fonts BeginsPage file result self.new (files.bop_step file counts before) }
        ensures at { self.new.at ≡ self.old.at }
        ensures rest { self.new.rest ≡ self.old.rest }
        ensures pages { self.new.page_count ≡ self.old.page_count }
    {
        if i64::from(before) != self.last {
            return Err(Cause::BadPointer);
        }
        self.phase = Phase::InPage;
        self.machine = Machine::at_bop(alloc);
        self.last = self.at as i64;
        Ok(())
    }

    // post's pointer and its unit are right.
    fn points_back(&self, last: i32, num: u32, den: u32) -> bool
        ensures { result ≡ (int_eq last self.now.last
            && ((num == 25400000) && (den == 473628672))) }
    {
        i64::from(last) == self.last && is_scaled_point(num, den)
    }

    // post's magnification, its depth of the stack and its number of pages are right.
    fn sums_up(&self, mag: i32, depth: u32, pages: u32) -> bool
        ensures { result ≡ (int_eq mag self.now.mag
            && (nat_le self.now.deepest depth && (pages == self.now.page_count))) }
    {
        mag == self.mag && self.deepest <= depth as usize && pages as usize == self.page_count
    }

    // The extents of the pages are not tested.
    fn is_postamble(&self, postamble: Postamble) -> bool
        ensures { (fonts : SetValue) (file : files.File) (meant : codes.Postamble)
            → Sees fonts self.now file → IsPostamble postamble meant
            → result ≡ files.is_postamble file meant }
    {
        self.points_back(postamble.last, postamble.num, postamble.den)
            && self.sums_up(postamble.mag, postamble.depth, postamble.pages)
    }

    fn end_pages(&mut self, postamble: Postamble) -> Result<(), Cause>
        ensures goes { (fonts : SetValue) (file : files.File) (meant : codes.Postamble)
            → Sees fonts self.old file → IsPostamble postamble meant
            → Goes fonts Passes file result self.new (files.between_pages_step file (Post meant)) }
        ensures others { self.new
            ≡ record (self.old) { phase = self.new.phase; post_at = self.new.post_at } }
    {
        if !self.is_postamble(postamble) {
            return Err(Cause::BadPost);
        }
        self.phase = Phase::AfterPost;
        self.post_at = self.at;
        Ok(())
    }

    #[inline(always)]
    fn in_page(
        &mut self,
        alloc: Global,
        fonts: &FontSet,
        operation: Operation<'a>,
    ) -> Result<Deed, Cause>
        requires small { self.old.page_count < 2 ^ 63 }
        ensures does { (file : files.File) (meant : codes.Operation)
            → Sees fonts.now self.old file → file.again ≡ [] → IsOperation operation.entry meant
            → Does fonts.now files.InPage file meant result self.new
            (files.in_page_step fonts.now file meant) }
        ensures near { IfOk result IsNearDeed }
        ensures at { self.new.at ≡ self.old.at }
        ensures rest { self.new.rest ≡ self.old.rest }
        ensures pages { self.new.page_count ≤ self.old.page_count + 1 }
    {
        match operation {
            Operation::Eop => {
                self.end_page(alloc)?;
                Ok(Deed::EndsPage)
            }
            Operation::Define(definition) => {
                self.define(fonts, definition)?;
                Ok(Deed::Passes)
            }
            Operation::Special => Ok(Deed::Performs(None)),
            Operation::Select(_) => {
                self.perform(fonts, operation)?;
                Ok(Deed::Selects)
            }
            _ => {
                let place = self.perform(fonts, operation)?;
                Ok(Deed::Performs(place))
            }
        }
    }

    fn end_page(&mut self, alloc: Global) -> Result<(), Cause>
        requires small { self.old.page_count < 2 ^ 63 }
        ensures goes { (fonts : SetValue) (file : files.File)
            → Sees fonts self.old file → file.again ≡ []
            → Goes fonts EndsPage file result self.new (files.eop_step file) }
        ensures at { self.new.at ≡ self.old.at }
        ensures rest { self.new.rest ≡ self.old.rest }
        ensures pages { self.new.page_count ≤ self.old.page_count + 1 }
    {
        if self.machine.saved_count() != 0 {
            return Err(Cause::BadOpcode);
        }
        self.phase = Phase::BetweenPages;
        self.machine = Machine::at_bop(alloc);
        self.page_count += 1;
        Ok(())
    }

    // Performs an operation of the page.
    #[inline(always)]
    pub(crate) fn perform(
        &mut self,
        fonts: &FontSet,
        operation: Operation<'a>,
    ) -> Result<Option<Place>, Cause>
        ensures fills { (file : files.File) (meant : codes.Operation)
            → Sees fonts.now self.old file → file.again ≡ [] → IsOperation operation.entry meant
            → Fills fonts.now file result self.new (files.effect_step file
            (machine.perform fonts.now file.fonts file.machine meant)) }
        ensures near { IfOk result (λ place. IfSome place IsNear) }
        ensures at { self.new.at ≡ self.old.at }
        ensures rest { self.new.rest ≡ self.old.rest }
        ensures pages { self.new.page_count ≡ self.old.page_count }
    {
        let place = self.machine.perform(fonts, &self.definitions, operation)?;
        self.deepest = self.deepest.max(self.machine.saved_count());
        self.count(place)?;
        Ok(place)
    }

    // Counts the place that an operation fills, if any.
    pub(crate) fn count(&mut self, place: Option<Place>) -> Result<(), Cause>
        ensures counts { Counts result self.old self.new place }
        ensures others { self.new ≡ record (self.old) { place_count = self.new.place_count } }
    {
        if place.is_some() {
            if self.place_count >= MAX_PLACES {
                return Err(Cause::TooMany);
            }
            self.place_count += 1;
        }
        Ok(())
    }

    fn after_post(
        &mut self,
        fonts: &FontSet,
        operation: Operation<'a>,
        after: &[u8],
    ) -> Result<Option<Deed>, Cause>
        requires phase { self.old.phase ≡ AfterPost }
        ensures follows { (file : files.File) (meant : codes.Operation)
            → Sees fonts.now self.old file → IsOperation operation.entry meant
            → Follows fonts.now files.AfterPost file meant result self.new
            (files.after_post_step file meant after.now) }
        ensures near { IfOk result (λ deed. IfSome deed IsNearDeed) }
        ensures others { self.new ≡ record (self.old) { definitions = self.new.definitions } }
    {
        match operation {
            Operation::PostPost { post, version } => {
                self.end(post, version, after)?;
                Ok(None)
            }
            Operation::Define(definition) => {
                self.define_again(fonts, definition)?;
                Ok(Some(Deed::Passes))
            }
            Operation::Nop => Ok(Some(Deed::Passes)),
            _ => Err(Cause::BadOpcode),
        }
    }

    // At least four bytes are left, and all of them are 223.
    fn end(&self, post: u32, version: u32, after: &[u8]) -> Result<(), Cause>
        ensures { (fonts : SetValue) (file : files.File) → Sees fonts self.now file
            → EndsFile file result self.now (files.post_post_step file post version after.now) }
    {
        if after.len() < 4 {
            return Err(Cause::Truncated);
        }
        if post as usize == self.post_at && version == u32::from(IDENTIFIER) && is_padding(after) {
            Ok(())
        } else {
            Err(Cause::BadPost)
        }
    }
}

fn is_padding(bytes: &[u8]) -> bool
    ensures { result ≡ list_all (λ (b : ℕ). b == 223) bytes.now }
{
    bytes.iter().all(|byte| *byte == PADDING)
}
