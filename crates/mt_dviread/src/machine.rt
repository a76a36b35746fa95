//! The machine inside a page: its registers, and what an operation does to them (tex.web §585).
ghost use Rattle.std.specs.Prelude.{◌≡◌, ◌<◌, ◌≤◌, ◌+◌, ◌+ℤ◌, List, length, nat_abs, IfOk, IfErr, IfSome, true, false};
ghost use Rattle.mt_dviread.specs.declared.error.Cause.TheVariants.{MissingChar};
ghost use Rattle.mt_family.specs.SetValue.{SetValue};
ghost use Rattle.mt_tfm.specs.Font.{exists, width_of, depth_of};
ghost use Rattle.mt_box.specs.declared.place.Place.TheVariants.{Glyph};
ghost use Rattle.mt_dvi.specs.Edges.{right_edge, lower_edge};
ghost use Rattle.mt_dvi.specs.Limits.{max_pushes};
ghost use Rattle.mt_dvi.specs.Codes as codes;
ghost use Rattle.mt_dvi.specs.Fonts.{first_definition};
ghost use Rattle.mt_dvi.specs.Machine as machine;
ghost use Rattle.mt_dviread.specs.Deeds.{IsNear, IsSmallMark};
ghost use Rattle.mt_dviread.specs.inner.Operations.{IsOperation, register_of};
ghost use Rattle.mt_dviread.specs.inner.Defined.{Knows};
ghost use Rattle.mt_dviread.specs.inner.Performs.{Performs, marked, MovesTo, MovesMachine, registers_of};
ghost use Rattle.mt_dviread.specs.inner.Performs.{registers_with, registers_moved, with_registers};

use crate::coordinate::Coordinate;
use crate::deed::Mark;
use crate::definitions::Definitions;
use crate::error::Cause;
use crate::operation::{Operation, Register};
use mt_box::Place;
use mt_family::FontSet;
use mt_tfm::{Font, Measured};
use std::alloc::{AllocError, Global};
use std::marker::Model;

// The most registers that push saves.
const MAX_PUSHES: usize = 1_000;

/// The registers, in scaled points; h grows to the right and v downward.
#[derive(Clone, Copy, Debug)]
pub struct Registers {
    /// To the right of the page's origin.
    pub h: Coordinate,
    /// Below the page's origin.
    pub v: Coordinate,
    /// An amount for moves to the right.
    pub w: i32,
    /// Another one.
    pub x: i32,
    /// An amount for moves down.
    pub y: i32,
    /// Another one.
    pub z: i32,
}

impl Registers {
    fn zeros() -> Registers
        ensures { registers_of result ≡ machine.zeros }
    {
        Registers {
            h: Coordinate::zero(),
            v: Coordinate::zero(),
            w: 0,
            x: 0,
            y: 0,
            z: 0,
        }
    }

    #[inline(always)]
    fn right(self, by: i64) -> Result<Registers, Cause>
        requires { nat_abs by < 4294967296 }
        ensures { MovesTo result (record (registers_of self) { h = self.h.sp +ℤ by }) }
    {
        match self.h.plus(by) {
            Some(h) => Ok(Registers { h, ..self }),
            None => Err(Cause::OutOfRange),
        }
    }

    #[inline(always)]
    fn down(self, by: i64) -> Result<Registers, Cause>
        requires { nat_abs by < 4294967296 }
        ensures { MovesTo result (record (registers_of self) { v = self.v.sp +ℤ by }) }
    {
        match self.v.plus(by) {
            Some(v) => Ok(Registers { v, ..self }),
            None => Err(Cause::OutOfRange),
        }
    }

    #[inline(always)]
    fn set(self, register: Register, by: i32) -> Registers
        ensures { registers_of result ≡ registers_with (registers_of self) (register_of register) by }
    {
        match register {
            Register::W => Registers { w: by, ..self },
            Register::X => Registers { x: by, ..self },
            Register::Y => Registers { y: by, ..self },
            Register::Z => Registers { z: by, ..self },
        }
    }

    // w and x move to the right, y and z down.
    #[inline(always)]
    fn add(self, register: Register) -> Result<Registers, Cause>
        ensures { MovesTo result (registers_moved (registers_of self) (register_of register)) }
    {
        match register {
            Register::W => self.right(i64::from(self.w)),
            Register::X => self.right(i64::from(self.x)),
            Register::Y => self.down(i64::from(self.y)),
            Register::Z => self.down(i64::from(self.z)),
        }
    }
}

/// The registers, those that push has saved, and the number in the set of the font that is selected.
#[derive(Drop)]
pub struct Machine {
    registers: Registers,
    // The last one at the end.
    saved: Vec<Registers>,
    font: Option<u16>,
}

impl Model for Machine {
    ghost use Rattle.std.specs.Prelude.{map, reverse, length, ◌≤◌};
    ghost use Rattle.mt_dvi.specs.Limits.{max_pushes};
    ghost use Rattle.mt_dvi.specs.Machine as machine;
    ghost use Rattle.mt_dviread.specs.inner.Performs.{registers_of};

    ghost Value = { machine.Machine };

    ghost view = { λ m. record {
      now = registers_of m.registers;
      saved = map registers_of (reverse m.saved.items);
      font = m.font;
    } };

    ghost invariant = { λ m. length m.saved.items ≤ max_pushes };
}

// The character of a code and its dimensions, if the font has it.
#[inline(always)]
fn char_of(font: &Font, code: u32) -> Result<(u8, Measured), Cause>
    requires { font.now.first + length font.now.chars ≤ 256 }
    ensures is { IfOk result (λ c. (c.0 ≡ code) × (exists font.now code ≡ true)) }
    ensures width { IfOk result (λ c. c.1.width ≡ width_of font.now code) }
    ensures depth { IfOk result (λ c. c.1.depth ≡ depth_of font.now code) }
    ensures wide { IfOk result (λ c. nat_abs c.1.width ≤ 2147483648) }
    ensures deep { IfOk result (λ c. nat_abs c.1.depth ≤ 2147483648) }
    ensures err { IfErr result (λ cause. (cause ≡ MissingChar) × (exists font.now code ≡ false)) }
{
    let Ok(code) = u8::try_from(code) else {
        return Err(Cause::MissingChar);
    };
    match font.measured(code) {
        Some(measured) => Ok((code, measured)),
        None => Err(Cause::MissingChar),
    }
}

// The place of a character, and how far it reaches.
#[inline(always)]
fn mark_at(font: u16, code: u8, at: Registers, measured: Measured) -> Mark
    requires wide { nat_abs measured.width ≤ 2147483648 }
    requires deep { nat_abs measured.depth ≤ 2147483648 }
    ensures place { result.place ≡ Glyph font code at.h.sp at.v.sp }
    ensures near { IsNear result.place }
    ensures right { result.right ≡ at.h.sp +ℤ measured.width }
    ensures lower { result.lower ≡ at.v.sp +ℤ measured.depth }
    ensures small { IsSmallMark result }
{
    let h = i64::from(at.h.sp);
    let v = i64::from(at.v.sp);
    Mark {
        place: Place::Glyph { font, code, h, v },
        right: h + measured.width,
        lower: v + measured.depth,
    }
}

impl Machine {
    /// The machine as bop leaves it.
    pub fn at_bop(alloc: Global) -> Machine
        ensures { result ≡ machine.at_bop }
    {
        Machine {
            registers: Registers::zeros(),
            saved: Vec::new(alloc),
            font: None,
        }
    }

    /// How many registers are saved, at most 1,000.
    pub fn saved_count(&self) -> usize
        ensures is { result ≡ length self.now.saved }
        ensures small { result ≤ max_pushes }
    {
        self.saved.len()
    }

    /// The number in the set of the font that is selected, if any.
    pub fn font(&self) -> Option<u16>
        ensures { result ≡ self.now.font }
    {
        self.font
    }

    // Takes the registers after a move, and fills no place.
    #[inline(always)]
    fn moved(&mut self, now: Result<Registers, Cause>) -> Result<Option<Place>, Cause>
        ensures performs { (meant : machine.Registers) → MovesTo now meant
            → Performs result self.new (machine.without_place (with_registers self.old meant)) }
        ensures near { IfOk result (λ place. IfSome place IsNear) }
    {
        self.registers = now?;
        Ok(None)
    }

    // Passes over a place that set fills; put does not.
    #[inline(always)]
    fn pass(&mut self, put: bool, width: i64) -> Result<(), Cause>
        requires { nat_abs width < 4294967296 }
        ensures { MovesMachine result self.new (machine.after_place put self.old width) }
    {
        if !put {
            self.registers = self.registers.right(width)?;
        }
        Ok(())
    }

    /// Performs set or put of a character, which fills a place.
    #[inline(always)]
    pub fn mark(&mut self, fonts: &FontSet, put: bool, code: u32) -> Result<Mark, Cause>
        ensures performs { Performs (marked result) self.new
            (machine.glyph_effect fonts.now self.old put code self.old.font) }
        ensures near { IfOk result (λ mark. IsNear mark.place) }
        ensures right { IfOk result (λ mark. mark.right ≡ right_edge fonts.now mark.place) }
        ensures lower { IfOk result (λ mark. mark.lower ≡ lower_edge fonts.now mark.place) }
        ensures small { IfOk result IsSmallMark }
    {
        let Some(number) = self.font else {
            return Err(Cause::UnknownFont);
        };
        let Some(font) = fonts.font(number) else {
            return Err(Cause::UnknownFont);
        };
        let (code, measured) = char_of(font, code)?;
        let mark = mark_at(number, code, self.registers, measured);
        self.pass(put, measured.width)?;
        Ok(mark)
    }

    #[inline(always)]
    fn glyph(&mut self, fonts: &FontSet, put: bool, code: u32) -> Result<Option<Place>, Cause>
        ensures performs { Performs result self.new
            (machine.glyph_effect fonts.now self.old put code self.old.font) }
        ensures near { IfOk result (λ place. IfSome place IsNear) }
    {
        let mark = self.mark(fonts, put, code)?;
        Ok(Some(mark.place))
    }

    // A rule fills a place where both sides are positive.
    fn rule(&mut self, put: bool, height: i32, width: i32) -> Result<Option<Place>, Cause>
        ensures performs { Performs result self.new (machine.rule_effect self.old put height width) }
        ensures near { IfOk result (λ place. IfSome place IsNear) }
    {
        let place = if height > 0 && width > 0 {
            Some(Place::Rule {
                h: i64::from(self.registers.h.sp),
                v: i64::from(self.registers.v.sp),
                height: i64::from(height),
                width: i64::from(width),
            })
        } else {
            None
        };
        self.pass(put, i64::from(width))?;
        Ok(place)
    }

    fn nop(&mut self) -> Result<Option<Place>, Cause>
        ensures performs { Performs result self.new (machine.without_place self.old) }
        ensures near { IfOk result (λ place. IfSome place IsNear) }
    {
        self.moved(Ok(self.registers))
    }

    #[inline(always)]
    fn push(&mut self) -> Result<Option<Place>, Cause>
        ensures performs { Performs result self.new (machine.push_effect self.old) }
        ensures near { IfOk result (λ place. IfSome place IsNear) }
    {
        if self.saved.len() >= MAX_PUSHES {
            return Err(Cause::TooDeep);
        }
        self.saved.push(self.registers).map_err(AllocError::from)?;
        Ok(None)
    }

    #[inline(always)]
    fn pop(&mut self) -> Result<Option<Place>, Cause>
        ensures performs { Performs result self.new (machine.pop_effect self.old self.old.saved) }
        ensures near { IfOk result (λ place. IfSome place IsNear) }
    {
        match self.saved.pop() {
            Some(before) => {
                self.registers = before;
                Ok(None)
            }
            None => Err(Cause::StackEmpty),
        }
    }

    #[inline(always)]
    fn select(&mut self, definitions: &Definitions<'_>, number: u32) -> Result<Option<Place>, Cause>
        ensures performs { (fonts : SetValue) (known : List codes.Definition)
            → Knows fonts definitions.now known
            → Performs result self.new
            (machine.select_effect fonts self.old (first_definition known number)) }
        ensures near { IfOk result (λ place. IfSome place IsNear) }
    {
        match definitions.font(number) {
            Some(font) => {
                self.font = Some(font);
                Ok(None)
            }
            None => Err(Cause::UnknownFont),
        }
    }

    #[inline(always)]
    fn right(&mut self, by: i32) -> Result<Option<Place>, Cause>
        ensures performs { Performs result self.new
            (machine.without_place (machine.move_right self.old by)) }
        ensures near { IfOk result (λ place. IfSome place IsNear) }
    {
        self.moved(self.registers.right(i64::from(by)))
    }

    #[inline(always)]
    fn down(&mut self, by: i32) -> Result<Option<Place>, Cause>
        ensures performs { Performs result self.new
            (machine.without_place (machine.move_down self.old by)) }
        ensures near { IfOk result (λ place. IfSome place IsNear) }
    {
        self.moved(self.registers.down(i64::from(by)))
    }

    #[inline(always)]
    fn set(&mut self, register: Register, by: i32) -> Result<Option<Place>, Cause>
        ensures performs { Performs result self.new
            (machine.without_place (machine.add_register
            (machine.set_register self.old (register_of register) by)
            (register_of register))) }
        ensures near { IfOk result (λ place. IfSome place IsNear) }
    {
        self.moved(self.registers.set(register, by).add(register))
    }

    #[inline(always)]
    fn add(&mut self, register: Register) -> Result<Option<Place>, Cause>
        ensures performs { Performs result self.new
            (machine.without_place (machine.add_register self.old (register_of register))) }
        ensures near { IfOk result (λ place. IfSome place IsNear) }
    {
        self.moved(self.registers.add(register))
    }

    /// Performs an operation of a page, and gives the place that it fills, if any.
    #[inline(always)]
    pub fn perform(
        &mut self,
        fonts: &FontSet,
        definitions: &Definitions<'_>,
        operation: Operation<'_>,
    ) -> Result<Option<Place>, Cause>
        ensures performs { (known : List codes.Definition) (meant : codes.Operation)
            → Knows fonts.now definitions.now known → IsOperation operation.entry meant
            → Performs result self.new (machine.perform fonts.now known self.old meant) }
        ensures near { IfOk result (λ place. IfSome place IsNear) }
    {
        match operation {
            Operation::Char { put, code } => self.glyph(fonts, put, code),
            Operation::Rule { put, height, width } => self.rule(put, height, width),
            Operation::Nop => self.nop(),
            Operation::Push => self.push(),
            Operation::Pop => self.pop(),
            Operation::Right(by) => self.right(by),
            Operation::Down(by) => self.down(by),
            Operation::Set(register, by) => self.set(register, by),
            Operation::Add(register) => self.add(register),
            Operation::Select(number) => self.select(definitions, number),
            _ => Err(Cause::BadOpcode),
        }
    }
}
