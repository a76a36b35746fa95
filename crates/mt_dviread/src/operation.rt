//! The operations that opcodes and their operands stand for (tex.web §585 to §590).
ghost use Rattle.std.specs.Prelude.{◌≡◌, ◌≤◌, ◌<◌, length, take, drop};
ghost use Rattle.mt_dvi.specs.Codes.{Rule, operand_size, operation, signed, definition, definition_size};
ghost use Rattle.mt_dvi.specs.Codes.{preamble, postamble};
ghost use Rattle.mt_dvi.specs.Opcodes.{right1, fnt_num_0};
ghost use Rattle.mt_dviread.specs.inner.Operations.{IsDefinition, IsPreamble, IsPostamble, IsOperation, by_register, register_of};

use crate::number::{byte, bytes_from, front, past, signed, unsigned};
use mt_dvi::opcode::*;

/// The registers that hold amounts: w and x are added to h, y and z to v.
#[derive(Clone, Copy, Debug, PartialEq, Eq)]
pub enum Register {
    /// Moves to the right.
    W,
    /// Moves to the right.
    X,
    /// Moves down.
    Y,
    /// Moves down.
    Z,
}

/// A font's definition.
#[derive(Clone, Copy, Debug)]
pub struct Definition<'a> {
    /// Its number in the file.
    pub number: u32,
    /// In scaled points.
    pub size: u32,
    /// Where the font is to be found; empty in most files.
    pub area: &'a [u8],
    /// Its name, without an area.
    pub name: &'a [u8],
}

/// pre, which begins a file.
#[derive(Clone, Copy, Debug)]
pub struct Preamble {
    /// The identifier of the format.
    pub version: u32,
    /// The unit is the fraction num / den of 10^-7 meters.
    pub num: u32,
    /// See `num`.
    pub den: u32,
    /// The magnification in thousandths.
    pub mag: i32,
}

/// post, which ends the pages.
#[derive(Clone, Copy, Debug)]
pub struct Postamble {
    /// The offset of the last bop, -1 where there is no page.
    pub last: i32,
    /// The unit again.
    pub num: u32,
    /// The unit again.
    pub den: u32,
    /// The magnification again.
    pub mag: i32,
    /// The greatest depth of the stack.
    pub depth: u32,
    /// The number of pages.
    pub pages: u32,
}

/// An operation, with what a reader of places needs of its operands.
#[derive(Clone, Copy, Debug)]
pub enum Operation<'a> {
    /// set and put of a character; put leaves h as it was.
    Char { put: bool, code: u32 },
    /// set_rule and put_rule, with the same flag.
    Rule { put: bool, height: i32, width: i32 },
    /// Nothing.
    Nop,
    /// A page begins; the offset of the bop before.
    Bop(i32),
    /// A page ends.
    Eop,
    /// The registers are saved.
    Push,
    /// The registers are restored.
    Pop,
    /// A move to the right, in scaled points.
    Right(i32),
    /// A move down, in scaled points.
    Down(i32),
    /// The register is set, and then its amount is moved by.
    Set(Register, i32),
    /// The amount of the register is moved by.
    Add(Register),
    /// fnt_num and fnt: the font of this number is selected.
    Select(u32),
    /// xxx, which is passed over.
    Special,
    /// fnt_def.
    Define(Definition<'a>),
    /// The file begins.
    Pre(Preamble),
    /// The pages end.
    Post(Postamble),
    /// The offset of post, and the identifier of the format.
    PostPost { post: u32, version: u32 },
    /// 250 to 255.
    Undefined,
}

fn rule(put: bool, operands: &[u8]) -> Operation<'_>
    requires { length operands.now ≡ 8 }
    ensures { IsOperation result (Rule put (signed (take 4 operands.now)) (signed (drop 4 operands.now))) }
{
    Operation::Rule {
        put,
        height: signed(front(operands, 4)),
        width: signed(past(operands, 4)),
    }
}

impl<'a> Definition<'a> {
    // The number of the font has so many bytes.
    fn read(count: usize, operands: &'a [u8]) -> Definition<'a>
        requires least { 1 ≤ count }
        requires most { count ≤ 4 }
        requires whole { length operands.now ≡ definition_size count operands.now }
        ensures { IsDefinition result (definition count operands.now) }
    {
        let area = byte(operands, count + 12);
        Definition {
            number: unsigned(front(operands, count)),
            size: unsigned(bytes_from(operands, count + 4, 4)),
            area: bytes_from(operands, count + 14, area),
            name: past(operands, count + 14 + area),
        }
    }
}

impl Preamble {
    fn read(operands: &[u8]) -> Preamble
        requires { 14 ≤ length operands.now }
        ensures { IsPreamble result (preamble operands.now) }
    {
        Preamble {
            version: u32::from(operands[0]),
            num: unsigned(bytes_from(operands, 1, 4)),
            den: unsigned(bytes_from(operands, 5, 4)),
            mag: signed(bytes_from(operands, 9, 4)),
        }
    }
}

impl Postamble {
    fn read(operands: &[u8]) -> Postamble
        requires { length operands.now ≡ 28 }
        ensures { IsPostamble result (postamble operands.now) }
    {
        Postamble {
            last: signed(front(operands, 4)),
            num: unsigned(bytes_from(operands, 4, 4)),
            den: unsigned(bytes_from(operands, 8, 4)),
            mag: signed(bytes_from(operands, 12, 4)),
            depth: unsigned(bytes_from(operands, 24, 2)),
            pages: unsigned(past(operands, 26)),
        }
    }
}

// The opcodes from RIGHT1 to the one before FNT_NUM_0.
#[inline(always)]
#[tactic(auto, unfolding(mt_dvi::specs::Codes::operand_size, mt_dvi::specs::Codes::operation))]
fn moves(opcode: u8, operands: &[u8]) -> Operation<'_>
    requires low { right1 ≤ opcode }
    requires high { opcode < fnt_num_0 }
    requires whole { length operands.now ≡ operand_size opcode operands.now }
    ensures { IsOperation result (operation opcode operands.now) }
{
    if opcode < DOWN1 {
        if opcode < W_0 {
            Operation::Right(signed(operands))
        } else if opcode < X_0 {
            by_register(Register::W, operands)
        } else {
            by_register(Register::X, operands)
        }
    } else if opcode < Y_0 {
        Operation::Down(signed(operands))
    } else if opcode < Z_0 {
        by_register(Register::Y, operands)
    } else {
        by_register(Register::Z, operands)
    }
}

// A move by the amount of a register, which is set before where there are operands.
#[inline(always)]
fn by_register(register: Register, operands: &[u8]) -> Operation<'_>
    requires { length operands.now ≤ 4 }
    ensures { IsOperation result (by_register (register_of register) operands.now) }
{
    if operands.is_empty() {
        Operation::Add(register)
    } else {
        Operation::Set(register, signed(operands))
    }
}

// The opcodes below RIGHT1.
#[inline(always)]
#[tactic(auto, unfolding(mt_dvi::specs::Codes::operand_size, mt_dvi::specs::Codes::operation))]
fn marks(opcode: u8, operands: &[u8]) -> Operation<'_>
    requires high { opcode < right1 }
    requires whole { length operands.now ≡ operand_size opcode operands.now }
    ensures { IsOperation result (operation opcode operands.now) }
{
    if opcode < SET1 {
        Operation::Char {
            put: false,
            code: u32::from(opcode),
        }
    } else if opcode < SET_RULE {
        Operation::Char {
            put: false,
            code: unsigned(operands),
        }
    } else if opcode == SET_RULE {
        rule(false, operands)
    } else if opcode < PUT_RULE {
        Operation::Char {
            put: true,
            code: unsigned(operands),
        }
    } else if opcode == PUT_RULE {
        rule(true, operands)
    } else if opcode == NOP {
        Operation::Nop
    } else if opcode == BOP {
        Operation::Bop(signed(past(operands, 40)))
    } else if opcode == EOP {
        Operation::Eop
    } else if opcode == PUSH {
        Operation::Push
    } else {
        Operation::Pop
    }
}

// The opcodes from FNT_NUM_0 on.
#[inline(always)]
#[tactic(auto, unfolding(mt_dvi::specs::Codes::operand_size, mt_dvi::specs::Codes::operation))]
fn others(opcode: u8, operands: &[u8]) -> Operation<'_>
    requires low { fnt_num_0 ≤ opcode }
    requires whole { length operands.now ≡ operand_size opcode operands.now }
    ensures { IsOperation result (operation opcode operands.now) }
{
    if opcode < FNT1 {
        Operation::Select(u32::from(opcode - FNT_NUM_0))
    } else if opcode < XXX1 {
        Operation::Select(unsigned(operands))
    } else if opcode < FNT_DEF1 {
        Operation::Special
    } else if opcode < PRE {
        Operation::Define(Definition::read(usize::from(opcode - 242), operands))
    } else if opcode == PRE {
        Operation::Pre(Preamble::read(operands))
    } else if opcode == POST {
        Operation::Post(Postamble::read(operands))
    } else if opcode == POST_POST {
        Operation::PostPost {
            post: unsigned(front(operands, 4)),
            version: unsigned(past(operands, 4)),
        }
    } else {
        Operation::Undefined
    }
}

/// The operation of an opcode with its operands.
#[inline(always)]
pub fn decode(opcode: u8, operands: &[u8]) -> Operation<'_>
    requires whole { length operands.now ≡ operand_size opcode operands.now }
    ensures { IsOperation result (operation opcode operands.now) }
{
    if opcode < RIGHT1 {
        marks(opcode, operands)
    } else if opcode < FNT_NUM_0 {
        moves(opcode, operands)
    } else {
        others(opcode, operands)
    }
}
