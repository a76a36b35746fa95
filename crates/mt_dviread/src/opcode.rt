//! The opcode at an offset of a file (tex.web §585 and §586).
ghost use Rattle.std.specs.Prelude.{◌≡◌, ◌<◌, ◌+◌, ◌^◌, length};
ghost use Rattle.mt_dviread.specs.OpcodeAt.{opcode_at, opcode_of};

use crate::number::past;
use crate::operands::operand_size;
use mt_dvi::opcode::POST_POST;

/// An opcode of a file.
#[derive(Clone, Copy, Debug, PartialEq, Eq)]
pub struct Opcode {
    /// Its number, at most 249.
    pub code: u8,
    /// The offset past its last operand; the bytes 223 after post_post are none of its operands.
    pub end: u64,
}

/// The opcode at an offset; none where the offset is not below the length, where the number is none of
/// an opcode, and where the bytes end inside the operands. Whether the opcode is allowed there is not
/// tested (tex.web §586).
pub fn opcode_at(bytes: &[u8], at: u64) -> Option<Opcode>
    ensures { result ≡ opcode_at bytes.now at }
{
    if at >= bytes.len() as u64 {
        return None;
    }
    opcode_of(past(bytes, at as usize), at)
}

// The opcode that these bytes begin with, the first of which is at this offset.
fn opcode_of(bytes: &[u8], at: u64) -> Option<Opcode>
    requires { at + length bytes.now < 2 ^ 63 }
    ensures { result ≡ opcode_of at bytes.now }
{
    let [code, ..] = bytes else {
        return None;
    };
    let rest = past(bytes, 1);
    let size = operand_size(*code, rest);
    if *code > POST_POST || rest.len() < size {
        return None;
    }
    Some(Opcode {
        code: *code,
        end: at + 1 + size as u64,
    })
}
