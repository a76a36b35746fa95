//! How many bytes of operands an opcode has (tex.web §586).
ghost use Rattle.std.specs.Prelude.{◌≡◌, ◌≤◌};
ghost use Rattle.mt_dvi.specs.Codes.{operand_size, special_size, definition_size};

use crate::number::{byte, front, unsigned};
use mt_dvi::opcode::*;

/// How many bytes of operands an opcode has, from the bytes after it; a byte that is not there counts
/// as 0.
#[inline(always)]
#[tactic(auto, unfolding(mt_dvi::specs::Codes::operand_size))]
pub fn operand_size(opcode: u8, rest: &[u8]) -> usize
    ensures { result ≡ operand_size opcode rest.now }
{
    let code = usize::from(opcode);
    if opcode < SET1 {
        0
    } else if opcode < SET_RULE {
        code - 127
    } else if opcode == SET_RULE {
        8
    } else if opcode < PUT_RULE {
        code - 132
    } else if opcode == PUT_RULE {
        8
    } else if opcode == NOP {
        0
    } else if opcode == BOP {
        44
    } else if opcode < RIGHT1 {
        0
    } else if opcode < W_0 {
        code - 142
    } else if opcode < X_0 {
        code - 147
    } else if opcode < DOWN1 {
        code - 152
    } else if opcode < Y_0 {
        code - 156
    } else if opcode < Z_0 {
        code - 161
    } else if opcode < FNT_NUM_0 {
        code - 166
    } else if opcode < FNT1 {
        0
    } else if opcode < XXX1 {
        code - 234
    } else if opcode < FNT_DEF1 {
        special_size(code - 238, rest)
    } else if opcode < PRE {
        definition_size(code - 242, rest)
    } else if opcode == PRE {
        14 + byte(rest, 13)
    } else if opcode == POST {
        28
    } else if opcode == POST_POST {
        5
    } else {
        0
    }
}

// The length of a special in so many bytes, and as many bytes more.
fn special_size(count: usize, rest: &[u8]) -> usize
    requires { count ≤ 4 }
    ensures { result ≡ special_size count rest.now }
{
    count + unsigned(front(rest, count)) as usize
}

// A font's number in so many bytes, 14 bytes of which the last two are the lengths of two texts, and
// the texts.
fn definition_size(count: usize, rest: &[u8]) -> usize
    requires { count ≤ 4 }
    ensures { result ≡ definition_size count rest.now }
{
    count + 14 + byte(rest, count + 12) + byte(rest, count + 13)
}
