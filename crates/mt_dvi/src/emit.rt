//! The bytes of each operation that the writer uses.
ghost use Rattle.std.specs.Prelude.{◌≡◌, ◌<◌, ◌≤◌, ◌+◌, ◌++◌, OnOk, length, take, if◌then◌else◌};
ghost use Rattle.mt_dvi.specs.Codes.{Char, Rule, Set, Add, Select, Bop, Eop, Post, PostPost, signed_of};
ghost use Rattle.mt_dvi.specs.Moves.{least_size};
ghost use Rattle.mt_dvi.specs.writer.Emits.{Emits, AppendsSigned, FitsFourBytes, own_postamble, register_value, zero_code};
ghost use Rattle.mt_dvi.specs.WrittenPlaces.{page_counts};

use crate::encode;
use crate::opcode::{
    BOP, EOP, FNT_NUM_0, IDENTIFIER, POST, POST_POST, PUT_RULE, PUT1, SET_RULE, SET1, W_0, X_0,
    Y_0, Z_0,
};
use std::alloc::AllocError;

/// The magnification that the writer states, in thousandths.
pub const MAG: i32 = 1000;

// The number that the two's complement of x is in four bytes.
fn twos_complement(x: i64) -> u32
    requires { FitsFourBytes x }
    ensures is { signed_of 4 result ≡ x }
    ensures fits { result < 4294967296 }
{
    encode::twos_complement(x as i32)
}

// A signed number of four bytes.
fn push_signed(out: &mut Vec<u8>, x: i64) -> Result<(), AllocError>
    requires { FitsFourBytes x }
    ensures { OnOk result (AppendsSigned out.old.items out.new.items x) }
{
    encode::signed(out, x as i32)
}

/// The registers that hold amounts: w and x are added to h, y and z to v.
#[derive(Clone, Copy, Debug)]
pub enum Register {
    W,
    X,
    Y,
    Z,
}

// The opcode that moves by the amount of a register.
fn zero_opcode(register: Register) -> u8
    ensures { result ≡ zero_code (register_value register) }
{
    match register {
        Register::W => W_0,
        Register::X => X_0,
        Register::Y => Y_0,
        Register::Z => Z_0,
    }
}

// Puts bytes into a row from an offset on, and answers where they end.
fn put_bytes(row: &mut [u8], at: usize, bytes: &[u8]) -> usize
    requires { at + length bytes.now ≤ length row.now }
    ensures is { take result row.new ≡ take at row.old ++ bytes.now }
    ensures end { result ≡ at + length bytes.now }
    ensures long { length row.new ≡ length row.old }
{
    let end = at + bytes.len();
    row[at..end].copy_from_slice(bytes);
    end
}

/// w0 and the like: moves by the amount of a register.
pub fn add(row: &mut [u8], at: usize, register: Register) -> usize
    requires { at + 1 ≤ length row.now }
    ensures emits { Emits 1 (take at row.old) (take result row.new) (Add (register_value register)) }
    ensures end { result ≡ at + 1 }
    ensures long { length row.new ≡ length row.old }
{
    put_bytes(row, at, &[zero_opcode(register)])
}

/// w1 to w4 and the like: sets a register to an amount and moves by it. The size is the least number of
/// bytes that hold the amount.
pub fn set(row: &mut [u8], at: usize, register: Register, amount: i64, size: u8) -> usize
    requires fits { FitsFourBytes amount }
    requires size { size ≡ least_size amount }
    requires room { at + 5 ≤ length row.now }
    ensures emits { Emits 5 (take at row.old) (take result row.new) (Set (register_value register) amount) }
    ensures end { result ≤ at + 5 }
    ensures long { length row.new ≡ length row.old }
{
    let opcode = zero_opcode(register);
    let bytes = twos_complement(amount).to_be_bytes();
    match size {
        1 => put_bytes(row, at, &[opcode + size, bytes[3]]),
        2 => put_bytes(row, at, &[opcode + size, bytes[2], bytes[3]]),
        3 => put_bytes(row, at, &[opcode + size, bytes[1], bytes[2], bytes[3]]),
        _ => put_bytes(
            row,
            at,
            &[opcode + size, bytes[0], bytes[1], bytes[2], bytes[3]],
        ),
    }
}

/// fnt_num: selects the font of this number.
pub fn select(row: &mut [u8], at: usize, font: u8) -> usize
    requires font { font < 64 }
    requires room { at + 1 ≤ length row.now }
    ensures emits { Emits 1 (take at row.old) (take result row.new) (Select font) }
    ensures end { result ≡ at + 1 }
    ensures long { length row.new ≡ length row.old }
{
    put_bytes(row, at, &[FNT_NUM_0 + font])
}

/// Sets a character, or puts it.
pub fn char(row: &mut [u8], at: usize, put: bool, code: u8) -> usize
    requires { at + 2 ≤ length row.now }
    ensures emits { Emits 2 (take at row.old) (take result row.new) (Char put code) }
    ensures end { result ≤ at + 2 }
    ensures long { length row.new ≡ length row.old }
{
    if put {
        put_bytes(row, at, &[PUT1, code])
    } else if code < SET1 {
        put_bytes(row, at, &[code])
    } else {
        put_bytes(row, at, &[SET1, code])
    }
}

fn rule_opcode(put: bool) -> u8
    ensures { result ≡ (if put then 137 else 132) }
{
    if put { PUT_RULE } else { SET_RULE }
}

/// Sets a rule, or puts it.
pub fn rule(row: &mut [u8], at: usize, put: bool, height: i64, width: i64) -> usize
    requires height { FitsFourBytes height }
    requires width { FitsFourBytes width }
    requires room { at + 9 ≤ length row.now }
    ensures emits { Emits 9 (take at row.old) (take result row.new) (Rule put height width) }
    ensures end { result ≡ at + 9 }
    ensures long { length row.new ≡ length row.old }
{
    let at = put_bytes(row, at, &[rule_opcode(put)]);
    let at = put_bytes(row, at, &twos_complement(height).to_be_bytes());
    put_bytes(row, at, &twos_complement(width).to_be_bytes())
}

/// bop: begins the page of this number, which count 0 holds; the other counts are 0.
pub fn bop(out: &mut Vec<u8>, number: u32, before: i64) -> Result<(), AllocError>
    requires { FitsFourBytes before }
    ensures { OnOk result (Emits 45 out.old.items out.new.items (Bop (page_counts number) before)) }
{
    out.push(BOP)?;
    encode::four_bytes(out, number)?;
    out.extend_from_slice(&[0; 36])?;
    push_signed(out, before)?;
    Ok(())
}

/// eop: ends a page.
pub fn eop(out: &mut Vec<u8>) -> Result<(), AllocError>
    ensures { OnOk result (Emits 1 out.old.items out.new.items Eop) }
{
    out.push(EOP)?;
    Ok(())
}

/// post: the offset of the last bop, num, den and mag as in pre, the greatest edges, the depth 0, the
/// number of pages.
pub fn post(
    out: &mut Vec<u8>,
    last: i64,
    tallest: u32,
    widest: u32,
    pages: u16,
) -> Result<(), AllocError>
    requires { FitsFourBytes last }
    ensures { OnOk result (Emits 29 out.old.items out.new.items
        (Post (own_postamble last tallest widest pages))) }
{
    out.push(POST)?;
    push_signed(out, last)?;
    encode::scale(out, MAG)?;
    encode::four_bytes(out, tallest)?;
    encode::four_bytes(out, widest)?;
    out.extend_from_slice(&[0, 0, (pages / 256) as u8, (pages % 256) as u8])?;
    Ok(())
}

/// post_post: the offset of post.
pub fn post_post(out: &mut Vec<u8>, post: u32) -> Result<(), AllocError>
    ensures { OnOk result (Emits 6 out.old.items out.new.items (PostPost post 2)) }
{
    out.push(POST_POST)?;
    encode::four_bytes(out, post)?;
    out.push(IDENTIFIER)?;
    Ok(())
}
