//! Numbers in the bytes of a file.
ghost use Rattle.std.specs.Prelude.{◌≡◌, ◌<◌, ◌≤◌, ◌+◌, ◌*◌, ◌^◌, ◌-ℤ◌, ◌<ℤ◌, ◌≤ℤ◌, pos, int_lt, length};
ghost use Rattle.std.specs.Prelude.{take, drop, get_or, if◌then◌else◌};
ghost use Rattle.mt_dvi.specs.Codes.{unsigned, signed, bytes_from};

use byteorder::{BigEndian, ByteOrder};

/// The bytes from the front, so many or as many as there are.
#[inline(always)]
pub fn front(bytes: &[u8], count: usize) -> &[u8]
    ensures is { result.now ≡ take count bytes.now }
    ensures long { length result.now ≤ count }
    ensures whole { count ≤ length bytes.now → length result.now ≡ count }
{
    if count < bytes.len() {
        &bytes[..count]
    } else {
        bytes
    }
}

/// The bytes from a place on.
#[inline(always)]
pub fn past(bytes: &[u8], from: usize) -> &[u8]
    requires { from ≤ length bytes.now }
    ensures is { result.now ≡ drop from bytes.now }
    ensures long { from + length result.now ≡ length bytes.now }
{
    &bytes[from..]
}

/// So many bytes from a place on.
pub fn bytes_from(bytes: &[u8], from: usize, count: usize) -> &[u8]
    requires { from + count ≤ length bytes.now }
    ensures is { result.now ≡ bytes_from from count bytes.now }
    ensures long { length result.now ≡ count }
{
    front(past(bytes, from), count)
}

/// The number in at most four bytes, big-endian; 0 in none.
#[tactic(auto, using(crate::proofs::Numbers::unsigned_0, crate::proofs::Numbers::unsigned_1, crate::proofs::Numbers::unsigned_2, crate::proofs::Numbers::unsigned_3, crate::proofs::Numbers::unsigned_4))]
pub fn unsigned(bytes: &[u8]) -> u32
    requires { length bytes.now ≤ 4 }
    ensures { result ≡ unsigned bytes.now }
{
    match bytes.len() {
        0 => 0,
        1 => u32::from(bytes[0]),
        2 => u32::from(BigEndian::read_u16(bytes)),
        3 => BigEndian::read_u24(bytes),
        _ => BigEndian::read_u32(bytes),
    }
}

/// The signed number in one to four bytes, in two's complement.
#[inline(always)]
#[tactic(auto, using(crate::proofs::Numbers::signed_1, crate::proofs::Numbers::signed_2, crate::proofs::Numbers::signed_3, crate::proofs::Numbers::signed_4))]
pub fn signed(bytes: &[u8]) -> i32
    requires least { 1 ≤ length bytes.now }
    requires most { length bytes.now ≤ 4 }
    ensures { result ≡ signed bytes.now }
{
    match bytes.len() {
        1 => wrapped(u32::from(bytes[0]), 256),
        2 => wrapped(u32::from(BigEndian::read_u16(bytes)), 65_536),
        3 => wrapped(BigEndian::read_u24(bytes), 16_777_216),
        _ => wrapped(BigEndian::read_u32(bytes), 4_294_967_296),
    }
}

// The number less the modulus where it is at least half of it.
#[inline(always)]
fn wrapped(x: u32, modulus: i64) -> i32
    requires below { pos x <ℤ modulus }
    requires small { modulus ≤ℤ pos 4294967296 }
    ensures { result ≡ (if int_lt (pos (2 * x)) modulus then pos x else pos x -ℤ modulus) }
{
    let x = i64::from(x);
    let wrapped = if 2 * x < modulus { x } else { x - modulus };
    wrapped as i32
}

/// A byte, or 0 where there is none.
pub fn byte(bytes: &[u8], at: usize) -> usize
    ensures is { result ≡ get_or bytes.now at 0 }
    ensures small { result < 256 }
{
    match bytes.get(at) {
        Some(byte) => usize::from(*byte),
        None => 0,
    }
}
