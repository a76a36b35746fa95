//! What names mean.
ghost use Rattle.std.specs.Prelude.{◌≡◌, ◌<◌, ◌≤◌, ◌-◌, IfSome, IsSome, length, take, drop};
ghost use Rattle.std.specs.Str.{bytes_eq};
ghost use Rattle.mt_plain.specs.Names.{control, name_length, row_name};
ghost use Rattle.mt_plain.specs.inner.Buckets.{AreBuckets, in_rows, rows_in, slot_count, slot_of, start_of};

use crate::meaning::Meaning;
use crate::meanings::{NameIndex, NameRow, SLOT_COUNT, name_index};
use mt_token::name_hash;

// Whether a row has this name.
fn is_row(row: &NameRow, name: &[u8]) -> bool
    ensures { result ≡ bytes_eq (row_name row.now) name.now }
{
    let mut bytes: &[u8] = &row.0;
    let mut left = name;
    while let [byte, rest @ ..] = bytes {
        if *byte == b' ' {
            return left.is_empty();
        }
        match left {
            [first, after @ ..] if *first == *byte => {
                bytes = rest;
                left = after;
            }
            _ => return false,
        }
    }
    left.is_empty()
}

// What rows have for a name.
fn in_rows(rows: &[NameRow], name: &[u8]) -> Option<Meaning>
    ensures { result ≡ in_rows rows.now name.now }
{
    for row in rows {
        if is_row(row, name) {
            return Some(row.1);
        }
    }
    None
}

// The slot of a name.
fn slot_of(name: &[u8]) -> usize
    ensures is { result ≡ slot_of name.now }
    ensures small { result < slot_count }
{
    name_hash(name) % SLOT_COUNT
}

// How many rows there are before those of a slot.
fn start_of(index: NameIndex, slot: usize) -> usize
    requires index { AreBuckets index.rows.now index.starts.now }
    requires slot { slot ≤ slot_count }
    ensures { result ≡ start_of index.starts.now slot }
{
    usize::from(index.starts[slot])
}

fn rows_between(rows: &'static [NameRow], from: usize, to: usize) -> &'static [NameRow]
    requires order { from ≤ to }
    requires within { to ≤ length rows.now }
    ensures { result.now ≡ take (to - from) (drop from rows.now) }
{
    &rows[from..to]
}

// The rows of a slot.
fn rows_in(index: NameIndex, slot: usize) -> &'static [NameRow]
    requires index { AreBuckets index.rows.now index.starts.now }
    requires slot { slot < slot_count }
    ensures { result.now ≡ rows_in index.rows.now index.starts.now slot }
{
    rows_between(index.rows, start_of(index, slot), start_of(index, slot + 1))
}

/// What a name means.
pub fn meaning_of(name: &[u8]) -> Option<Meaning>
    ensures { result ≡ control name.now }
{
    in_rows(rows_in(name_index(), slot_of(name)), name)
}

// How many bytes there are before the first blank.
fn name_length(bytes: &[u8]) -> usize
    ensures is { result ≡ name_length bytes.now }
    ensures within { result ≤ length bytes.now }
{
    let mut count = 0;
    for byte in bytes {
        if *byte == b' ' {
            return count;
        }
        count += 1;
    }
    count
}

// The name of a row.
fn row_name(row: &'static NameRow) -> &'static [u8]
    ensures { result.now ≡ row_name row.now }
{
    let bytes: &'static [u8] = &row.0;
    &bytes[..name_length(bytes)]
}

/// The names that mean something in a formula, by their indexes from 0, in an order of their own; `None` past the last
/// one.
pub fn meaning_name(index: usize) -> Option<&'static [u8]>
    ensures { IfSome result (λ name. IsSome (control name.now)) }
{
    match name_index().rows.get(index) {
        Some(row) => Some(row_name(row)),
        None => None,
    }
}
