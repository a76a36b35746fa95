//! A hash of names, for tables of names.
ghost use Rattle.std.specs.Prelude.{◌≡◌, ◌<◌, ◌^◌, slice_index};
ghost use Rattle.mt_token.specs.NameHash.{name_hash};

// A byte of a name, 0 past its end.
fn byte_at(name: &[u8], index: usize) -> usize
    ensures is { result ≡ slice_index name.now index }
    ensures small { result < 256 }
{
    match name.get(index) {
        Some(byte) => usize::from(*byte),
        None => 0,
    }
}

/// A number below 2^16 for a name, by its first two bytes, its last one and its length; other names
/// may have the same.
///
/// A table of N slots has a name in the slot of this number modulo N. Where N is 512, most of plain
/// TeX's names for formulas have a slot of their own.
pub fn name_hash(name: &[u8]) -> usize
    ensures is { result ≡ name_hash name.now }
    ensures small { result < 2 ^ 16 }
{
    29 * byte_at(name, 0)
        + 3 * byte_at(name, 1)
        + 101 * byte_at(name, name.len().saturating_sub(1))
        + 67 * name.len().min(31)
}
