//! The plain character in front of a rest of a source.
ghost use Rattle.std.specs.Prelude.{◌≡◌, map};
ghost use Rattle.std.specs.List.{range_with_len};
ghost use Rattle.mt_token.specs.Plain.{is_plain, plain_in_front};

/// Whether a byte is a character whatever follows it, sixteen bytes to a line.
#[rattlefmt::skip]
static PLAIN_BYTES: [bool; 256] = [
    false, false, false, false, false, false, false, false, false, false, false, false, false, false, false, false,
    false, false, false, false, false, false, false, false, false, false, false, false, false, false, false, false,
    false, true, true, true, true, false, true, true, true, true, true, true, true, true, true, true,
    true, true, true, true, true, true, true, true, true, true, true, true, true, true, true, true,
    true, true, true, true, true, true, true, true, true, true, true, true, true, true, true, true,
    true, true, true, true, true, true, true, true, true, true, true, true, false, true, false, true,
    true, true, true, true, true, true, true, true, true, true, true, true, true, true, true, true,
    true, true, true, true, true, true, true, true, true, true, true, true, true, true, false, false,
    false, false, false, false, false, false, false, false, false, false, false, false, false, false, false, false,
    false, false, false, false, false, false, false, false, false, false, false, false, false, false, false, false,
    false, false, false, false, false, false, false, false, false, false, false, false, false, false, false, false,
    false, false, false, false, false, false, false, false, false, false, false, false, false, false, false, false,
    false, false, false, false, false, false, false, false, false, false, false, false, false, false, false, false,
    false, false, false, false, false, false, false, false, false, false, false, false, false, false, false, false,
    false, false, false, false, false, false, false, false, false, false, false, false, false, false, false, false,
    false, false, false, false, false, false, false, false, false, false, false, false, false, false, false, false,
];

#[inline]
fn plain_bytes() -> &'static [bool]
    ensures { result.now ≡ map is_plain (range_with_len 0 256) }
{
    &PLAIN_BYTES
}

#[inline]
fn is_plain(b: u8) -> bool
    ensures { result ≡ is_plain b }
{
    plain_bytes()[usize::from(b)]
}

/// The plain character in front of a rest, if one is there: a byte that is a character in every
/// state. A `^` before another one is none.
#[inline]
pub fn plain_in_front(rest: &[u8]) -> Option<u8>
    ensures { result ≡ plain_in_front rest.now }
{
    match rest {
        [b, ..] if is_plain(*b) => Some(*b),
        [b'^', b'^', ..] => None,
        [b'^', ..] => Some(b'^'),
        _ => None,
    }
}
