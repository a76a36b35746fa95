//! Words: tokens without a place, and with the number of a name in place of the name.
ghost use Rattle.std.specs.Prelude.{◌≡◌, ◌<◌, ◌^◌};
ghost use Rattle.mt_lexicon.specs.Code.{word_code, name_number};

/// What a word is.
#[derive(Clone, Copy, Debug, PartialEq, Eq)]
pub enum WordKind {
    /// A control word or a control symbol, by the number of its name: how often it has 65,536, and
    /// the rest. So a word takes four bytes.
    Name(u8, u16),
    /// A character other than a blank, by its ASCII code.
    Char(u8),
    /// A Space.
    Space,
}

/// A token without its place in the source, and with the number of its name.
///
/// The code of a `Char` is below 128.
#[derive(Clone, Copy, Debug)]
pub struct Word {
    /// What the word is.
    pub kind: WordKind,
    ghost ascii: { word_code kind < 128 },
}

/// The number of a name, by its two parts in [`WordKind::Name`].
#[inline]
pub fn name_number(high: u8, low: u16) -> usize
    ensures { result ≡ name_number high low }
{
    usize::from(high) * 65_536 + usize::from(low)
}

impl Word {
    ghost use Rattle.mt_lexicon.specs.Code.{IsName};

    /// The word of the name with a number.
    #[inline]
    pub fn name(number: u32) -> Word
        requires { number < 2 ^ 24 }
        ensures { IsName result.kind number }
    {
        Word {
            kind: WordKind::Name((number / 65_536) as u8, (number % 65_536) as u16),
        }
    }

    /// The word of a character, by its ASCII code.
    #[inline]
    pub fn character(c: u8) -> Word
        requires { c < 128 }
        ensures { result.kind ≡ WordKind.Char c }
    {
        Word {
            kind: WordKind::Char(c),
        }
    }

    /// The word of a Space.
    #[inline]
    pub fn space() -> Word
        ensures { result.kind ≡ WordKind.Space }
    {
        Word {
            kind: WordKind::Space,
        }
    }
}
