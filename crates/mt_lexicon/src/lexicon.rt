//! Names as the lexicon of words.
ghost use Rattle.mt_lexicon.specs.Meaning.{token_of};

use crate::names::Names;
use crate::word::{Word, WordKind, name_number};
use mt_token::{LentKind, Lexicon};

impl Lexicon<Word> for Names {
    ghost token = { token_of };

    #[inline]
    fn lent<'a>(&'a self, item: &'a Word) -> LentKind<'a> {
        match item.kind {
            WordKind::Name(high, low) => match self.name(name_number(high, low)) {
                Some(name) => LentKind::Control(name),
                None => LentKind::Space,
            },
            WordKind::Char(c) => LentKind::Char(c),
            WordKind::Space => LentKind::Space,
        }
    }

    #[inline]
    fn code(&self, item: &Word) -> u8 {
        match item.kind {
            WordKind::Char(c) => c,
            _ => 0,
        }
    }

    #[inline]
    fn is_space(&self, item: &Word) -> bool {
        match item.kind {
            WordKind::Name(high, low) => name_number(high, low) >= self.len(),
            WordKind::Char(_) => false,
            WordKind::Space => true,
        }
    }
}
