//! Tokens as items, each of which is read as itself.

use crate::character::{character_code, is_space};
use crate::lent::LentKind;
use crate::lexicon::Lexicon;
use crate::token::Token;

/// The lexicon of lists of tokens: each token is read as itself.
#[derive(Clone, Copy, Debug)]
pub struct OwnTokens;

impl Lexicon<Token> for OwnTokens {
    ghost token = { λ _ t. t };

    #[inline]
    fn lent<'a>(&'a self, item: &'a Token) -> LentKind<'a> {
        item.kind.lent()
    }

    #[inline]
    fn code(&self, item: &Token) -> u8 {
        character_code(item)
    }

    #[inline]
    fn is_space(&self, item: &Token) -> bool {
        is_space(item)
    }
}
