//! Codes as the lexicon of tokens, by which each token is read as itself.
use crate::codes::Codes;
use mt_token::{LentKind, Lexicon, OwnTokens, Token};

impl Lexicon<Token> for Codes {
    ghost token = { λ _ t. t };

    #[inline]
    fn lent<'a>(&'a self, item: &'a Token) -> LentKind<'a> {
        OwnTokens.lent(item)
    }

    #[inline]
    fn code(&self, item: &Token) -> u8 {
        OwnTokens.code(item)
    }

    #[inline]
    fn is_space(&self, item: &Token) -> bool {
        OwnTokens.is_space(item)
    }
}
