//! Tokens whose names are lent by the source, or by a list of tokens.
ghost use Rattle.std.specs.Prelude.{◌≡◌, ◌<◌, IfOk};
ghost use Rattle.mt_token.specs.Character.{character_code};
ghost use Rattle.mt_token.specs.LentKinds.{owned_kind};

use crate::token::{Token, TokenKind};
use mt_scaled::Name;
use std::alloc::{AllocError, Global};

/// What a token is, with its name lent. It takes no memory beside its own size.
#[derive(Clone, Copy, Debug)]
pub enum LentKind<'a> {
    /// A control word or a control symbol, by its name without the `\`; `par` at an empty line.
    Control(&'a [u8]),
    /// A character other than a blank, by its ASCII code.
    Char(u8),
    /// The space that a run of blanks, or the end of a line, gives.
    Space,
}

/// A token with its name lent, and the offsets in the source of its first byte and past its last one.
///
/// The code of a `Char` is below 128.
#[derive(Clone, Copy, Debug)]
pub struct LentToken<'a> {
    /// What the token is.
    pub kind: LentKind<'a>,
    /// The offset of its first byte.
    pub start: u32,
    /// The offset past its last byte.
    pub end: u32,
    ghost ascii: { character_code (owned_kind kind) < 128 },
}

impl<'a> LentKind<'a> {
    /// The same kind in memory of its own.
    pub fn owned(&self, alloc: Global) -> Result<TokenKind, AllocError>
        ensures { IfOk result (λ kind. kind ≡ owned_kind self.now) }
    {
        match self {
            LentKind::Control(name) => Ok(TokenKind::Control(Name::from_slice(alloc, name)?)),
            LentKind::Char(c) => Ok(TokenKind::Char(*c)),
            LentKind::Space => Ok(TokenKind::Space),
        }
    }
}

impl<'a> LentToken<'a> {
    ghost use Rattle.mt_token.specs.Lent.{owned_token};

    /// The same token in memory of its own.
    pub fn owned(&self, alloc: Global) -> Result<Token, AllocError>
        ensures { IfOk result (λ token. token ≡ owned_token self.now) }
    {
        let kind = self.kind.owned(alloc)?;
        Ok(Token {
            kind,
            start: self.start,
            end: self.end,
        })
    }
}
