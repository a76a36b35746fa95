//! Tokens, and why a source has none.
ghost use Rattle.std.specs.Prelude.{◌≡◌, ◌<◌, IfOk};
ghost use Rattle.mt_token.specs.declared.token.TokenError.TheVariants.{OutOfMemory};

use crate::lent::LentKind;
use mt_scaled::{Items, Name};
use std::alloc::{AllocError, Global};
use thiserror::Error;

/// What a token is.
#[derive(Debug, Drop)]
pub enum TokenKind {
    /// A control word or a control symbol, by its name without the `\`; `par` at an empty line.
    Control(Name),
    /// A character other than a blank, by its ASCII code.
    Char(u8),
    /// The space that a run of blanks, or the end of a line, gives.
    Space,
}

/// A token, with the offsets in the source of its first byte and past its last one.
///
/// The code of a `Char` is below 128.
#[derive(Debug, Drop)]
pub struct Token {
    /// What the token is.
    pub kind: TokenKind,
    /// The offset of its first byte.
    pub start: u32,
    /// The offset past its last byte.
    pub end: u32,
    ghost ascii: { character_code kind < 128 },
}

ghost use Rattle.mt_token.specs.Character.{character_code};

/// A list of tokens.
pub type TokenList = Items<Token>;

/// Why a source has no tokens. The offset is that of the first byte at fault, counted from 0.
#[derive(Clone, Copy, Debug, PartialEq, Eq, Error)]
pub enum TokenError {
    /// A byte above 127 outside a comment.
    #[error("byte {0} is not ASCII")]
    NotAscii(u32),
    /// Another byte that is not allowed there.
    #[error("byte {0} is not allowed there")]
    BadByte(u32),
    /// The source has more than [`crate::MAX_SOURCE`] bytes.
    #[error("the source is too long")]
    TooLong,
    /// Memory ran out.
    #[error("out of memory")]
    OutOfMemory,
}

/// Why a byte of a source is refused.
#[derive(Clone, Copy, Debug, PartialEq, Eq)]
pub enum ByteCause {
    /// It is above 127, outside a comment.
    NotAscii,
    /// It is not allowed there.
    BadByte,
}

impl ByteCause {
    ghost use Rattle.std.specs.Prelude.{◌≡◌};
    ghost use Rattle.mt_token.specs.Errors.{IsByteError, byte_error};

    /// The error of this cause at the byte of an offset.
    pub fn at(self, offset: u32) -> TokenError
        ensures is { result ≡ byte_error self offset }
        ensures byte { IsByteError result }
    {
        match self {
            ByteCause::NotAscii => TokenError::NotAscii(offset),
            ByteCause::BadByte => TokenError::BadByte(offset),
        }
    }
}

impl From<AllocError> for TokenError {
    ghost from_gives = { λ _ e. e ≡ OutOfMemory };

    fn from(_: AllocError) -> Self {
        TokenError::OutOfMemory
    }
}

impl TokenError {
    ghost use Rattle.mt_token.specs.Errors.{token_error_number, token_error_place};

    /// The number of the error, from 1 in the order of the variants.
    pub fn number(self) -> u8
        ensures { result ≡ token_error_number self }
    {
        match self {
            TokenError::NotAscii(_) => 1,
            TokenError::BadByte(_) => 2,
            TokenError::TooLong => 3,
            TokenError::OutOfMemory => 4,
        }
    }

    /// The offset of the byte at fault, where there is one.
    pub fn place(self) -> Option<u32>
        ensures { result ≡ token_error_place self }
    {
        match self {
            TokenError::NotAscii(offset) | TokenError::BadByte(offset) => Some(offset),
            TokenError::TooLong | TokenError::OutOfMemory => None,
        }
    }
}

ghost use Rattle.mt_scaled.specs.Meanings.{IsLine, cause_text};
ghost use Rattle.mt_token.specs.Errors.{byte_causes};

/// What the error of a byte with a number means, in a line for a person. Other numbers have an empty
/// text.
pub fn byte_cause_text(cause: u8) -> &'static str
    ensures is { result.now ≡ cause_text byte_causes cause }
    ensures line { IsLine result.now }
{
    match cause {
        1 => "only comments can have characters that are not ASCII",
        2 => "this character is not allowed here",
        _ => "",
    }
}

impl TokenKind {
    ghost use Rattle.std.specs.Option.{option_copied};
    ghost use Rattle.mt_token.specs.Character.{name_of};
    ghost use Rattle.mt_token.specs.LentKinds.{owned_kind};

    /// The name of a control sequence; `None` for another token.
    pub fn name(&self) -> Option<&Name>
        ensures { option_copied result ≡ name_of self.now }
    {
        match self {
            TokenKind::Control(name) => Some(name),
            TokenKind::Char(_) | TokenKind::Space => None,
        }
    }

    /// The same kind, with its name lent.
    pub fn lent<'a>(&'a self) -> LentKind<'a>
        ensures { owned_kind result ≡ self.now }
    {
        match self {
            TokenKind::Control(name) => LentKind::Control(name.as_slice()),
            TokenKind::Char(c) => LentKind::Char(*c),
            TokenKind::Space => LentKind::Space,
        }
    }

    /// The same kind once more, in memory of its own.
    pub fn copied(&self, alloc: Global) -> Result<TokenKind, AllocError>
        ensures { IfOk result (λ kind. kind ≡ self.now) }
    {
        self.lent().owned(alloc)
    }
}

impl Token {
    /// The same token once more, in memory of its own.
    pub fn copied(&self, alloc: Global) -> Result<Token, AllocError>
        ensures { IfOk result (λ token. token ≡ self.now) }
    {
        Ok(Token {
            kind: self.kind.copied(alloc)?,
            start: self.start,
            end: self.end,
        })
    }
}
