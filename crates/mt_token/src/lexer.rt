//! The tokens of a whole source.
ghost use Rattle.std.specs.Prelude.{◌≡◌, ◌<◌, ◌≤◌, ◌↔◌, ◌++◌, ◌∷◌, [], length, IfOk, OnOk, Err};
ghost use Rattle.mt_token.specs.declared.token.TokenError.TheVariants.{TooLong};
ghost use Rattle.mt_token.specs.Tokens.{max_source, source_tokens, fault_of, Lexes, SpansInOrder, IsUnique};

use crate::cursor::Lexer;
use crate::token::{Token, TokenError, TokenList};
use std::alloc::{AllocError, Global};

/// The greatest number of bytes of a source.
pub const MAX_SOURCE: usize = 4_194_304;

fn push_token(list: &mut Vec<Token>, token: Token) -> Result<(), AllocError>
    ensures { OnOk result (list.new.items ≡ list.old.items ++ token ∷ []) }
{
    list.push(token)?;
    Ok(())
}

/// The tokens of a source, in order, each with the offsets of its first byte and past its last one.
///
/// Bytes that are skipped (blanks, comments) belong to no token.
///
/// # Errors
///
/// `TooLong` exactly above [`MAX_SOURCE`] bytes. Otherwise `NotAscii` or `BadByte` with the offset
/// of the first byte at fault: `NotAscii` at a byte above 127 outside a comment, `BadByte` at any
/// other byte that no token begins with, at a `\` that nothing, a blank or a line end follows, and at
/// the second `^` of `^^`. `OutOfMemory` where memory ran out.
pub fn tokens(alloc: Global, bytes: &[u8]) -> Result<TokenList, TokenError>
    ensures is { Lexes result (source_tokens bytes.now) }
    ensures too_long { (result ≡ Err TooLong) ↔ (max_source < length bytes.now) }
    ensures ordered { IfOk result (λ list. SpansInOrder 0 list (length bytes.now)) }
    ensures unique { IfOk result (IsUnique (source_tokens bytes.now)) }
{
    if bytes.len() > MAX_SOURCE {
        return Err(TokenError::TooLong);
    }
    let mut list = Vec::new(alloc);
    let mut lexer = Lexer::new(bytes);
    loop {
        match lexer.step() {
            Ok(Some(token)) => push_token(&mut list, token.owned(alloc)?)?,
            Ok(None) => return Ok(TokenList::from_vec(list)),
            Err(fault) => return Err(fault),
        }
    }
}

/// The fault for which [`tokens`] refuses a source; `None` where it has tokens. It takes no memory.
///
/// It is `TooLong` above [`MAX_SOURCE`] bytes, otherwise `NotAscii` or `BadByte` with the offset of
/// the first byte at fault, and never `OutOfMemory`.
pub fn first_fault(bytes: &[u8]) -> Option<TokenError>
    ensures { result ≡ fault_of (source_tokens bytes.now) }
{
    if bytes.len() > MAX_SOURCE {
        return Some(TokenError::TooLong);
    }
    let mut lexer = Lexer::new(bytes);
    loop {
        match lexer.step() {
            Ok(Some(_)) => {}
            Ok(None) => return None,
            Err(fault) => return Some(fault),
        }
    }
}
