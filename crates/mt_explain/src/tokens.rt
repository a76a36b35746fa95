//! Tokens as they are written.
use crate::text::Text;
use mt_token::{Token, TokenKind};

/// Whether a token is written so.
pub fn is_written(token: &Token, text: &[u8]) -> bool {
    match (&token.kind, text) {
        (TokenKind::Control(name), [b'\\', rest @ ..]) => name.as_slice() == rest,
        (TokenKind::Char(code), [byte]) => code == byte,
        _ => false,
    }
}

/// Adds a token as it is written.
pub fn push_token(out: &mut Text, token: &Token) {
    match &token.kind {
        TokenKind::Control(name) => out.push_all(&[b"\\", name.as_slice()]),
        TokenKind::Char(code) => out.push(&[*code]),
        TokenKind::Space => out.push(b"a space"),
    }
}
