//! A cursor over a source, which gives its tokens one after another.
ghost use Rattle.std.specs.Prelude.{◌≡◌, ◌≤◌, length, drop};
ghost use Rattle.mt_token.specs.Tokens.{max_source};

use crate::lent::LentToken;
use crate::lexeme::{LentLexeme, State, next_lexeme};
use crate::plain_bytes::plain_in_front;
use crate::token::TokenError;

/// How far a source is read, token by token, in memory of a fixed size.
///
/// A copy of it reads the same tokens once more.
#[derive(Clone, Copy, Debug)]
pub struct Lexer<'a> {
    bytes: &'a [u8],
    at: usize,
    state: State,
    ghost within: { at ≤ length bytes.now },
    ghost short: { length bytes.now ≤ max_source },
}

// The bytes from an offset on.
fn rest_from<'a>(bytes: &'a [u8], at: usize) -> &'a [u8]
    requires { at ≤ length bytes.now }
    ensures { result.now ≡ drop at bytes.now }
{
    &bytes[at..]
}

impl<'a> Lexer<'a> {
    ghost use Rattle.mt_token.specs.Tokens.{lex};
    ghost use Rattle.mt_token.specs.declared.lexeme.State.TheVariants.{New};
    ghost use Rattle.mt_token.specs.Ahead.{ahead, offset, source};
    ghost use Rattle.mt_token.specs.Lent.{Steps, Spans, IsOfByte};
    ghost use Rattle.mt_token.specs.Plain.{plain_in_front, StepsPlain};

    /// A cursor at the beginning of a source, which has at most [`crate::MAX_SOURCE`] bytes.
    pub fn new(bytes: &'a [u8]) -> Lexer<'a>
        requires { length bytes.now ≤ max_source }
        ensures is { ahead result ≡ lex New 0 0 bytes.now }
        ensures start { offset result ≡ 0 }
        ensures bytes { source result ≡ bytes.now }
    {
        Lexer {
            bytes,
            at: 0,
            state: State::New,
        }
    }

    /// How many bytes are read, which is the offset past the last byte of the token read last.
    ///
    /// At the end bytes after the last token that belong to none are counted too.
    pub fn offset(&self) -> usize
        ensures is { result ≡ offset self.now }
        ensures within { result ≤ length (source self.now) }
    {
        self.at
    }

    /// Reads the next token if it is a plain character, which is one that begins at the offset and
    /// stands for itself in every state of the reader: a visible byte other than `%`, `\`, `~`, and
    /// `^` before another one.
    ///
    /// It gives the character's ASCII code, below 128. `None` where the next byte is another one, and
    /// at the end of the source; nothing is read then.
    #[inline]
    pub fn plain_character(&mut self) -> Option<u8>
        ensures is { StepsPlain result (ahead self.old) (offset self.old) (ahead self.new)
            (offset self.new) }
        ensures front { result ≡ plain_in_front (drop (offset self.old) (source self.old)) }
        ensures bytes { source self.new ≡ source self.old }
    {
        let c = plain_in_front(rest_from(self.bytes, self.at))?;
        self.at += 1;
        self.state = State::Middle;
        Some(c)
    }

    /// Reads the next token; `None` at the end of the source, and from then on.
    ///
    /// # Errors
    ///
    /// `NotAscii` or `BadByte` with the offset of the first byte at fault, as [`crate::tokens`]
    /// reports it. The fault is then ahead still, and each further step reports it again.
    #[inline(always)]
    pub fn step(&mut self) -> Result<Option<LentToken<'a>>, TokenError>
        ensures is { Steps result (ahead self.old) (ahead self.new) }
        ensures spans { Spans result (offset self.old) (offset self.new) }
        ensures byte { IsOfByte result }
        ensures bytes { source self.new ≡ source self.old }
    {
        while self.at < self.bytes.len() {
            match next_lexeme(self.state, rest_from(self.bytes, self.at)) {
                LentLexeme::Passed(count, next) => {
                    self.at += count;
                    self.state = next;
                }
                LentLexeme::Made(kind, count, next) => {
                    let start = self.at as u32;
                    self.at += count;
                    self.state = next;
                    return Ok(Some(LentToken {
                        kind,
                        start,
                        end: self.at as u32,
                    }));
                }
                LentLexeme::AtFault(cause, on) => return Err(cause.at((self.at + on) as u32)),
            }
        }
        Ok(None)
    }
}
