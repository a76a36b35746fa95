//! The tokens of a source, which is bytes.
//!
//! The rules are those of The TeXbook, chapter 8, and of tex.web part 24 (§§343 to 356), with plain
//! TeX's category codes. What this crate refuses is listed in docs/RULES.md.
#![tactic(auto)]

mod cause;
mod character;
mod cursor;
mod hash;
mod laws;
mod lent;
mod lexeme;
mod lexer;
mod lexicon;
mod own_tokens;
mod plain_bytes;
mod token;

pub use cause::FIRST_OUTSIDE_CAUSE;
pub use character::{character_code, is_space};
pub use cursor::Lexer;
pub use hash::name_hash;
pub use laws::tokens_of_lines_do_not_depend_on_the_rest;
pub use lent::{LentKind, LentToken};
pub use lexer::{MAX_SOURCE, first_fault, tokens};
pub use lexicon::Lexicon;
pub use own_tokens::OwnTokens;
pub use token::{ByteCause, Token, TokenError, TokenKind, TokenList, byte_cause_text};
