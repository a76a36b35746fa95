//! What knows what items are in a formula.
ghost use Rattle.std.specs.Prelude.{◌≡◌, ◌<◌, true};
ghost use Rattle.mt_plain.specs.CodeTables.{CodeTables, delcode_of, is_delcode};
ghost use Rattle.mt_scan.specs.Role.{role_code, role_of};

use crate::role::{Role, role_of};
use mt_plain::Codes;
use mt_token::{Lexicon, Token};

/// What knows what items are in a formula.
pub trait Roles<T>: Lexicon<T> {
    /// The codes of characters.
    ghost codes: { Self → CodeTables };

    /// What an item is.
    fn role_of(&self, item: &T) -> Role
        ensures { result ≡ role_of (codes self.now) (Self.token self.now item.now) };

    /// The math code by which an item is set, if it is a character or a name with one.
    fn symbol_code(&self, item: &T) -> Option<u16>
        ensures { result ≡ role_code (role_of (codes self.now) (Self.token self.now item.now)) };

    /// The delimiter code of a character, if it has one.
    fn delcode(&self, c: u8) -> Option<u32>
        requires { c < 128 }
        ensures is { result ≡ delcode_of (codes self.now) c }
        ensures bound { is_delcode result ≡ true };
}

impl Roles<Token> for Codes {
    ghost codes = { λ c. c };

    #[inline]
    fn role_of(&self, item: &Token) -> Role {
        role_of(self, item)
    }

    #[inline]
    fn symbol_code(&self, item: &Token) -> Option<u16> {
        role_of(self, item).math_code()
    }

    #[inline]
    fn delcode(&self, c: u8) -> Option<u32> {
        Codes::delcode(self, c)
    }
}
