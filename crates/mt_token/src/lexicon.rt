//! What knows which token an item of a list is read as.
ghost use Rattle.std.specs.Prelude.{◌≡◌, ◌<◌};
ghost use Rattle.mt_token.specs.declared.token.Token.{Token as TokenFields};
ghost use Rattle.mt_token.specs.Character.{character_code};
ghost use Rattle.mt_token.specs.Spaces.{is_space};
ghost use Rattle.mt_token.specs.LentKinds.{owned_kind};

use crate::lent::LentKind;

/// What knows which token an item is read as: tables that have the names of numbered tokens, or, for
/// tokens themselves, [`crate::OwnTokens`].
///
/// Code over lists of tokens is written once for each kind of item: it takes a slice `&[T]` and,
/// beside it, a `&L` with `L: Lexicon<T>`. Its clauses speak of the tokens of the slice, which are
/// `map (L.token tables.now) list.now`.
pub trait Lexicon<T> {
    /// The token that an item is read as.
    ghost token: { Self → T → TokenFields };

    /// What that token is, with its name lent.
    fn lent<'a>(&'a self, item: &'a T) -> LentKind<'a>
        ensures is { owned_kind result ≡ (token self.now item.now).kind }
        ensures ascii { character_code (owned_kind result) < 128 };

    /// The ASCII code of that token if it is a character, otherwise 0.
    fn code(&self, item: &T) -> u8
        ensures { result ≡ character_code (token self.now item.now).kind };

    /// Whether that token is a Space.
    fn is_space(&self, item: &T) -> bool
        ensures { result ≡ is_space (token self.now item.now) };
}
