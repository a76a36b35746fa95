//! The macros that items name, by tables.
ghost use Rattle.std.specs.Prelude.{◌≡◌, ◌<◌, ◌≤◌, ◌^◌, ℕ, List, None, IfOk, MatchOption, length, map};
ghost use Rattle.std.specs.List.{list_any};
ghost use Rattle.mt_token.specs.declared.token.Token.{Token as TokenFields};
ghost use Rattle.mt_macro.specs.Table.{Table, macro_at};
ghost use Rattle.mt_macro.specs.Naming.{IsMacro, names_macro};
ghost use Rattle.mt_macro.specs.Origins.{put_as};

use mt_token::Lexicon;
use std::alloc::{AllocError, Global};

/// A macro that an item names.
#[derive(Clone, Copy, Debug)]
pub struct Found {
    /// The number of parameters.
    pub params: u8,
    /// The number of its body, by which the tables find the body again.
    pub body: usize,
}

/// The call of a macro, of whose body an item is put into a list.
#[derive(Drop)]
pub struct Call<'a, T> {
    /// The number of the body.
    pub body: usize,
    /// The item of the list given that calls the macro, or calls the macro in the body of which its
    /// call is, and so on.
    pub item: &'a T,
}

/// Tables that know which items name macros, and their bodies.
///
/// The numbers of bodies are the tables' own; they stay the same as long as the tables do.
pub trait Bodies<T>: Lexicon<T> {
    /// The macros by their names.
    ghost macros: { Self → Table };

    /// The tokens of the body with a number, in which `#` and a digit are a parameter.
    ghost body: { Self → ℕ → List TokenFields };

    /// A token of a body as it is put into a list, by the token that calls the macro.
    ghost placed: { Self → TokenFields → TokenFields → TokenFields };

    /// The macro that an item names.
    fn macro_at(&self, item: &T) -> Option<Found>
        ensures { MatchOption result (macro_at (macros self.now) (Self.token self.now item.now) ≡
            None)
            (λ found. IsMacro (macro_at (macros self.now) (Self.token self.now item.now))
            found.params
            (body self.now found.body)) };

    /// The items of the body with a number; none where no body has it.
    fn body(&self, number: usize) -> &[T]
        ensures is { map (Self.token self.now) result.now ≡ body self.now number }
        ensures short { length result.now ≤ 2 ^ 32 };

    /// The same item once more, as it is put into a list: an item of the list that is given, or of the
    /// body that is called.
    fn put(&self, alloc: Global, item: &T, call: &Option<Call<'_, T>>) -> Result<T, AllocError>
        ensures { IfOk result (λ other. Self.token self.now other
            ≡ put_as (Self.token self.now) (placed self.now) call.now item.now) };

    /// A token of a body is put as one of its kind.
    ghost kept: { (s : Self) (call t : TokenFields) → (placed s call t).kind ≡ t.kind };

    /// The call of a macro in a body puts tokens as the call of that body does.
    ghost nested: { (s : Self) (call inner t : TokenFields)
        → placed s (placed s call inner) t ≡ placed s call t };
}

/// Whether an item names a macro.
pub fn names_macro<T, B: Bodies<T>>(tables: &B, item: &T) -> bool
    ensures { result ≡ names_macro (B.macros tables.now) (B.token tables.now item.now) }
{
    tables.macro_at(item).is_some()
}

/// Whether an item of the list names a macro.
pub fn has_macro<T, B: Bodies<T>>(tables: &B, list: &[T]) -> bool
    ensures { result ≡ list_any (names_macro (B.macros tables.now))
        (map (B.token tables.now) list.now) }
{
    let mut rest = list;
    while let [item, after @ ..] = rest {
        if names_macro(tables, item) {
            return true;
        }
        rest = after;
    }
    false
}
