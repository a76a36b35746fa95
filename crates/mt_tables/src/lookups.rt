//! Tables as the lexicon of words, and what words are in a formula and as macros.
ghost use Rattle.mt_tables.specs.Held.{held_token, body_numbered};

use crate::kept::{body_items, kept_at};
use crate::name_roles::role_numbered;
use crate::tables::Tables;
use mt_lexicon::{Word, WordKind, name_number};
use mt_macro::{Bodies, Call, Found};
use mt_scan::{Role, Roles, character_role};
use mt_token::{LentKind, Lexicon};
use std::alloc::{AllocError, Global};

impl Lexicon<Word> for Tables {
    ghost token = { held_token };

    #[inline]
    fn lent<'a>(&'a self, item: &'a Word) -> LentKind<'a> {
        self.names.lent(item)
    }

    #[inline]
    fn code(&self, item: &Word) -> u8 {
        self.names.code(item)
    }

    #[inline]
    fn is_space(&self, item: &Word) -> bool {
        self.names.is_space(item)
    }
}

impl Roles<Word> for Tables {
    ghost codes = { λ h. h.codes };

    #[inline]
    fn role_of(&self, item: &Word) -> Role {
        match item.kind {
            WordKind::Name(high, low) => role_numbered(
                &self.codes,
                &self.names,
                self.roles.as_slice(),
                name_number(high, low),
            ),
            WordKind::Char(c) => character_role(&self.codes, c),
            WordKind::Space => Role::Blank,
        }
    }

    #[inline]
    fn symbol_code(&self, item: &Word) -> Option<u16> {
        match item.kind {
            WordKind::Name(high, low) => role_numbered(
                &self.codes,
                &self.names,
                self.roles.as_slice(),
                name_number(high, low),
            )
            .math_code(),
            WordKind::Char(c) => character_role(&self.codes, c).math_code(),
            WordKind::Space => None,
        }
    }

    #[inline]
    fn delcode(&self, c: u8) -> Option<u32> {
        self.codes.delcode(c)
    }
}

impl Bodies<Word> for Tables {
    ghost use Rattle.std.specs.Prelude.{refl};

    ghost macros = { λ h. h.macros };

    ghost body = { body_numbered };

    ghost placed = { λ _ _ t. t };

    ghost kept = { λ _ _ _. refl };

    ghost nested = { λ _ _ _ _. refl };

    #[inline]
    fn macro_at(&self, item: &Word) -> Option<Found> {
        match item.kind {
            WordKind::Name(high, low) => self.macro_numbered(name_number(high, low)),
            _ => None,
        }
    }

    #[inline]
    fn body(&self, number: usize) -> &[Word] {
        body_items(self.macros.kept.as_slice(), number)
    }

    #[inline]
    fn put(&self, _: Global, item: &Word, _: &Option<Call<'_, Word>>) -> Result<Word, AllocError> {
        Ok(*item)
    }
}

impl Tables {
    ghost use Rattle.std.specs.Prelude.{◌≡◌, None, MatchOption};
    ghost use Rattle.mt_macro.specs.Naming.{IsMacro};
    ghost use Rattle.mt_tables.specs.Held.{macro_numbered};

    // The macro of the name with a number. The number of its body is that of its name.
    #[inline]
    fn macro_numbered(&self, number: usize) -> Option<Found>
        ensures { MatchOption result (macro_numbered self.now number ≡ None)
            (λ found. IsMacro (macro_numbered self.now number) found.params
            (body_numbered self.now found.body)) }
    {
        match kept_at(self.macros.kept.as_slice(), number) {
            Some(found) => Some(Found {
                params: found.params,
                body: number,
            }),
            None => None,
        }
    }
}
