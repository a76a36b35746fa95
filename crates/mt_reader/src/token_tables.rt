//! The tables of a document over tokens, each of which is read as itself.
ghost use Rattle.std.specs.Prelude.{◌≡◌, IfOk};
ghost use Rattle.mt_plain.specs.CodeTables.{plain_codes};
ghost use Rattle.mt_plain.specs.PlainMacros.{plain_table};

use crate::document_tables::DocumentTables;
use mt_macro::{Bodies, Call, Found, MacroError, Macros};
use mt_plain::{CodeError, Codes, plain_macros};
use mt_scan::{Role, Roles};
use mt_token::{LentKind, Lexicon, OwnTokens, Token, TokenKind};
use std::alloc::{AllocError, Global};

/// The codes of characters and the macros of a document.
#[derive(Drop)]
pub struct TokenTables {
    /// The codes of characters, and the meanings of names.
    pub codes: Codes,
    /// The macros by their names.
    pub macros: Macros,
}

impl TokenTables {
    /// Those of plain TeX.
    ///
    /// # Errors
    ///
    /// `OutOfMemory` where memory ran out.
    pub fn plain(alloc: Global) -> Result<TokenTables, CodeError>
        ensures codes { IfOk result (λ tables. tables.codes ≡ plain_codes) }
        ensures macros { IfOk result (λ tables. tables.macros ≡ plain_table) }
    {
        let codes = Codes::plain(alloc)?;
        let macros = plain_macros(alloc)?;
        Ok(TokenTables { codes, macros })
    }
}

impl Lexicon<Token> for TokenTables {
    ghost token = { λ _ t. t };

    #[inline]
    fn lent<'a>(&'a self, item: &'a Token) -> LentKind<'a> {
        OwnTokens.lent(item)
    }

    #[inline]
    fn code(&self, item: &Token) -> u8 {
        OwnTokens.code(item)
    }

    #[inline]
    fn is_space(&self, item: &Token) -> bool {
        OwnTokens.is_space(item)
    }
}

impl Roles<Token> for TokenTables {
    ghost codes = { λ tables. tables.codes };

    #[inline]
    fn role_of(&self, item: &Token) -> Role {
        self.codes.role_of(item)
    }

    #[inline]
    fn symbol_code(&self, item: &Token) -> Option<u16> {
        self.codes.symbol_code(item)
    }

    #[inline]
    fn delcode(&self, c: u8) -> Option<u32> {
        self.codes.delcode(c)
    }
}

impl Bodies<Token> for TokenTables {
    ghost use Rattle.std.specs.Prelude.{refl};
    ghost use Rattle.mt_macro.specs.inner.Entries.{body_at};

    ghost macros = { λ tables. tables.macros };

    ghost body = { λ tables n. body_at tables.macros n };

    ghost placed = { λ _ _ t. t };

    ghost kept = { λ _ _ _. refl };

    ghost nested = { λ _ _ _ _. refl };

    #[inline]
    fn macro_at(&self, item: &Token) -> Option<Found> {
        self.macros.macro_at(item)
    }

    #[inline]
    fn body(&self, number: usize) -> &[Token] {
        self.macros.body(number)
    }

    #[inline]
    fn put(
        &self,
        alloc: Global,
        item: &Token,
        call: &Option<Call<'_, Token>>,
    ) -> Result<Token, AllocError> {
        self.macros.put(alloc, item, call)
    }
}

impl DocumentTables<Token> for TokenTables {
    ghost use Rattle.std.specs.Prelude.{[], refl};

    ghost names = { λ _. [] };

    ghost unplaced = { λ _ _ _. refl };

    fn define(&mut self, name: &Token, params: u8, body: &[Token]) -> Result<(), MacroError> {
        match &name.kind {
            TokenKind::Control(name) => self.macros.define(name, params, body),
            _ => unreachable!(),
        }
    }

    fn set_math_code(&mut self, c: u8, code: u16) {
        self.codes.set_math_code(c, code);
    }

    fn set_delcode(&mut self, c: u8, code: Option<u32>) {
        self.codes.set_delcode(c, code);
    }
}
