//! The tables of a document over words.
use crate::document_tables::DocumentTables;
use mt_lexicon::Word;
use mt_macro::MacroError;
use mt_tables::Tables;

impl DocumentTables<Word> for Tables {
    ghost use Rattle.std.specs.Prelude.{refl};

    ghost names = { λ tables. tables.names };

    ghost unplaced = { λ _ _ _. refl };

    fn define(&mut self, name: &Word, params: u8, body: &[Word]) -> Result<(), MacroError> {
        Tables::define(self, *name, params, body)
    }

    fn set_math_code(&mut self, c: u8, code: u16) {
        Tables::set_math_code(self, c, code);
    }

    fn set_delcode(&mut self, c: u8, code: Option<u32>) {
        Tables::set_delcode(self, c, code);
    }
}
