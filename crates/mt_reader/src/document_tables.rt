//! What the definitions and assignments of a document change.
ghost use Rattle.std.specs.Prelude.{◌≡◌, ◌<◌, ◌≤◌, ◌^◌, OnErr, true, length, map};
ghost use Rattle.mt_lexicon.specs.Meaning.{NameTable};
ghost use Rattle.mt_macro.specs.Definition.{Answers, define};
ghost use Rattle.mt_plain.specs.CodeTables.{is_delcode, with_delcode, with_math_code};
ghost use Rattle.mt_plain.specs.Limits.{max_math_code};
ghost use Rattle.mt_token.specs.declared.token.Token.{Token as TokenFields};
ghost use Rattle.mt_reader.specs.Naming.{control_name, is_control};

use mt_macro::{Bodies, MacroError};
use mt_scan::Roles;

/// The tables of a document over items that are read as tokens: the codes of characters and the macros. These calls do
/// not change what an item is read as, nor the names.
pub trait DocumentTables<T>: Roles<T> + Bodies<T> {
    /// The names by which items are read, if they are read by numbers of names.
    ghost names: { Self → NameTable };

    /// Defines a macro of the user's (The TeXbook, chapter 20), by the item that is its name, its number of parameters
    /// and its body. A macro that the name had is replaced.
    ///
    /// # Errors
    ///
    /// Those of [`mt_macro::Macros::define`].
    fn define(&mut self, name: &T, params: u8, body: &[T]) -> Result<(), MacroError>
        requires name { is_control (Self.token self.old name.now).kind ≡ true }
        requires short { length body.now ≤ 2 ^ 32 }
        ensures is { Answers result (Self.macros self.new) (define (Self.macros self.old)
            (control_name (Self.token self.old name.now).kind) params
            (map (Self.token self.old) body.now)) }
        ensures err { OnErr result (Self.macros self.new ≡ Self.macros self.old) }
        ensures codes { Self.codes self.new ≡ Self.codes self.old }
        ensures tokens { Self.token self.new ≡ Self.token self.old }
        ensures names { names self.new ≡ names self.old };

    /// Gives a character another math code (The TeXbook, chapter 17).
    fn set_math_code(&mut self, c: u8, code: u16)
        requires character { c < 128 }
        requires code { code ≤ max_math_code }
        ensures is { Self.codes self.new ≡ with_math_code (Self.codes self.old) c code }
        ensures macros { Self.macros self.new ≡ Self.macros self.old }
        ensures tokens { Self.token self.new ≡ Self.token self.old }
        ensures names { names self.new ≡ names self.old };

    /// Gives a character another delimiter code, or none (The TeXbook, chapter 17).
    fn set_delcode(&mut self, c: u8, code: Option<u32>)
        requires character { c < 128 }
        requires code { is_delcode code ≡ true }
        ensures is { Self.codes self.new ≡ with_delcode (Self.codes self.old) c code }
        ensures macros { Self.macros self.new ≡ Self.macros self.old }
        ensures tokens { Self.token self.new ≡ Self.token self.old }
        ensures names { names self.new ≡ names self.old };

    /// A token of a body is put where its macro is called as it is.
    ghost unplaced: { (s : Self) (call t : TokenFields) → Self.placed s call t ≡ t };
}
