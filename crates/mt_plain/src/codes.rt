//! The codes of characters and names.
ghost use Rattle.std.specs.Prelude.{◌≡◌, ◌<◌, ◌≤◌, true, IfOk};
ghost use Rattle.mt_plain.specs.CodeTables.{plain_codes, math_code_of, delcode_of, with_math_code};
ghost use Rattle.mt_plain.specs.CodeTables.{with_delcode, is_delcode, ChangesMathCode, ChangesDelcode};
ghost use Rattle.mt_plain.specs.Limits.{max_math_code};
ghost use Rattle.mt_plain.specs.Names.{control};

use crate::characters::{delcodes, math_codes};
use crate::error::CodeError;
use crate::meaning::Meaning;
use crate::names::meaning_of;
use std::alloc::Global;
use std::marker::Model;

/// The greatest math code, which makes a character active (The TeXbook, chapter 17).
pub const MAX_MATH_CODE: u16 = 32_768;

/// The greatest delimiter code, 2^24 - 1 (The TeXbook, chapter 17).
pub const MAX_DELIMITER_CODE: u32 = 16_777_215;

/// The codes of the characters 0 to 127, and the meanings of names.
#[derive(Debug, Drop)]
pub struct Codes {
    math: Vec<u16>,
    delimiters: Vec<Option<u32>>,
}

impl Model for Codes {
    ghost use Rattle.mt_plain.specs.CodeTables.{CodeTables, AreCodes};

    ghost Value = { CodeTables };

    ghost view = { λ c. record { math = c.math.items; delimiters = c.delimiters.items } };

    ghost invariant = { λ c. AreCodes c.math.items c.delimiters.items };
}

impl Codes {
    /// The codes of plain TeX.
    ///
    /// # Errors
    ///
    /// `OutOfMemory` where memory ran out.
    pub fn plain(alloc: Global) -> Result<Codes, CodeError>
        ensures { IfOk result (λ codes. codes ≡ plain_codes) }
    {
        let mut math = Vec::new(alloc);
        math.extend_from_slice(math_codes())?;
        let mut delimiters = Vec::new(alloc);
        delimiters.extend_from_slice(delcodes())?;
        Ok(Codes { math, delimiters })
    }

    /// The math code of a character.
    pub fn math_code(&self, c: u8) -> u16
        requires { c < 128 }
        ensures is { result ≡ math_code_of self.now c }
        ensures bound { result ≤ max_math_code }
    {
        self.math[usize::from(c)]
    }

    /// The delimiter code of a character, if it has one.
    pub fn delcode(&self, c: u8) -> Option<u32>
        requires { c < 128 }
        ensures is { result ≡ delcode_of self.now c }
        ensures bound { is_delcode result ≡ true }
    {
        self.delimiters[usize::from(c)]
    }

    /// What a name means in a formula.
    pub fn control(&self, name: &[u8]) -> Option<Meaning>
        ensures { result ≡ control name.now }
    {
        meaning_of(name)
    }

    /// Gives a character another math code.
    pub fn set_math_code(&mut self, c: u8, code: u16)
        requires character { c < 128 }
        requires code { code ≤ max_math_code }
        ensures is { self.new ≡ with_math_code self.old c code }
        ensures one { ChangesMathCode self.old self.new c code }
    {
        self.math[usize::from(c)] = code;
    }

    /// Gives a character another delimiter code, or none.
    pub fn set_delcode(&mut self, c: u8, code: Option<u32>)
        requires character { c < 128 }
        requires code { is_delcode code ≡ true }
        ensures is { self.new ≡ with_delcode self.old c code }
        ensures one { ChangesDelcode self.old self.new c code }
    {
        self.delimiters[usize::from(c)] = code;
    }
}
