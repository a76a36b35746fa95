//! The fonts that a file defines.
ghost use Rattle.std.specs.Prelude.{◌≡◌, ◌<◌, ◌++◌, ◌∷◌, [], IfOk, OnOk};
ghost use Rattle.mt_family.specs.Limits.{max_fonts};
ghost use Rattle.mt_dvi.specs.writer.LeadsTo.{is_among};

use mt_family::MAX_FONTS;
use std::alloc::{AllocError, Global};
use std::marker::Model;

/// The fonts that a file defines, by their numbers in the set, in the order of their definitions.
#[derive(Debug, Drop)]
pub struct DefinedFonts {
    numbers: Vec<u16>,
    // Of each number, whether it is among them.
    flags: [bool; MAX_FONTS],
}

impl Model for DefinedFonts {
    ghost use Rattle.std.specs.Prelude.{ℕ, List};
    ghost use Rattle.mt_dvi.specs.writer.Distinct.{AreFlags};

    ghost Value = { List ℕ };

    ghost view = { λ d. d.numbers.items };

    ghost invariant = { λ d. AreFlags d.flags d.numbers.items };
}

impl DefinedFonts {
    /// No font, with room for so many.
    pub fn with_capacity(alloc: Global, count: usize) -> Result<DefinedFonts, AllocError>
        ensures { IfOk result (λ defined. defined ≡ []) }
    {
        Ok(DefinedFonts {
            numbers: Vec::with_capacity(alloc, count)?,
            flags: [false; MAX_FONTS],
        })
    }

    /// Whether a font is among them.
    pub fn contains(&self, n: u16) -> bool
        requires { n < max_fonts }
        ensures { result ≡ is_among self.now n }
    {
        self.flags[usize::from(n)]
    }

    /// Puts a font behind them.
    pub fn push(&mut self, n: u16) -> Result<(), AllocError>
        requires { n < max_fonts }
        ensures { OnOk result (self.new ≡ self.old ++ n ∷ []) }
    {
        self.numbers.push(n)?;
        self.flags[usize::from(n)] = true;
        Ok(())
    }

    /// Their numbers.
    pub fn as_slice(&self) -> &[u16]
        ensures { result.now ≡ self.now }
    {
        &self.numbers
    }
}
