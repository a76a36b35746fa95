//! Fonts by their numbers in a file.
ghost use Rattle.std.specs.Prelude.{◌≡◌, ◌<◌, ℕ, None, OnOk, Some, cond, get_or};
ghost use Rattle.std.specs.Option.{option_copied};
ghost use Rattle.std.specs.Ordering.{nat_cmp};
ghost use Rattle.std.specs.BTreeMap.{get, is_at};
ghost use Rattle.mt_dviread.specs.inner.Numbered.{font_at};

use std::alloc::{AllocError, Global};
use std::collections::BTreeMap;

/// What the first definition of a number says.
#[derive(Clone, Copy, Debug, Drop)]
pub struct DefinedFont<'a> {
    /// Its name, without an area.
    pub name: &'a [u8],
    /// In scaled points.
    pub size: u32,
    /// The number in the set of the font of this name and size.
    pub font: Option<u16>,
}

/// What the definitions of a file say, by the numbers of its fonts.
#[derive(Drop)]
pub struct NumberedFonts<'a> {
    by_number: BTreeMap<u32, DefinedFont<'a>>,
    // The fonts in the set of the numbers below 64, which fnt_num selects.
    few: [Option<u16>; 64],
    ghost same: { (n : ℕ) → n < 64 → get_or few n None ≡ font_at by_number n },
}

impl<'a> NumberedFonts<'a> {
    /// No font.
    pub fn none(alloc: Global) -> NumberedFonts<'a>
        ensures { (n : ℕ) → get nat_cmp result.by_number n ≡ None }
    {
        NumberedFonts {
            by_number: BTreeMap::new(alloc),
            few: [None; 64],
        }
    }

    /// What the first definition of a number says, if there is one.
    pub fn get(&self, number: u32) -> Option<&DefinedFont<'a>>
        ensures value { option_copied result ≡ get nat_cmp self.now.by_number number }
    {
        self.by_number.get(&number)
    }

    /// The number in the set of the font with this number in the file.
    #[inline(always)]
    pub fn font(&self, number: u32) -> Option<u16>
        ensures { result ≡ font_at self.now.by_number number }
    {
        if number < 64 {
            return self.few[number as usize];
        }
        match self.by_number.get(&number) {
            Some(entry) => entry.font,
            None => None,
        }
    }

    /// Takes what a definition of a number says.
    pub fn insert(&mut self, number: u32, entry: DefinedFont<'a>) -> Result<(), AllocError>
        ensures { OnOk result ((n : ℕ) → get nat_cmp self.new.by_number n
            ≡ cond (is_at (nat_cmp number) n) (Some entry.entry) (get nat_cmp self.old.by_number n)) }
    {
        self.by_number.insert(number, entry)?;
        if number < 64 {
            self.few[number as usize] = entry.font;
        }
        Ok(())
    }
}
