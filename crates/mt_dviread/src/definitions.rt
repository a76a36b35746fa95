//! The fonts that a file defines.
ghost use Rattle.std.specs.Prelude.{◌≡◌, List, []};
ghost use Rattle.mt_family.specs.SetValue.{SetValue};
ghost use Rattle.mt_dvi.specs.Codes as codes;
ghost use Rattle.mt_dviread.specs.inner.Operations.{IsDefinition};
ghost use Rattle.mt_dviread.specs.inner.Defined.{Defines, Knows, known_at, font_meant, font_in};

use crate::error::Cause;
use crate::numbered::{DefinedFont, NumberedFonts};
use crate::operation::Definition;
use mt_family::FontSet;
use std::alloc::Global;

/// The fonts that a file has defined, by their numbers in the file.
#[derive(Drop)]
pub struct Definitions<'a> {
    fonts: NumberedFonts<'a>,
}

// The number in the set of the font that a definition names.
fn font_named(fonts: &FontSet, definition: Definition<'_>) -> Option<u16>
    ensures { (meant : codes.Definition) → IsDefinition definition.entry meant
        → result ≡ font_meant fonts.now meant.area meant }
{
    if definition.area.is_empty() {
        fonts.find(definition.name, i64::from(definition.size))
    } else {
        None
    }
}

impl<'a> Definitions<'a> {
    /// No font.
    pub fn none(alloc: Global) -> Definitions<'a>
        ensures { (fonts : SetValue) → Knows fonts result [] }
    {
        Definitions {
            fonts: NumberedFonts::none(alloc),
        }
    }

    /// The number in the set of the font with this number in the file.
    #[inline(always)]
    pub fn font(&self, number: u32) -> Option<u16>
        ensures { result ≡ font_in (known_at self.now number) }
    {
        self.fonts.font(number)
    }

    /// Takes a definition. A second one of a number has the same name and size, and changes nothing.
    pub fn define(&mut self, fonts: &FontSet, definition: Definition<'a>) -> Result<(), Cause>
        ensures { (known : List codes.Definition) (meant : codes.Definition)
            → Knows fonts.now self.old known → IsDefinition definition.entry meant
            → Defines fonts.now result self.new known meant }
    {
        match self.fonts.get(definition.number) {
            Some(entry) => {
                if definition.name == entry.name && definition.size == entry.size {
                    Ok(())
                } else {
                    Err(Cause::UnknownFont)
                }
            }
            None => {
                let entry = DefinedFont {
                    name: definition.name,
                    size: definition.size,
                    font: font_named(fonts, definition),
                };
                self.fonts.insert(definition.number, entry)?;
                Ok(())
            }
        }
    }
}
