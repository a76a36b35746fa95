//! The most that a font list may have, and what formulas need of its fonts.

/// The most bytes of a font list.
pub const MAX_LIST_BYTES: u64 = 65_536;

/// The most font lines of a list.
pub const MAX_FONTS: usize = 48;

/// The most bytes of the name of a font.
pub const MAX_FONT_NAME: usize = 64;

/// The greatest size of a font in sp, 2^27 - 1 (tex.web, section 1259).
pub const MAX_FONT_SIZE: u64 = 134_217_727;

/// The parameters that a font of family 2, the symbols, has at least (tex.web, section 700).
pub const SYMBOL_PARAMETERS: u16 = 22;

/// The parameters that a font of family 3, the extensible characters, has at least (tex.web, section 701).
pub const EXTENSION_PARAMETERS: u16 = 13;
