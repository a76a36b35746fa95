//! A page as it is copied.

use crate::selected::SelectedFonts;

/// A page as it is copied, and what post has to say of it.
#[derive(Clone, Copy, Debug)]
pub struct PageCopy<'a> {
    /// The 40 bytes of its ten counts.
    pub counts: &'a [u8],
    /// The bytes between bop and eop, where each selection of a font has its number in the set.
    pub body: &'a [u8],
    /// The fonts that it selects.
    pub fonts: SelectedFonts,
    /// The greatest depth of the stack.
    pub depth: u16,
    /// The number of its places.
    pub places: u32,
    /// The greatest of 0 and of the lower edges of its places, in scaled points.
    pub tallest: u32,
    /// The greatest of 0 and of the right edges of its places, in scaled points.
    pub widest: u32,
}
