//! The pages of a file as they are copied.
ghost use Rattle.std.specs.Prelude.{◌≡◌, ◌≤◌, ◌+◌, All, length};
ghost use Rattle.mt_dvi.specs.Codes.{bytes_from};
ghost use Rattle.mt_dviops.specs.inner.Inside.{IsInside, bytes_between};

use crate::page::PageCopy;
use crate::selected::SelectedFonts;

// So many bytes from a place on.
fn bytes_from(bytes: &[u8], from: usize, count: usize) -> &[u8]
    requires { from + count ≤ length bytes.now }
    ensures is { result.now ≡ bytes_from from count bytes.now }
    ensures long { length result.now ≡ count }
{
    let rest = &bytes[from..];
    &rest[..count]
}

/// The bytes from one offset to another.
pub fn bytes_between(bytes: &[u8], from: usize, to: usize) -> &[u8]
    requires order { from ≤ to }
    requires inside { to ≤ length bytes.now }
    ensures { result.now ≡ bytes_between from to bytes.now }
{
    bytes_from(bytes, from, to - from)
}

/// What is kept of a page.
#[derive(Clone, Copy, Debug)]
pub struct CopiedPage {
    /// The offset of its ten counts in the file.
    pub counts: usize,
    /// Where its body begins in the bodies.
    pub start: usize,
    /// Where its body ends in the bodies.
    pub end: usize,
    /// The fonts that it selects.
    pub fonts: SelectedFonts,
    /// The greatest depth of the stack.
    pub depth: u16,
    /// The number of its places.
    pub places: u32,
    /// The greatest of 0 and of the lower edges of its places, in scaled points.
    pub tallest: u32,
    /// The greatest of 0 and of the right edges of its places, in scaled points.
    pub widest: u32,
}

/// The pages of a file as they are copied.
#[derive(Drop)]
pub struct Copies<'a> {
    /// The file.
    pub bytes: &'a [u8],
    /// Its magnification.
    pub mag: i32,
    /// The bodies of its pages, one after another.
    pub bodies: Vec<u8>,
    /// Its pages.
    pub pages: Vec<CopiedPage>,
    ghost inside: { All (IsInside bytes.now bodies.items) pages.items },
}

impl Copies<'_> {
    ghost use Rattle.std.specs.Prelude.{◌<◌, get_or};
    ghost use Rattle.mt_family.specs.SetValue.{SetValue};
    ghost use Rattle.mt_dviops.specs.Source.{SourceFile, SourcePage};
    ghost use Rattle.mt_dviops.specs.inner.Copies.{Holds};
    ghost use Rattle.mt_dviops.specs.inner.Shown.{Shows};

    /// The magnification of the file.
    pub fn magnification(&self) -> i32
        ensures { result ≡ self.now.mag }
    {
        self.mag
    }

    /// A page, counted from 0.
    pub fn page(&self, k: usize) -> PageCopy<'_>
        requires { k < length self.now.pages.items }
        ensures { (fonts : SetValue) (source : SourceFile) (page : SourcePage) → Holds fonts self.now source
            → Shows fonts result (get_or source.pages k page) }
    {
        let page = self.pages[k];
        PageCopy {
            counts: bytes_from(self.bytes, page.counts, 40),
            body: bytes_from(&self.bodies, page.start, page.end - page.start),
            fonts: page.fonts,
            depth: page.depth,
            places: page.places,
            tallest: page.tallest,
            widest: page.widest,
        }
    }
}
