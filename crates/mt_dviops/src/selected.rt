//! Which fonts of a set are selected.
ghost use Rattle.std.specs.Prelude.{◌≡◌, ◌<◌, ◌==◌, ◌||◌, ℕ};
ghost use Rattle.mt_family.specs.Limits.{max_fonts};
ghost use Rattle.mt_dviops.specs.inner.Shown.{has_selected};

/// Fonts by their numbers in the set, each at most once.
#[derive(Clone, Copy, Debug)]
pub struct SelectedFonts {
    // Bit n stands for font n.
    bits: u64,
}

/// No font.
pub const NO_FONTS: SelectedFonts = SelectedFonts { bits: 0 };

impl SelectedFonts {
    /// Whether a font is among them.
    pub fn contains(self, n: u16) -> bool
        requires { n < max_fonts }
        ensures { result ≡ has_selected self n }
    {
        (self.bits >> n) & 1 == 1
    }

    /// These fonts and one more.
    pub fn with(self, n: u16) -> SelectedFonts
        requires { n < max_fonts }
        ensures { (m : ℕ) → has_selected result m ≡ (m == n || has_selected self m) }
    {
        SelectedFonts {
            bits: self.bits | 1 << n,
        }
    }

    /// These fonts and the others.
    pub fn union(self, others: SelectedFonts) -> SelectedFonts
        ensures { (m : ℕ) → has_selected result m ≡ (has_selected self m || has_selected others m) }
    {
        SelectedFonts {
            bits: self.bits | others.bits,
        }
    }
}
