//! The spaces between atoms, by their final classes.
ghost use Rattle.std.specs.Prelude.{◌≡◌, ◌^◌, false};
ghost use Rattle.mt_scaled.specs.Number.{Within};
ghost use Rattle.mt_rules.specs.Spaces.{full_spacing, never_meet, script_spacing, sign, spacing, spacing_glue};
ghost use Rattle.mt_spacing.specs.Gaps.{gap_of, spacing_of};

use mt_rules::{Class, Glue, Style};

/// The space between two atoms.
#[derive(Clone, Copy, Debug, PartialEq, Eq)]
pub enum Gap {
    /// No space.
    None,
    /// A thin space, 3mu.
    Thin,
    /// A medium space, 4mu minus 4mu.
    Medium,
    /// A thick space, 5mu.
    Thick,
}

/// The space between two atoms with these final classes, in the style of the right one (The TeXbook, chapter 18;
/// tex.web §764). The two are to be classes that can be side by side.
pub fn space_between(left: Class, right: Class, style: Style) -> Gap
    requires { never_meet left right ≡ false }
    ensures { result ≡ gap_of (spacing left right style) }
{
    match style {
        Style::D | Style::Dc | Style::T | Style::Tc => full_gap(left, right),
        Style::S | Style::Sc | Style::Ss | Style::Ssc => script_gap(left, right),
    }
}

// The space in display and text styles.
fn full_gap(left: Class, right: Class) -> Gap
    requires { never_meet left right ≡ false }
    ensures { result ≡ gap_of (full_spacing (sign left right)) }
{
    match (left, right) {
        (Class::Punct, _) => Gap::Thin,
        (Class::Open, _) | (_, Class::Close) => Gap::None,
        (Class::Bin, _) | (_, Class::Bin) => Gap::Medium,
        (Class::Rel, Class::Rel | Class::Punct) => Gap::None,
        (Class::Rel, _) | (_, Class::Rel) => Gap::Thick,
        (_, Class::Op | Class::Inner) | (Class::Op, Class::Ord) => Gap::Thin,
        (Class::Inner, Class::Ord | Class::Open | Class::Punct) => Gap::Thin,
        _ => Gap::None,
    }
}

// The space in the smaller styles, where only large operators keep one.
fn script_gap(left: Class, right: Class) -> Gap
    requires { never_meet left right ≡ false }
    ensures { result ≡ gap_of (script_spacing (sign left right)) }
{
    match (left, right) {
        (Class::Ord | Class::Op | Class::Close | Class::Inner, Class::Op) => Gap::Thin,
        (Class::Op, Class::Ord) => Gap::Thin,
        _ => Gap::None,
    }
}

/// The glue of a space where 1 mu has this many scaled points, at most 2^31 in size. The widths are those of plain TeX
/// (The TeXbook, chapter 18).
pub fn math_glue(gap: Gap, mu: i64) -> Glue
    requires { Within (2 ^ 31) mu }
    ensures { result ≡ spacing_glue (spacing_of gap) mu }
{
    match gap {
        Gap::None => Glue {
            width: 0,
            shrink: 0,
        },
        Gap::Thin => Glue {
            width: 3 * mu,
            shrink: 0,
        },
        Gap::Medium => Glue {
            width: 4 * mu,
            shrink: 4 * mu,
        },
        Gap::Thick => Glue {
            width: 5 * mu,
            shrink: 0,
        },
    }
}
