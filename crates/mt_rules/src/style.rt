//! Styles of formulas.
ghost use Rattle.std.specs.Prelude.{◌≡◌};
ghost use Rattle.mt_rules.specs.Styles.{style_index, size_of, sup_of, sub_of, cramped_of, uncramped_of, num_of, den_of};
ghost use Rattle.mt_rules.specs.Styles.{is_display as is_display_style, is_cramped as is_cramped_style};

use mt_family::Size;

/// The style in which a part of a formula is set (The TeXbook, chapter 17; tex.web §702). Each has a cramped form, in
/// which superscripts are raised less.
#[derive(Clone, Copy, Debug, PartialEq, Eq)]
pub enum Style {
    /// Display.
    D,
    /// Display, cramped.
    Dc,
    /// Text.
    T,
    /// Text, cramped.
    Tc,
    /// Script.
    S,
    /// Script, cramped.
    Sc,
    /// Scriptscript.
    Ss,
    /// Scriptscript, cramped.
    Ssc,
}

impl Style {
    /// Its number, 0 to 7 in the order above. The odd ones are cramped.
    pub fn index(self) -> u8
        ensures { result ≡ style_index self }
    {
        match self {
            Style::D => 0,
            Style::Dc => 1,
            Style::T => 2,
            Style::Tc => 3,
            Style::S => 4,
            Style::Sc => 5,
            Style::Ss => 6,
            Style::Ssc => 7,
        }
    }

    /// Whether it is display style or its cramped form.
    pub fn is_display(self) -> bool
        ensures { result ≡ is_display_style self }
    {
        matches!(self, Style::D | Style::Dc)
    }

    /// Whether it is a cramped form.
    pub fn is_cramped(self) -> bool
        ensures { result ≡ is_cramped_style self }
    {
        matches!(self, Style::Dc | Style::Tc | Style::Sc | Style::Ssc)
    }

    /// The size of its fonts.
    pub fn size(self) -> Size
        ensures { result ≡ size_of self }
    {
        match self {
            Style::D | Style::Dc | Style::T | Style::Tc => Size::Text,
            Style::S | Style::Sc => Size::Script,
            Style::Ss | Style::Ssc => Size::Scriptscript,
        }
    }

    /// The style of a superscript.
    pub fn sup(self) -> Style
        ensures { result ≡ sup_of self }
    {
        match self {
            Style::D | Style::T => Style::S,
            Style::Dc | Style::Tc => Style::Sc,
            Style::S | Style::Ss => Style::Ss,
            Style::Sc | Style::Ssc => Style::Ssc,
        }
    }

    /// The style of a subscript.
    pub fn sub(self) -> Style
        ensures { result ≡ sub_of self }
    {
        self.sup().cramped()
    }

    /// Its cramped form.
    pub fn cramped(self) -> Style
        ensures { result ≡ cramped_of self }
    {
        match self {
            Style::D | Style::Dc => Style::Dc,
            Style::T | Style::Tc => Style::Tc,
            Style::S | Style::Sc => Style::Sc,
            Style::Ss | Style::Ssc => Style::Ssc,
        }
    }

    /// The form of it that is not cramped.
    pub fn uncramped(self) -> Style
        ensures { result ≡ uncramped_of self }
    {
        match self {
            Style::D | Style::Dc => Style::D,
            Style::T | Style::Tc => Style::T,
            Style::S | Style::Sc => Style::S,
            Style::Ss | Style::Ssc => Style::Ss,
        }
    }

    /// The style of a numerator.
    pub fn num(self) -> Style
        ensures { result ≡ num_of self }
    {
        match self {
            Style::D => Style::T,
            Style::Dc => Style::Tc,
            Style::T => Style::S,
            Style::Tc => Style::Sc,
            Style::S | Style::Ss => Style::Ss,
            Style::Sc | Style::Ssc => Style::Ssc,
        }
    }

    /// The style of a denominator.
    pub fn den(self) -> Style
        ensures { result ≡ den_of self }
    {
        self.num().cramped()
    }
}
