//! What a token is in a formula.
ghost use Rattle.std.specs.Prelude.{◌≡◌, ◌<◌};
ghost use Rattle.mt_plain.specs.Names.{control};
ghost use Rattle.mt_scan.specs.Role.{role_of, command_role, meaning_role, code_role, character_role, mu_space, named_item};
ghost use Rattle.mt_scan.specs.Role.{big_class, role_code, veil};

use mt_plain::{Codes, Command, MAX_MATH_CODE, Meaning};
use mt_rules::{Class, Delim, Glue, Limits, Style, Symbol};
use mt_token::{Token, TokenKind};

/// A side of an atom on which a script is set.
#[derive(Clone, Copy, Debug, PartialEq, Eq)]
pub enum Side {
    /// A superscript.
    Up,
    /// A subscript.
    Down,
}

/// The rule of a fraction.
#[derive(Clone, Copy, Debug, PartialEq, Eq)]
pub enum Bar {
    /// Of the font's own thickness, as `\over` makes it.
    Own,
    /// None, as `\atop`.
    None,
    /// Of a thickness that follows, as `\above`.
    Given,
}

/// A space or a kern of which the amount follows.
#[derive(Clone, Copy, Debug, PartialEq, Eq)]
pub enum Amount {
    /// `\mskip`
    MuSkip,
    /// `\mkern`
    MuKern,
    /// `\hskip`
    Skip,
    /// `\kern`
    Kern,
}

/// An item without lists.
#[derive(Clone, Copy, Debug, PartialEq, Eq)]
pub enum Simple {
    /// A style.
    Style(Style),
    /// A space in math units.
    MuSpace(Glue),
    /// A space.
    Space(Glue),
    /// A kern in math units.
    MuKern(i64),
    /// A kern.
    Kern(i64),
    /// `\nonscript`
    Nonscript,
}

/// An item that a name is by itself.
#[derive(Clone, Copy, Debug, PartialEq, Eq)]
pub enum NamedItem {
    /// A style.
    Style(Style),
    /// `\,`
    Thin,
    /// `\>`
    Medium,
    /// `\;`
    Thick,
    /// `\!`
    NegativeThin,
    /// `\nonscript`
    Nonscript,
}

impl NamedItem {
    /// The item. Amounts are in 65536ths of a math unit (The TeXbook, chapter 18: 3, 4, 5 and -3 mu).
    pub fn item(self) -> Simple
        ensures { result ≡ named_item self }
    {
        match self {
            NamedItem::Style(style) => Simple::Style(style),
            NamedItem::Thin => mu_space(196_608, 0),
            NamedItem::Medium => mu_space(262_144, 262_144),
            NamedItem::Thick => mu_space(327_680, 0),
            NamedItem::NegativeThin => mu_space(-196_608, 0),
            NamedItem::Nonscript => Simple::Nonscript,
        }
    }
}

/// The kind of an atom that takes a field as its nucleus.
#[derive(Clone, Copy, Debug, PartialEq, Eq)]
pub enum FieldKind {
    /// The nucleus alone, as an atom of this class.
    Class(Class),
    /// Under a radical sign.
    Radical(Delim),
    /// Under an accent.
    Accent(Symbol),
    /// Under a rule.
    Over,
    /// Over a rule.
    Under,
    /// The nucleus alone, and of its box only what the flags say is left.
    Veil {
        /// Whether it keeps its width.
        width: bool,
        /// Whether it keeps its height and depth.
        height: bool,
        /// Whether it keeps its marks.
        marks: bool,
    },
}

/// What columns a table has.
#[derive(Clone, Copy, Debug, PartialEq, Eq)]
pub enum Preamble {
    /// Those of a matrix: as many as its rows have cells.
    Matrix,
    /// The two sides of equations.
    Equations,
    /// The two sides of equations, and their numbers.
    NumberedEquations,
    /// One, as the rows of `\displaylines` have.
    Lines,
}

/// What a token is in a formula. Words that are treated alike are one variant.
#[derive(Clone, Copy, Debug, PartialEq, Eq)]
pub enum Role {
    /// A Space or `\relax`, which mean nothing.
    Blank,
    /// A character or a name with this math code.
    MathCode(u16),
    /// `\mathchar`
    CharWord,
    /// `\delimiter`
    DelimiterWord,
    /// A `'` that is active in formulas.
    Prime,
    /// `^` or `_`.
    Script(Side),
    /// `{`
    OpenBrace,
    /// `}`
    CloseBrace,
    /// `$`
    Dollar,
    /// `#`
    Misplaced,
    /// `&`
    Tab,
    /// `\cr`
    CrWord,
    /// `\matrix` or `\eqalign`: a table with these columns.
    TableWord(Preamble),
    /// `\pmatrix`
    PmatrixWord,
    /// `\eqalignno`, `\leqalignno` or `\displaylines`: a display with these columns, and whether its
    /// numbers are at the left.
    DisplayWord(Preamble, bool),
    /// A word that takes a field as the nucleus of an atom of this kind.
    Nucleus(FieldKind),
    /// `\radical`
    RadicalWord,
    /// `\mathaccent`
    AccentWord,
    /// `\root`
    RootWord,
    /// `\of`
    OfWord,
    /// `\big` and its like: a big delimiter, as an atom of this class, and how large, 0 to 3.
    BigWord(Class, u8),
    /// `\vcenter`
    VcenterWord,
    /// `\hbox`
    HboxWord,
    /// `\left`
    LeftWord,
    /// `\middle`
    MiddleWord,
    /// `\right`
    RightWord,
    /// A word that places the scripts of an operator.
    LimitsWord(Limits),
    /// A fraction word, with delimiters or without, and its rule.
    FractionWord(bool, Bar),
    /// `\mathchoice`
    ChoiceWord,
    /// A space or a kern.
    AmountWord(Amount),
    /// A word that is an item by itself.
    ItemWord(NamedItem),
    /// `\fam`
    FamilyWord,
    /// `\eqno`, or, at the left, `\leqno`.
    NumberWord(bool),
    /// A name that means nothing here, or a character that is active in formulas, but for `'`.
    Unknown,
}

impl Role {
    /// The math code by which it is set, where there is one.
    #[inline]
    pub fn math_code(self) -> Option<u16>
        ensures { result ≡ role_code self }
    {
        match self {
            Role::MathCode(code) => Some(code),
            _ => None,
        }
    }
}

fn mu_space(width: i64, shrink: i64) -> Simple
    ensures { result ≡ mu_space width shrink }
{
    Simple::MuSpace(Glue { width, shrink })
}

fn veil(width: bool, height: bool, marks: bool) -> Role
    ensures { result ≡ veil width height marks }
{
    Role::Nucleus(FieldKind::Veil {
        width,
        height,
        marks,
    })
}

// The class of a big delimiter, by the letter at the end of its word.
fn big_class(form: u8) -> Class
    ensures { result ≡ big_class form }
{
    match form {
        1 => Class::Open,
        2 => Class::Rel,
        3 => Class::Close,
        _ => Class::Ord,
    }
}

fn command_role(command: Command) -> Role
    ensures { result ≡ command_role command }
{
    match command {
        Command::Relax => Role::Blank,
        Command::MathChar => Role::CharWord,
        Command::Delimiter => Role::DelimiterWord,
        Command::MathOrd => Role::Nucleus(FieldKind::Class(Class::Ord)),
        Command::MathOp => Role::Nucleus(FieldKind::Class(Class::Op)),
        Command::MathBin => Role::Nucleus(FieldKind::Class(Class::Bin)),
        Command::MathRel => Role::Nucleus(FieldKind::Class(Class::Rel)),
        Command::MathOpen => Role::Nucleus(FieldKind::Class(Class::Open)),
        Command::MathClose => Role::Nucleus(FieldKind::Class(Class::Close)),
        Command::MathPunct => Role::Nucleus(FieldKind::Class(Class::Punct)),
        Command::MathInner => Role::Nucleus(FieldKind::Class(Class::Inner)),
        Command::Overline => Role::Nucleus(FieldKind::Over),
        Command::Underline => Role::Nucleus(FieldKind::Under),
        Command::Radical => Role::RadicalWord,
        Command::MathAccent => Role::AccentWord,
        Command::Vcenter => Role::VcenterWord,
        Command::Hbox => Role::HboxWord,
        Command::Left => Role::LeftWord,
        Command::Middle => Role::MiddleWord,
        Command::Right => Role::RightWord,
        Command::Limits => Role::LimitsWord(Limits::Always),
        Command::NoLimits => Role::LimitsWord(Limits::Never),
        Command::DisplayLimits => Role::LimitsWord(Limits::Default),
        Command::Over => Role::FractionWord(false, Bar::Own),
        Command::Atop => Role::FractionWord(false, Bar::None),
        Command::Above => Role::FractionWord(false, Bar::Given),
        Command::OverWithDelims => Role::FractionWord(true, Bar::Own),
        Command::AtopWithDelims => Role::FractionWord(true, Bar::None),
        Command::AboveWithDelims => Role::FractionWord(true, Bar::Given),
        Command::DisplayStyle => Role::ItemWord(NamedItem::Style(Style::D)),
        Command::TextStyle => Role::ItemWord(NamedItem::Style(Style::T)),
        Command::ScriptStyle => Role::ItemWord(NamedItem::Style(Style::S)),
        Command::ScriptScriptStyle => Role::ItemWord(NamedItem::Style(Style::Ss)),
        Command::MathChoice => Role::ChoiceWord,
        Command::MSkip => Role::AmountWord(Amount::MuSkip),
        Command::MKern => Role::AmountWord(Amount::MuKern),
        Command::HSkip => Role::AmountWord(Amount::Skip),
        Command::Kern => Role::AmountWord(Amount::Kern),
        Command::NonScript => Role::ItemWord(NamedItem::Nonscript),
        Command::Thin => Role::ItemWord(NamedItem::Thin),
        Command::Medium => Role::ItemWord(NamedItem::Medium),
        Command::Thick => Role::ItemWord(NamedItem::Thick),
        Command::NegativeThin => Role::ItemWord(NamedItem::NegativeThin),
        Command::Fam => Role::FamilyWord,
        Command::EqNo => Role::NumberWord(false),
        Command::LeqNo => Role::NumberWord(true),
        Command::Matrix => Role::TableWord(Preamble::Matrix),
        Command::Pmatrix => Role::PmatrixWord,
        Command::Eqalign => Role::TableWord(Preamble::Equations),
        Command::Cr => Role::CrWord,
        Command::EqalignNo => Role::DisplayWord(Preamble::NumberedEquations, false),
        Command::LeqalignNo => Role::DisplayWord(Preamble::NumberedEquations, true),
        Command::DisplayLines => Role::DisplayWord(Preamble::Lines, false),
        Command::Phantom => veil(true, true, false),
        Command::Hphantom => veil(true, false, false),
        Command::Vphantom => veil(false, true, false),
        Command::Smash => veil(true, false, true),
        Command::Root => Role::RootWord,
        Command::Of => Role::OfWord,
        Command::BigDelim { level, form } => Role::BigWord(big_class(form), level),
    }
}

fn meaning_role(meaning: Option<Meaning>) -> Role
    ensures { result ≡ meaning_role meaning }
{
    match meaning {
        None => Role::Unknown,
        Some(Meaning::MathChar(code)) => Role::MathCode(code),
        Some(Meaning::Command(command)) => command_role(command),
    }
}

// A character by its math code.
fn code_role(c: u8, code: u16) -> Role
    ensures { result ≡ code_role c code }
{
    if code != MAX_MATH_CODE {
        return Role::MathCode(code);
    }
    if c == b'\'' {
        Role::Prime
    } else {
        Role::Unknown
    }
}

/// What a character is in a formula, by its ASCII code, with these codes.
#[inline]
pub fn character_role(codes: &Codes, c: u8) -> Role
    requires { c < 128 }
    ensures { result ≡ character_role codes.now c }
{
    match c {
        b'{' => Role::OpenBrace,
        b'}' => Role::CloseBrace,
        b'^' => Role::Script(Side::Up),
        b'_' => Role::Script(Side::Down),
        b'$' => Role::Dollar,
        b'&' => Role::Tab,
        b'#' => Role::Misplaced,
        _ => code_role(c, codes.math_code(c)),
    }
}

/// What a name is in a formula, by its meaning.
// A function of its own keeps `role_of` small enough to be inlined.
#[inline(never)]
pub fn name_role(codes: &Codes, name: &[u8]) -> Role
    ensures { result ≡ meaning_role (control name.now) }
{
    meaning_role(codes.control(name))
}

/// What a token is in a formula, with these codes.
#[inline]
pub fn role_of(codes: &Codes, token: &Token) -> Role
    ensures { result ≡ role_of codes.now token.now }
{
    match &token.kind {
        TokenKind::Control(name) => name_role(codes, name.as_slice()),
        TokenKind::Char(c) => character_role(codes, *c),
        TokenKind::Space => Role::Blank,
    }
}
