//! The macros of plain TeX for formulas, by their names, with the texts of their bodies.
ghost use Rattle.std.specs.Prelude.{◌≡◌};
ghost use Rattle.mt_plain.specs.MacroTexts.{accent_macros, delimiter_macros, other_macros, family_macros};
ghost use Rattle.mt_plain.specs.MacroTexts.{function_macros, limit_macros};
ghost use Rattle.mt_plain.specs.PlainMacros.{lent_texts, AreBodyTexts};

/// A name and the text of its macro's body.
pub type MacroText = (&'static [u8], &'static [u8]);

#[rattlefmt::skip]
static ACCENT_MACROS: [(&[u8], &[u8]); 12] = [
    (b"acute", b"\\mathaccent\"7013 "),
    (b"grave", b"\\mathaccent\"7012 "),
    (b"ddot", b"\\mathaccent\"707F "),
    (b"tilde", b"\\mathaccent\"707E "),
    (b"bar", b"\\mathaccent\"7016 "),
    (b"breve", b"\\mathaccent\"7015 "),
    (b"check", b"\\mathaccent\"7014 "),
    (b"hat", b"\\mathaccent\"705E "),
    (b"vec", b"\\mathaccent\"017E "),
    (b"dot", b"\\mathaccent\"705F "),
    (b"widetilde", b"\\mathaccent\"0365 "),
    (b"widehat", b"\\mathaccent\"0362 "),
];

/// Accents.
pub fn accent_macros() -> &'static [MacroText]
    ensures is { lent_texts result.now ≡ accent_macros }
    ensures sound { AreBodyTexts (lent_texts result.now) }
{
    &ACCENT_MACROS
}

#[rattlefmt::skip]
static DELIMITER_MACROS: [(&[u8], &[u8]); 20] = [
    (b"|", b"\\delimiter\"26B30D "),
    (b"Vert", b"\\delimiter\"26B30D "),
    (b"vert", b"\\delimiter\"26A30C "),
    (b"uparrow", b"\\delimiter\"3222378 "),
    (b"downarrow", b"\\delimiter\"3223379 "),
    (b"updownarrow", b"\\delimiter\"326C33F "),
    (b"Uparrow", b"\\delimiter\"322A37E "),
    (b"Downarrow", b"\\delimiter\"322B37F "),
    (b"Updownarrow", b"\\delimiter\"326D377 "),
    (b"backslash", b"\\delimiter\"26E30F "),
    (b"rangle", b"\\delimiter\"526930B "),
    (b"langle", b"\\delimiter\"426830A "),
    (b"rbrace", b"\\delimiter\"5267309 "),
    (b"}", b"\\delimiter\"5267309 "),
    (b"lbrace", b"\\delimiter\"4266308 "),
    (b"{", b"\\delimiter\"4266308 "),
    (b"rceil", b"\\delimiter\"5265307 "),
    (b"lceil", b"\\delimiter\"4264306 "),
    (b"rfloor", b"\\delimiter\"5263305 "),
    (b"lfloor", b"\\delimiter\"4262304 "),
];

/// Delimiters.
pub fn delimiter_macros() -> &'static [MacroText]
    ensures is { lent_texts result.now ≡ delimiter_macros }
    ensures sound { AreBodyTexts (lent_texts result.now) }
{
    &DELIMITER_MACROS
}

#[rattlefmt::skip]
static OTHER_MACROS: [(&[u8], &[u8]); 14] = [
    (b"sqrt", b"\\radical\"270370 "),
    (b"int", b"\\intop\\nolimits"),
    (b"oint", b"\\ointop\\nolimits"),
    (b"ne", b"\\not="),
    (b"neq", b"\\not="),
    (b"mapsto", b"\\mapstochar\\rightarrow"),
    (b"ldots", b"\\mathinner{\\ldotp\\ldotp\\ldotp}"),
    (b"cdots", b"\\mathinner{\\cdotp\\cdotp\\cdotp}"),
    (b"choose", b"\\atopwithdelims()"),
    (b"brack", b"\\atopwithdelims[]"),
    (b"brace", b"\\atopwithdelims\\{\\}"),
    (b"quad", b"\\hskip1em\\relax"),
    (b"qquad", b"\\hskip2em\\relax"),
    (b"mathstrut", b"\\vphantom("),
];

/// Other macros.
pub fn other_macros() -> &'static [MacroText]
    ensures is { lent_texts result.now ≡ other_macros }
    ensures sound { AreBodyTexts (lent_texts result.now) }
{
    &OTHER_MACROS
}

#[rattlefmt::skip]
static FAMILY_MACROS: [(&[u8], &[u8]); 7] = [
    (b"rm", b"\\fam 0 "),
    (b"mit", b"\\fam 1 "),
    (b"cal", b"\\fam 2 "),
    (b"it", b"\\fam 4 "),
    (b"sl", b"\\fam 5 "),
    (b"bf", b"\\fam 6 "),
    (b"tt", b"\\fam 7 "),
];

/// Families.
pub fn family_macros() -> &'static [MacroText]
    ensures is { lent_texts result.now ≡ family_macros }
    ensures sound { AreBodyTexts (lent_texts result.now) }
{
    &FAMILY_MACROS
}

#[rattlefmt::skip]
static FUNCTION_MACROS: [(&[u8], &[u8]); 22] = [
    (b"log", b"\\mathop{\\rm log}\\nolimits"),
    (b"lg", b"\\mathop{\\rm lg}\\nolimits"),
    (b"ln", b"\\mathop{\\rm ln}\\nolimits"),
    (b"sin", b"\\mathop{\\rm sin}\\nolimits"),
    (b"arcsin", b"\\mathop{\\rm arcsin}\\nolimits"),
    (b"sinh", b"\\mathop{\\rm sinh}\\nolimits"),
    (b"cos", b"\\mathop{\\rm cos}\\nolimits"),
    (b"arccos", b"\\mathop{\\rm arccos}\\nolimits"),
    (b"cosh", b"\\mathop{\\rm cosh}\\nolimits"),
    (b"tan", b"\\mathop{\\rm tan}\\nolimits"),
    (b"arctan", b"\\mathop{\\rm arctan}\\nolimits"),
    (b"tanh", b"\\mathop{\\rm tanh}\\nolimits"),
    (b"cot", b"\\mathop{\\rm cot}\\nolimits"),
    (b"coth", b"\\mathop{\\rm coth}\\nolimits"),
    (b"sec", b"\\mathop{\\rm sec}\\nolimits"),
    (b"csc", b"\\mathop{\\rm csc}\\nolimits"),
    (b"arg", b"\\mathop{\\rm arg}\\nolimits"),
    (b"ker", b"\\mathop{\\rm ker}\\nolimits"),
    (b"dim", b"\\mathop{\\rm dim}\\nolimits"),
    (b"hom", b"\\mathop{\\rm hom}\\nolimits"),
    (b"exp", b"\\mathop{\\rm exp}\\nolimits"),
    (b"deg", b"\\mathop{\\rm deg}\\nolimits"),
];

/// Macros of the names of functions, such as `\sin` (The TeXbook, chapter 18).
pub fn function_macros() -> &'static [MacroText]
    ensures is { lent_texts result.now ≡ function_macros }
    ensures sound { AreBodyTexts (lent_texts result.now) }
{
    &FUNCTION_MACROS
}

#[rattlefmt::skip]
static LIMIT_MACROS: [(&[u8], &[u8]); 8] = [
    (b"lim", b"\\mathop{\\rm lim}"),
    (b"max", b"\\mathop{\\rm max}"),
    (b"min", b"\\mathop{\\rm min}"),
    (b"sup", b"\\mathop{\\rm sup}"),
    (b"inf", b"\\mathop{\\rm inf}"),
    (b"det", b"\\mathop{\\rm det}"),
    (b"Pr", b"\\mathop{\\rm Pr}"),
    (b"gcd", b"\\mathop{\\rm gcd}"),
];

/// Macros of the names of functions that take limits, such as `\lim` (The TeXbook, chapter 18).
pub fn limit_macros() -> &'static [MacroText]
    ensures is { lent_texts result.now ≡ limit_macros }
    ensures sound { AreBodyTexts (lent_texts result.now) }
{
    &LIMIT_MACROS
}
