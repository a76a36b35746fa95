//! What is said of names that mean nothing where authors type them, and of spaces and empty lines in formulas.

/// A name of LaTeX's that authors often type, what to write in plain TeX in its place, and a definition of it, which is
/// empty where there is none.
pub type Replacement = (&'static [u8], &'static [u8], &'static [u8]);

/// What to write for words in a formula.
const ROMAN_TEXT: &[u8] = b"{\\rm if\\;}, with \\; for each space";

/// What to write for a relation with something above it.
const OVER_RELATION: &[u8] = b"\\mathrel{\\mathop{=}\\limits^a}";

/// What to write for a color.
const NO_COLORS: &[u8] = b"nothing, since there are no colors";

/// What to write for an environment.
const TABLES: &[u8] = b"\\matrix{a&b\\cr}, \\pmatrix{a&b\\cr} or \\eqalign{a&=b\\cr}";

/// What to write for a line without a number.
const NO_NUMBERS: &[u8] = b"nothing, since no number is set by itself";

/// In formulas: names for which something else can be written.
#[rattlefmt::skip]
pub static IN_FORMULAS: [Replacement; 39] = [
    (b"\\", b"\\cr", b""),
    (b"frac", b"{a\\over b}", b"\\def\\frac#1#2{{{#1}\\over{#2}}}"),
    (b"dfrac", b"{\\displaystyle{a\\over b}}", b"\\def\\dfrac#1#2{{\\displaystyle{{#1}\\over{#2}}}}"),
    (b"tfrac", b"{\\textstyle{a\\over b}}", b"\\def\\tfrac#1#2{{\\textstyle{{#1}\\over{#2}}}}"),
    (b"binom", b"{n\\choose k}", b"\\def\\binom#1#2{{{#1}\\choose{#2}}}"),
    (b"text", ROMAN_TEXT, b"\\def\\text#1{{\\rm#1}}"),
    (b"mbox", ROMAN_TEXT, b"\\def\\mbox#1{{\\rm#1}}"),
    (b"mathrm", b"{\\rm d}", b"\\def\\mathrm#1{{\\rm#1}}"),
    (b"operatorname", b"\\mathop{\\rm name}\\nolimits", b"\\def\\operatorname#1{\\mathop{\\rm#1}\\nolimits}"),
    (b"mathcal", b"{\\cal L}", b"\\def\\mathcal#1{{\\cal#1}}"),
    (b"mathit", b"{\\it x}, for which the font list needs a family 4", b"\\def\\mathit#1{{\\it#1}}"),
    (b"mathbf", b"{\\bf x}, for which the font list needs a family 6", b"\\def\\mathbf#1{{\\bf#1}}"),
    (b"mathbb", b"{\\bf R}, for which the font list needs a family 6", b"\\def\\mathbb#1{{\\bf#1}}"),
    (b"textbf", b"{\\bf if\\;}, for which the font list needs a family 6", b"\\def\\textbf#1{{\\bf#1}}"),
    (b"lvert", b"\\vert", b"\\def\\lvert{\\vert}"),
    (b"rvert", b"\\vert", b"\\def\\rvert{\\vert}"),
    (b"lVert", b"\\Vert", b"\\def\\lVert{\\Vert}"),
    (b"rVert", b"\\Vert", b"\\def\\rVert{\\Vert}"),
    (b"dots", b"\\ldots or \\cdots", b"\\def\\dots{\\ldots}"),
    (b"overset", OVER_RELATION, b"\\def\\overset#1#2{\\mathrel{\\mathop{#2}\\limits^{#1}}}"),
    (b"stackrel", OVER_RELATION, b"\\def\\stackrel#1#2{\\mathrel{\\mathop{#2}\\limits^{#1}}}"),
    (b"underset", b"\\mathrel{\\mathop{=}\\limits_a}", b"\\def\\underset#1#2{\\mathrel{\\mathop{#2}\\limits_{#1}}}"),
    (b"substack", b"{\\scriptstyle a\\atop\\scriptstyle b}", b""),
    (b"cases", b"\\left\\{\\matrix{a&b\\cr c&d\\cr}\\right. with centered columns", b"\\def\\cases#1{\\left\\{\\matrix{#1}\\right.}"),
    (b"bmod", b"\\mathbin{\\rm mod}", b"\\def\\bmod{\\mathbin{\\rm mod}}"),
    (b"pmod", b"\\quad({\\rm mod}\\;n)", b"\\def\\pmod#1{\\quad({\\rm mod}\\;#1)}"),
    (b"hspace", b"\\hskip1em", b"\\def\\hspace#1{\\hskip#1\\relax}"),
    (b"color", NO_COLORS, b"\\def\\color#1{}"),
    (b"textcolor", NO_COLORS, b"\\def\\textcolor#1#2{{#2}}"),
    (b"begin", TABLES, b""),
    (b"end", TABLES, b""),
    (b"tag", b"\\eqno(1) at the end of a display", b""),
    (b"label", b"\\eqno(1) at the end of a display, since there are no labels", b""),
    (b"nonumber", NO_NUMBERS, b"\\def\\nonumber{}"),
    (b"notag", NO_NUMBERS, b"\\def\\notag{}"),
    (b"[", b"$$", b""),
    (b"]", b"$$", b""),
    (b"(", b"$", b""),
    (b")", b"$", b""),
];

/// A name, and the text that follows it, or that follows its explanation.
pub type Advice = (&'static [u8], &'static [u8]);

/// What is said of the head of a document.
const FORMULAS_ALONE: &[u8] = b": only formulas, definitions and ends of pages are allowed here";

/// What is said of a definition.
const MACROS: &[u8] = b": write \\def\\a{..}, or \\def\\a#1{..} with an argument";

/// Outside of formulas: names that are not allowed there.
#[rattlefmt::skip]
pub static OUTSIDE_FORMULAS: [Advice; 12] = [
    (b"documentclass", FORMULAS_ALONE),
    (b"usepackage", FORMULAS_ALONE),
    (b"begin", b": environments are LaTeX's; a display is $$..$$"),
    (b"[", b": write $$"),
    (b"]", b": write $$"),
    (b"(", b": write $"),
    (b")", b": write $"),
    (b"newcommand", MACROS),
    (b"renewcommand", MACROS),
    (b"providecommand", MACROS),
    (b"DeclareMathOperator", b": write \\def\\a{\\mathop{\\rm a}\\nolimits}"),
    (b"let", b": write \\def\\a{\\b}"),
];

/// What is said of a name that means something outside of formulas alone.
const OUTSIDE_ALONE: &[u8] = b" is allowed only outside formulas";

/// In formulas: names that are allowed elsewhere alone.
pub static ELSEWHERE: [Advice; 7] = [
    (b"hbox", b" is allowed only in \\vcenter"),
    (b"par", OUTSIDE_ALONE),
    (b"def", OUTSIDE_ALONE),
    (b"mathcode", OUTSIDE_ALONE),
    (b"delcode", OUTSIDE_ALONE),
    (b"eject", OUTSIDE_ALONE),
    (b"bye", OUTSIDE_ALONE),
];

/// Names of plain TeX's and TeX's own that authors type in formulas, and that mathset does not have, with a blank between
/// each two.
pub static OTHER_NAMES: &[u8] =
    b"Longleftarrow Longleftrightarrow Longrightarrow Relbar active allowbreak angle arrowvert begingroup \
    bgroup bigbreak bordermatrix bowtie box braceld bracelu bracerd braceru bracevert buildrel centerline char \
    cong copy ddots displaywidth doteq egroup endgroup endinsert enskip enspace fi footnote global goodbreak \
    halign hang hbar hfil hfill hfilneg hidewidth hookleftarrow hookrightarrow hrule hrulefill hss ialign if \
    iff ifmmode ifx item itemitem joinrel jot lbrack leftarrowfill leftline let lgroup lhook liminf limsup \
    line llap lmoustache long longleftarrow longleftrightarrow longmapsto longrightarrow loop lower \
    magnification magstep mathpalette mathsurround medmuskip medskip midinsert models moveleft moveright \
    multispan muskip narrower negthinspace noalign nobreak noindent nointerlineskip normalbaselines notin null \
    nulldelimiterspace number oalign offinterlineskip oldstyle omit ooalign openup overbrace overleftarrow \
    overrightarrow pageno parindent penalty raise rbrack relbar repeat rgroup rhook rightarrowfill \
    rightleftharpoons rightline rlap rmoustache sb scriptfont scriptscriptfont scriptspace setbox skew slash \
    smallskip sp space span special strut surd tabskip textfont textindent the thickmuskip thinmuskip \
    thinspace topinsert underbar underbrace unhbox unskip upbracefill vadjust valign vbox vdots vfil vfill \
    vfootnote vglue vrule vskip vss vtop";

/// The text that follows a name of [`OTHER_NAMES`].
pub static NOT_HERE: &[u8] = b" is a name of plain TeX that mathset does not have";

/// What is said of a space that is written as `~`, or as a backslash before a space, after its explanation.
pub static SPACE: &[u8] = b": write \\; for a space";

/// What is said of an empty line in a formula.
pub static EMPTY_LINE: &[u8] = b"a formula cannot have an empty line; is the closing $ missing?";
