//! How an atom is built: the form that its kind and its fields give it (The TeXbook, Appendix G,
//! rules 12, 13 and 17).
ghost use Rattle.std.specs.Prelude.{◌≡◌, List};
ghost use Rattle.mt_rules.specs.Nuclei.{SymbolContent};
ghost use Rattle.mt_rules.specs.Operators.{uses_limits};
ghost use Rattle.mt_arena.specs.Arena.{Held, cell_part};
ghost use Rattle.mt_convert.specs.inner.Forms.{accent_form, form_of, radical_form};
ghost use Rattle.mt_convert.specs.inner.AtomSteps.{class_nucleus};
ghost use Rattle.mt_convert.specs.inner.OnPieces.{SetsNucleusOn};
ghost use Rattle.mt_convert.specs.inner.Turns.{role_value};

use crate::SetFault;
use crate::flat::joining::is_empty;
use crate::flat::passed::JoiningRole;
use crate::set::nucleus::{operator_nucleus, symbol_nucleus};
use mt_arena::{Cell, Noad};
use mt_family::FontSet;
use mt_pieces::Pieces;
use mt_rules::{Class, Delim, Kind, Limits, Style, Symbol};
use mt_scaled::Length;

/// How an atom is built.
#[derive(Clone, Copy)]
pub enum AtomForm {
    /// An operator with its scripts above and below it.
    Limits,
    /// An accent over a symbol whose scripts belong under it.
    AccentInside {
        /// The accent.
        accent: Symbol,
        /// The symbol.
        symbol: Symbol,
    },
    /// A radical with its degree, which has no scripts.
    Root {
        /// The radical sign.
        sign: Delim,
    },
    /// A nucleus with its scripts beside it.
    Beside,
}

// Whether the scripts of an operator are above and below it.
fn uses_limits(limits: Limits, style: Style) -> bool
    ensures { result ≡ uses_limits limits style }
{
    match limits {
        Limits::Always => true,
        Limits::Never => false,
        Limits::Default => style.is_display(),
    }
}

// The form of an atom in a style.
pub(crate) fn form_of(style: Style, atom: &Noad) -> AtomForm
    ensures { (es : List Held) → result ≡ form_of style atom.now.kind atom.now.limits
        (cell_part es atom.now.nucleus) (cell_part es atom.now.sup) (cell_part es atom.now.sub) }
{
    match atom.kind {
        Kind::Plain(Class::Op) if uses_limits(atom.limits, style) => AtomForm::Limits,
        Kind::Accent(accent) => accent_form(accent, atom.nucleus, atom.sup, atom.sub),
        Kind::Radical(sign) => radical_form(sign, atom.nucleus),
        _ => AtomForm::Beside,
    }
}

// The form of an accent: the scripts of a symbol belong under it.
fn accent_form(accent: Symbol, nucleus: Cell, sup: Cell, sub: Cell) -> AtomForm
    ensures { (es : List Held) → result ≡ accent_form accent (cell_part es nucleus) (cell_part es sup) (cell_part es sub) }
{
    match nucleus {
        Cell::Sym(symbol) if !(is_empty(sup) && is_empty(sub)) => {
            AtomForm::AccentInside { accent, symbol }
        }
        _ => AtomForm::Beside,
    }
}

// The form of a radical: a degree is beside it.
fn radical_form(sign: Delim, nucleus: Cell) -> AtomForm
    ensures { (es : List Held) → result ≡ radical_form sign (cell_part es nucleus) }
{
    match nucleus {
        Cell::Root(_) => AtomForm::Root { sign },
        _ => AtomForm::Beside,
    }
}

// The nucleus of a symbol in an atom of this class.
pub(crate) fn class_nucleus(
    pieces: &mut Pieces,
    fonts: &FontSet,
    style: Style,
    class: Class,
    role: JoiningRole,
    symbol: Symbol,
    has_subscript: bool,
) -> Result<Length, SetFault>
    ensures is { SetsNucleusOn result pieces.old pieces.new
        (class_nucleus class fonts.now style (role_value role) (SymbolContent symbol) has_subscript) }
{
    match class {
        Class::Op => operator_nucleus(pieces, fonts, style, symbol, has_subscript),
        _ => symbol_nucleus(pieces, fonts, style, symbol, role, has_subscript),
    }
}
