//! Places in a source.
ghost use Rattle.std.specs.Prelude.{IfSome};
ghost use Rattle.mt_locate.specs.Places.{IsAt, IsPlaceIn, offset_within};

use mt_macro::Traced;
use mt_reader::{DocError, TokenTables};
use mt_scaled::{Items, Name};
use mt_token::Token;

/// A macro that a source defines.
#[derive(Debug, Drop)]
pub struct Definition {
    /// Its name.
    pub name: Name,
    /// The offset of its `\def`, the last one of that name before the fault.
    pub offset: usize,
}

/// A formula with a fault at one of its tokens, as it is read.
#[derive(Drop)]
pub struct FaultyFormula {
    /// Its tokens after expansion; where a macro lacks an argument, those up to this macro at that step.
    pub tokens: Items<Traced>,
    /// The index of the token at fault; that of the end where a token is missing there.
    pub index: usize,
    /// Whether it is a display.
    pub is_display: bool,
    /// The codes of characters and the macros that are in force there.
    pub tables: TokenTables,
}

/// Where a fault is in a source.
#[derive(Drop)]
pub struct Located {
    /// The offset of the byte at which it is, or that of the source's end.
    pub offset: usize,
    /// The fault, where it is one of the reading; none for one of the setting.
    pub fault: Option<DocError>,
    /// The token at fault, or the macro that lacks an argument; none where no single token is.
    pub token: Option<Token>,
    /// The macro of the source in whose body the token is, or which lacks the argument.
    pub definition: Option<Definition>,
    /// The formula, where a token of it is at fault.
    pub formula: Option<FaultyFormula>,
}

/// A fault at an offset, where no single token is at fault; `None` past the end.
pub fn located_at(source: &[u8], offset: usize, fault: Option<DocError>) -> Option<Located>
    ensures is { IfSome result (IsPlaceIn source.now) }
    ensures at { IsAt result fault (offset_within source.now offset) }
{
    if offset > source.len() {
        return None;
    }
    Some(Located {
        offset,
        fault,
        token: None,
        definition: None,
        formula: None,
    })
}
