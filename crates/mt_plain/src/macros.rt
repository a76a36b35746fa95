//! The macros of plain TeX for formulas.
ghost use Rattle.std.specs.Prelude.{◌≡◌, map, Ok, [], ◌∷◌, IfOk, OnOk};
ghost use Rattle.mt_token.specs.Tokens.{source_tokens, spanned};
ghost use Rattle.mt_plain.specs.MacroTexts.{macro_texts};
ghost use Rattle.mt_plain.specs.PlainMacros.{lent_texts, body_of, IsBodyText, AreBodyTexts, PutsIn};
ghost use Rattle.mt_plain.specs.PlainMacros.{HasMacros, plain_table};

use crate::error::CodeError;
use crate::macro_texts::{
    MacroText, accent_macros, delimiter_macros, family_macros, function_macros, limit_macros,
    other_macros,
};
use mt_macro::{MacroError, Macros};
use mt_scaled::Name;
use mt_token::{TokenError, TokenList, tokens};
use std::alloc::{AllocError, Global};

// The body with a text.
fn body_from(alloc: Global, text: &[u8]) -> Result<TokenList, CodeError>
    requires { IsBodyText text.now }
    ensures { IfOk result (λ body. body ≡ body_of text.now) }
{
    match tokens(alloc, text) {
        Ok(body) => Ok(body),
        Err(TokenError::OutOfMemory) => Err(CodeError::OutOfMemory),
        Err(_) => unreachable!(),
    }
}

// Puts in the macro of a name and a text.
fn preload(alloc: Global, macros: &mut Macros, name: &[u8], text: &[u8]) -> Result<(), CodeError>
    requires { IsBodyText text.now }
    ensures { OnOk result (PutsIn macros.old macros.new ((name.now, text.now) ∷ [])) }
{
    let name = Name::from_slice(alloc, name)?;
    let body = body_from(alloc, text)?;
    match macros.preload(&name, 0, body.as_slice()) {
        Ok(()) => Ok(()),
        Err(MacroError::OutOfMemory) => Err(CodeError::OutOfMemory),
        Err(MacroError::BadParameters) => unreachable!(),
        Err(MacroError::Unbalanced) => unreachable!(),
        Err(MacroError::TooMany) => unreachable!(),
    }
}

// Puts in the macros of these names and texts.
fn preload_all(alloc: Global, macros: &mut Macros, list: &[MacroText]) -> Result<(), CodeError>
    requires { AreBodyTexts (lent_texts list.now) }
    ensures { OnOk result (PutsIn macros.old macros.new (lent_texts list.now)) }
{
    for text in list {
        preload(alloc, macros, text.0, text.1)?;
    }
    Ok(())
}

/// The macros of plain TeX for formulas: those of the names of accents, delimiters, functions and
/// families, and a few more.
///
/// # Errors
///
/// `OutOfMemory` where memory ran out.
pub fn plain_macros(alloc: Global) -> Result<Macros, CodeError>
    ensures is { IfOk result (λ macros. macros ≡ plain_table) }
    ensures has { IfOk result (λ macros. HasMacros macros macro_texts) }
    ensures bodies { IfOk result (λ _. map (λ d. source_tokens d.1) macro_texts
        ≡ map (λ d. Ok (map spanned (body_of d.1))) macro_texts) }
{
    let mut macros = Macros::empty(alloc);
    preload_all(alloc, &mut macros, accent_macros())?;
    preload_all(alloc, &mut macros, delimiter_macros())?;
    preload_all(alloc, &mut macros, other_macros())?;
    preload_all(alloc, &mut macros, family_macros())?;
    preload_all(alloc, &mut macros, function_macros())?;
    preload_all(alloc, &mut macros, limit_macros())?;
    Ok(macros)
}
