//! Definitions of macros.
ghost use Rattle.std.specs.Prelude.{◌≡◌, ◌≤◌, ◌^◌, true, length, map, OnOk, OnErr};
ghost use Rattle.mt_macro.specs.declared.definition.MacroError.TheVariants.{OutOfMemory};
ghost use Rattle.mt_macro.specs.Table.{macro_of, is_own};
ghost use Rattle.mt_macro.specs.Definition.{body_fault, define, preload, Answers, HasMacroAt};

use crate::braces::first_unmatched;
use crate::own;
use crate::parameters::first_bad_parameter;
use crate::table::Macros;
use mt_scaled::Name;
use mt_token::{Lexicon, Token};
use std::alloc::AllocError;
use thiserror::Error;

/// The greatest number of parameters of a macro (The TeXbook, chapter 20).
pub const MAX_PARAMS: u8 = 9;

/// The greatest number of names of the user's own.
pub const MAX_OWN_NAMES: usize = 1_000;

/// Why a macro was not taken.
#[derive(Clone, Copy, Debug, PartialEq, Eq, Error)]
pub enum MacroError {
    /// There are more than 9 parameters, or a `#` in the body is not followed by a digit from 1 to
    /// their number.
    #[error("a parameter is out of order")]
    BadParameters,
    /// A brace in the body has no partner.
    #[error("a brace in the body has no partner")]
    Unbalanced,
    /// The user has 1,000 names already, and this is not one of them.
    #[error("too many macros")]
    TooMany,
    /// Memory ran out.
    #[error("out of memory")]
    OutOfMemory,
}

impl From<AllocError> for MacroError {
    ghost from_gives = { λ _ e. e ≡ OutOfMemory };

    fn from(_: AllocError) -> Self {
        MacroError::OutOfMemory
    }
}

impl MacroError {
    ghost use Rattle.mt_macro.specs.Errors.{macro_error_number};

    /// The number of the error, from 1 in the order of the variants.
    pub fn number(self) -> u8
        ensures { result ≡ macro_error_number self }
    {
        match self {
            MacroError::BadParameters => 1,
            MacroError::Unbalanced => 2,
            MacroError::TooMany => 3,
            MacroError::OutOfMemory => 4,
        }
    }
}

/// Why a body is no body of a macro with so many parameters; `None` where it is one. Never
/// `OutOfMemory` or `TooMany`.
pub fn body_fault<T, L: Lexicon<T>>(tables: &L, params: u8, body: &[T]) -> Option<MacroError>
    ensures { result ≡ body_fault params (map (L.token tables.now) body.now) }
{
    if params > MAX_PARAMS || first_bad_parameter(tables, params, body).is_some() {
        return Some(MacroError::BadParameters);
    }
    if first_unmatched(tables, body).is_some() {
        return Some(MacroError::Unbalanced);
    }
    None
}

impl Macros {
    /// Defines a macro of the user's, by its name, its number of parameters and its body. A macro
    /// that the name had is replaced.
    ///
    /// # Errors
    ///
    /// The first of these: `BadParameters`, `Unbalanced`, `TooMany`. `OutOfMemory` where memory ran
    /// out. After an error the macros are as before.
    pub fn define(&mut self, name: &Name, params: u8, body: &[Token]) -> Result<(), MacroError>
        requires { length body.now ≤ 2 ^ 32 }
        ensures is { Answers result self.new (define self.old name.now params body.now) }
        ensures put { OnOk result (HasMacroAt self.old self.new name.now
            (record { own = true; params = params; body = body.now })) }
        ensures err { OnErr result (self.new ≡ self.old) }
    {
        if let Some(fault) = own::body_fault(params, body) {
            return Err(fault);
        }
        if !self.is_own(name.as_slice()) && self.own_names() >= MAX_OWN_NAMES {
            return Err(MacroError::TooMany);
        }
        self.put(name, true, params, body)?;
        Ok(())
    }

    /// Defines a macro as [`Macros::define`] does, but makes no name the user's own: a name that is
    /// the user's own stays so, and another does not become so.
    ///
    /// # Errors
    ///
    /// The first of these: `BadParameters`, `Unbalanced`. `OutOfMemory` where memory ran out. After
    /// an error the macros are as before.
    pub fn preload(&mut self, name: &Name, params: u8, body: &[Token]) -> Result<(), MacroError>
        requires { length body.now ≤ 2 ^ 32 }
        ensures is { Answers result self.new (preload self.old name.now params body.now) }
        ensures put { OnOk result (HasMacroAt self.old self.new name.now
            (record { own = is_own (macro_of self.old name.now); params = params; body = body.now })) }
        ensures err { OnErr result (self.new ≡ self.old) }
    {
        if let Some(fault) = own::body_fault(params, body) {
            return Err(fault);
        }
        self.put(name, false, params, body)?;
        Ok(())
    }
}
