//! The faults of a source whose rest is read.
ghost use Rattle.std.specs.Prelude.{◌≡◌, ◌≤◌, Err, IfErr, OnOk};
ghost use Rattle.mt_token.specs.Ahead.{ahead, offset, source};
ghost use Rattle.mt_token.specs.Tokens.{fault_of};
ghost use Rattle.mt_reader.specs.SourceFaults.{IsReadToEnd, first_error, source_error};

use crate::document_error::DocError;
use mt_token::{Lexer, TokenError};

/// Why a source has no document, by why its words are not read.
pub fn source_error(error: TokenError) -> DocError
    ensures { result ≡ source_error error }
{
    match error {
        TokenError::OutOfMemory => DocError::OutOfMemory,
        cause => DocError::Source(cause),
    }
}

/// Reads up to the end of a source, without words.
///
/// # Errors
///
/// The fault that is ahead.
pub fn read_to_end(lexer: &mut Lexer<'_>) -> Result<(), TokenError>
    ensures end { OnOk result (IsReadToEnd (ahead lexer.old) (ahead lexer.new)) }
    ensures fault { IfErr result (λ e. ahead lexer.old ≡ Err e) }
    ensures falls { OnOk result (offset lexer.old ≤ offset lexer.new) }
    ensures bytes { source lexer.new ≡ source lexer.old }
{
    while let Some(_) = lexer.step()? {}
    Ok(())
}

/// The fault of a source that is ahead, if there is one, or this error.
pub fn first_error(lexer: &Lexer<'_>, error: DocError) -> DocError
    ensures { result ≡ first_error (fault_of (ahead lexer.now)) error }
{
    let mut rest = *lexer;
    match read_to_end(&mut rest) {
        Ok(()) => error,
        Err(cause) => DocError::Source(cause),
    }
}
