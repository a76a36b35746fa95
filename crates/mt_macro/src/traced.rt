//! Tokens that know the macro of whose body they are, and macros with bodies of them.
ghost use Rattle.std.specs.Prelude.{◌≡◌, ℕ, ◌≤◌, ◌^◌, IfOk, length};
ghost use Rattle.mt_macro.specs.PlacedExpansion.{at_call};
ghost use Rattle.mt_macro.specs.Traced.{traced_tokens};
ghost use Rattle.mt_macro.specs.inner.Entries.{body_at};
ghost use Rattle.mt_macro.specs.inner.Tracing.{traced_body};

use crate::bodies::{Bodies, Call, Found};
use crate::expansion::ExpandError;
use crate::table::Macros;
use mt_token::{LentKind, Lexicon, OwnTokens, Token};
use std::alloc::{AllocError, Global};

/// A token after an expansion.
#[derive(Debug, Drop)]
pub struct Traced {
    /// The token; one of a body has the span of the token of the list that calls the macro.
    pub token: Token,
    /// The macro of whose body it is, by its number in the table; `None` where it is of the list.
    pub body: Option<usize>,
}

/// How far a list is expanded.
#[derive(Debug, Drop)]
pub struct Trace {
    /// The tokens without macros; where a macro lacks an argument, those before it in the list of
    /// that step, and the macro. They are not said after another error.
    pub tokens: Vec<Traced>,
    /// Why the list is not expanded, if it is not.
    pub end: Result<(), ExpandError>,
}

/// Macros, with bodies of traced tokens.
#[derive(Drop)]
pub struct TracedMacros<'a> {
    macros: &'a Macros,
    bodies: Vec<Vec<Traced>>,
    ghost tokens: { (n : ℕ) → traced_tokens (traced_body bodies.items n) ≡ body_at macros.now n },
    ghost short: { (n : ℕ) → length (traced_body bodies.items n) ≤ 2 ^ 32 },
}

impl<'a> TracedMacros<'a> {
    /// Those of a table.
    pub fn of(alloc: Global, macros: &'a Macros) -> Result<TracedMacros<'a>, AllocError>
        ensures { IfOk result (λ t. t.macros.now ≡ macros.now) }
    {
        let bodies = traced_bodies(alloc, macros)?;
        Ok(TracedMacros { macros, bodies })
    }
}

// The bodies of the macros of a table.
fn traced_bodies(alloc: Global, macros: &Macros) -> Result<Vec<Vec<Traced>>, AllocError>
    ensures tokens { IfOk result (λ bodies. (n : ℕ)
        → traced_tokens (traced_body bodies.items n) ≡ body_at macros.now n) }
    ensures short { IfOk result (λ bodies. (n : ℕ)
        → length (traced_body bodies.items n) ≤ 2 ^ 32) }
{
    let mut bodies = Vec::new(alloc);
    let mut number = 0;
    while number < macros.len() {
        let Some(entry) = macros.entry(number) else {
            unreachable!()
        };
        bodies.push(traced_list(alloc, entry.meaning.body.as_slice())?)?;
        number += 1;
    }
    Ok(bodies)
}

/// The tokens of a list, which are of no body.
pub fn traced_list(alloc: Global, list: &[Token]) -> Result<Vec<Traced>, AllocError>
    ensures { IfOk result (λ traced. traced_tokens traced.items ≡ list.now) }
{
    let mut traced = Vec::new(alloc);
    for token in list {
        traced.push(Traced {
            token: token.copied(alloc)?,
            body: None,
        })?;
    }
    Ok(traced)
}

// A token with the span of the token that calls the macro of whose body it is.
fn token_at_call(alloc: Global, token: &Token, call: &Token) -> Result<Token, AllocError>
    ensures { IfOk result (λ t. t ≡ at_call call.now token.now) }
{
    Ok(Token {
        kind: token.kind.copied(alloc)?,
        start: call.start,
        end: call.end,
    })
}

impl<'a> Lexicon<Traced> for TracedMacros<'a> {
    ghost token = { λ _ t. t.token };

    fn lent<'b>(&'b self, item: &'b Traced) -> LentKind<'b> {
        OwnTokens.lent(&item.token)
    }

    fn code(&self, item: &Traced) -> u8 {
        OwnTokens.code(&item.token)
    }

    fn is_space(&self, item: &Traced) -> bool {
        OwnTokens.is_space(&item.token)
    }
}

impl<'a> Bodies<Traced> for TracedMacros<'a> {
    ghost use Rattle.std.specs.Prelude.{refl};

    ghost macros = { λ m. m.macros.now };

    ghost body = { λ m n. body_at m.macros.now n };

    ghost placed = { λ _. at_call };

    ghost kept = { λ _ _ _. refl };

    ghost nested = { λ _ _ _ _. refl };

    fn macro_at(&self, item: &Traced) -> Option<Found> {
        self.macros.macro_at(&item.token)
    }

    fn body(&self, number: usize) -> &[Traced] {
        match self.bodies.as_slice().get(number) {
            Some(body) => body.as_slice(),
            None => &[],
        }
    }

    fn put(
        &self,
        alloc: Global,
        item: &Traced,
        call: &Option<Call<'_, Traced>>,
    ) -> Result<Traced, AllocError> {
        match call {
            None => Ok(Traced {
                token: item.token.copied(alloc)?,
                body: item.body,
            }),
            Some(call) => Ok(Traced {
                token: token_at_call(alloc, &item.token, &call.item.token)?,
                body: Some(call.body),
            }),
        }
    }
}
