//! What is scanned, and the items after it.
use mt_token::Token;

/// A part that was read, and the items after it. An item is a token, or is read as one.
#[derive(Drop)]
pub struct Scanned<'a, V, T = Token> {
    /// The part.
    pub value: V,
    /// The items after it.
    pub rest: &'a [T],
}
