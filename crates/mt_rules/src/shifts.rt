//! How far parts of a formula are shifted.

/// How far two parts of a formula are shifted from its baseline, in scaled points: a superscript or
/// a numerator up, a subscript or a denominator down.
#[derive(Clone, Copy, Debug, PartialEq, Eq)]
pub struct Shifts {
    /// Upward.
    pub up: i64,
    /// Downward.
    pub down: i64,
}
