//! Formulas of items of any kind.
//!
//! The call takes the items as a slice `&[T]`, and what knows which token an item is read as and what it is in a
//! formula (`R: Roles<T>`). Its clauses speak of the tokens `map (R.token roles.now) list.now`.

pub use crate::formula::read_spans;
