//! What all lists of a formula are set with.

use mt_arena::Arena;
use mt_family::FontSet;
use std::alloc::Global;

// The fonts, and the arena that the lists are in.
#[derive(Clone, Copy)]
pub(crate) struct Context<'a> {
    pub(crate) alloc: Global,
    pub(crate) fonts: &'a FontSet,
    pub(crate) arena: &'a Arena,
}
