//! The items of a formula after expansion, in memory that later formulas take again.
ghost use Rattle.std.specs.Prelude.{◌≡◌, ◌≤◌, None, OnOk, length, map};
ghost use Rattle.mt_macro.specs.Braces.{first_unmatched};
ghost use Rattle.mt_macro.specs.Expansion.{expansion, ExpandsTo};
ghost use Rattle.mt_macro.specs.Limits.{max_tokens};

use crate::document_tables::DocumentTables;
use mt_macro::{ExpandError, Expander};
use std::alloc::Global;

/// The items of the formula that was expanded last, and the memory of its expansion.
#[derive(Drop)]
pub struct ExpandedItems<T> {
    expander: Expander,
    items: Vec<T>,
}

impl<T: Drop> ExpandedItems<T> {
    /// No formula is expanded yet. Memory is taken by this allocator.
    pub fn new(alloc: Global) -> ExpandedItems<T> {
        ExpandedItems {
            expander: Expander::new(alloc),
            items: Vec::new(alloc),
        }
    }

    /// Expands a formula in which each brace has its partner: its items are then those without macros.
    ///
    /// # Errors
    ///
    /// Those of [`mt_macro::expand`].
    pub fn expand<B: DocumentTables<T>>(
        &mut self,
        tables: &B,
        list: &[T],
    ) -> Result<(), ExpandError>
        requires { first_unmatched 0 (map (B.token tables.now) list.now) ≡ None }
        ensures is { ExpandsTo result (map (B.token tables.now) self.new.items.items)
            (expansion (B.macros tables.now) (map (B.token tables.now) list.now)) }
        ensures short { OnOk result (length self.new.items.items ≤ max_tokens) }
    {
        self.expander.expand_matched(tables, list, &mut self.items)
    }

    /// The items of the formula that was expanded last.
    pub fn items(&self) -> &[T]
        ensures { result.now ≡ self.now.items.items }
    {
        &self.items
    }
}
