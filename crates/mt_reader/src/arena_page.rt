//! The formulas of a page, with all their lists in one arena.
ghost use Rattle.std.specs.Prelude.{◌≡◌, ◌≤◌, ◌++◌, ◌∷◌, ◌^◌, [], All, IfOk, OnErr, OnOk, length, map};
ghost use Rattle.mt_scaled.specs.Number.{Within};
ghost use Rattle.mt_formula.specs.Formulas.{reading};
ghost use Rattle.mt_reader.specs.ArenaPages.{AddsFormula, KeptFormula, page_formula};
ghost use Rattle.mt_reader.specs.Documents.{is_empty_page};

use mt_arena::{Arena, SpanFormula, formula_of};
use mt_formula::ReadError;
use mt_formula::items::read_spans;
use mt_rules::{Formula, Page};
use mt_scaled::{Items, Units};
use mt_scan::Roles;
use std::alloc::{AllocError, Global};
use std::marker::Model;

/// A formula of a page, with its lists in the arena of the page.
#[derive(Clone, Copy)]
pub struct PageFormula {
    /// The number of the formula, counted from 1 through the document.
    pub number: u32,
    /// Whether it is displayed.
    pub display: bool,
    /// Its body, and the number at its side.
    pub spans: SpanFormula,
}

/// The formulas of a page, with all their lists in one arena. Contracts see the formulas.
#[derive(Drop)]
pub struct ArenaPage {
    arena: Arena,
    formulas: Vec<PageFormula>,
}

impl Model for ArenaPage {
    ghost use Rattle.std.specs.Prelude.{List};
    ghost use Rattle.mt_rules.specs.declared.document.Formula.{Formula};

    ghost Value = { List Formula };

    ghost use Rattle.mt_rules.specs.contracts.document.Formula as formula;
    ghost use Rattle.std.specs.Coded.{codes};

    ghost coded = { Prim.hlevel (codes, formula.the_row.coded) };

    ghost use Rattle.mt_reader.specs.inner.PageView.{page_value, ArePageLists};

    ghost view = { page_value };

    ghost invariant = { ArePageLists };
}

// A formula with lists of its own.
fn formula_alone(alloc: Global, arena: &Arena, formula: &PageFormula) -> Result<Formula, AllocError>
    requires { KeptFormula arena.now.closed formula.now }
    ensures { IfOk result (λ f. f ≡ page_formula arena.now.closed formula.now) }
{
    let (body, tag) = formula_of(alloc, arena, formula.spans)?;
    Ok(Formula {
        number: formula.number,
        display: formula.display,
        body,
        tag,
    })
}

// The same formulas with lists of their own.
fn formulas_alone(
    alloc: Global,
    arena: &Arena,
    formulas: &[PageFormula],
) -> Result<Vec<Formula>, AllocError>
    requires { All (KeptFormula arena.now.closed) formulas.now }
    ensures { IfOk result (λ page. page.items ≡ map (page_formula arena.now.closed) formulas.now) }
{
    let mut page = Vec::with_capacity(alloc, formulas.len())?;
    for formula in formulas {
        page.push(formula_alone(alloc, arena, formula)?)?;
    }
    Ok(page)
}

// Puts a formula behind the others. On an error nothing has changed.
fn push_formula(formulas: &mut Vec<PageFormula>, formula: PageFormula) -> Result<(), AllocError>
    ensures is { OnOk result (formulas.new.items ≡ formulas.old.items ++ formula ∷ []) }
    ensures err { OnErr result (formulas.new.items ≡ formulas.old.items) }
{
    formulas.push(formula)?;
    Ok(())
}

impl ArenaPage {
    /// Without formulas.
    pub fn new(alloc: Global) -> ArenaPage
        ensures { result ≡ [] }
    {
        ArenaPage {
            arena: Arena::new(alloc),
            formulas: Vec::new(alloc),
        }
    }

    /// Takes out all formulas. The memory is kept for those that are read later.
    pub fn clear(&mut self)
        ensures { self.new ≡ [] }
    {
        self.arena.clear();
        self.formulas.clear();
    }

    /// Whether there are no formulas.
    pub fn is_empty(&self) -> bool
        ensures { result ≡ is_empty_page self.now }
    {
        self.formulas.is_empty()
    }

    /// Reads a formula of this number by its tokens without macros, and puts it behind the others.
    ///
    /// # Errors
    ///
    /// Those of [`read_spans`]. What formulas there are after an error is not said.
    pub fn read<T, R: Roles<T>>(
        &mut self,
        roles: &R,
        units: Units,
        number: u32,
        display: bool,
        tokens: &[T],
    ) -> Result<(), ReadError>
        requires length { length tokens.now ≤ 2 ^ 31 }
        requires em { Within (2 ^ 31) units.em }
        requires ex { Within (2 ^ 31) units.ex }
        ensures { AddsFormula result self.old self.new number display
            (reading (R.codes roles.now) units display (map (R.token roles.now) tokens.now)) }
    {
        match read_spans(&mut self.arena, roles, units, display, tokens) {
            Ok(spans) => {
                let formula = PageFormula {
                    number,
                    display,
                    spans,
                };
                push_formula(&mut self.formulas, formula)?;
                Ok(())
            }
            Err(error) => {
                self.arena.clear();
                self.formulas.clear();
                Err(error)
            }
        }
    }

    /// The arena of the page, and the formulas, whose lists are in it.
    pub fn parts(&self) -> (&Arena, &[PageFormula])
        ensures is { self.now ≡ map (page_formula result.0.now.closed) result.1.now }
        ensures kept { All (KeptFormula result.0.now.closed) result.1.now }
    {
        (&self.arena, &self.formulas)
    }

    /// The same formulas with lists of their own.
    pub fn to_page(&self, alloc: Global) -> Result<Page, AllocError>
        ensures { IfOk result (λ page. page ≡ self.now) }
    {
        let page = formulas_alone(alloc, &self.arena, &self.formulas)?;
        Ok(Items::from_vec(page))
    }
}
