//! The lines of a page.
ghost use Rattle.std.specs.Prelude.{◌≡◌, ◌++◌, [], All, IfOk, List, OnOk, length};
ghost use Rattle.mt_display.specs.LineStack.{IsStack};
ghost use Rattle.mt_display.specs.Lines.{LineValue};
ghost use Rattle.mt_reader.specs.Weights.{HasModestLists, page_weight};
ghost use Rattle.mt_pages.specs.Pages.{PageLinesValue, no_lines, page_lines, with_formula_lines};
ghost use Rattle.mt_pages.specs.LineWidth.{IsLineWidth};
ghost use Rattle.mt_pages.specs.inner.Lines.{IsPage, SetsPageLines};

use crate::formula_lines::formula_lines;
use mt_display::LineStack;
use mt_family::FontSet;
use mt_reader::ArenaPage;
use mt_status::Status;
use std::alloc::{AllocError, Global};

// How many pieces there is room for at first: those of twenty short formulas.
const PIECES: usize = 256;

/// The lines of a page, and of each the number of its formula.
#[derive(Drop)]
pub struct PageLines {
    /// The lines, from the top of the page downward.
    pub stack: LineStack,
    /// The number of the formula of each line.
    pub formulas: Vec<u32>,
}

impl PageLines {
    /// Without lines.
    pub fn new(alloc: Global) -> Result<PageLines, AllocError>
        ensures { IfOk result (λ lines. IsPage no_lines lines) }
    {
        Ok(PageLines {
            stack: LineStack::with_capacity(alloc, PIECES)?,
            formulas: Vec::new(alloc),
        })
    }

    // Without lines. What memory they had stays.
    fn clear(&mut self)
        ensures { IsPage no_lines self.new }
    {
        self.stack.clear();
        self.formulas.clear();
    }

    // The lines that have no number yet are of formula n.
    fn number_lines(&mut self, n: u32) -> Result<(), AllocError>
        ensures { (page : PageLinesValue) (added : List LineValue)
            → IsStack (page.lines ++ added) [] self.old.stack
            → self.old.formulas.items ≡ page.formulas → length page.formulas ≡ length page.lines
            → OnOk result (IsPage (with_formula_lines page n added) self.new) }
    {
        self.formulas.resize(self.stack.shifts.len(), n)?;
        Ok(())
    }
}

/// The lines of a page's formulas, in order, in place of those that are there. A displayed formula is in a line that is
/// `width` scaled points wide.
///
/// # Errors
///
/// The first refusal of a formula, in order. What lines there are after it is not said.
pub fn page_lines(
    lines: &mut PageLines,
    alloc: Global,
    fonts: &FontSet,
    width: i64,
    page: &ArenaPage,
) -> Result<(), Status>
    requires width { IsLineWidth width }
    requires modest { All HasModestLists page.now }
    ensures { SetsPageLines fonts.now (page_weight page.now) result lines.new
        (page_lines fonts.now width no_lines page.now) }
{
    lines.clear();
    let (arena, formulas) = page.parts();
    for formula in formulas {
        formula_lines(&mut lines.stack, alloc, fonts, width, arena, formula)?;
        lines.number_lines(formula.number)?;
    }
    Ok(())
}
