//! Math lists, which hold one another.
ghost use Rattle.std.specs.Prelude.{◌≡◌, ◌↔◌, IsTrue, slice_get};
ghost use Rattle.std.specs.Option.{option_copied, option_map};
ghost use Rattle.mt_rules.specs.Facts.{IsMathList};
ghost use Rattle.mt_rules.specs.Sequence.{End, NoRows, element_at, row_at, rows_length, sequence_length};
ghost use Rattle.mt_rules.specs.Sequence.{NoTableRows, cells_at, grid_length};
ghost use Rattle.mt_rules.specs.Rows.{grid_of, rows_of};
ghost use Rattle.mt_rules.specs.View.{element_of, sequence_of};

use crate::{Delim, Glue, Kind, Limits, Style, Symbol};
use std::marker::Model;

/// A math list: the items of a formula or of a part of one, in order (The TeXbook, Appendix G).
///
/// A left boundary is only first and a right one only last, both or neither, and middles are only between the
/// two; the four lists of a [`Choice`] have none of these. The nucleus of a vcenter atom is rows or a table; that of a
/// radical atom may be a root, and that of a plain atom a delimiter of a fixed size; these are nowhere else. Veil
/// atoms, and radical atoms whose nucleus is a root, have no scripts.
#[cycle(list)]
#[derive(Drop)]
pub struct MathList {
    items: Vec<Item>,
}

/// Math lists one below another, or the cells of a row of a table from left to right.
#[cycle(list)]
#[derive(Drop)]
pub struct RowList {
    rows: Vec<MathList>,
}

/// The cells of a row of a table, from left to right.
pub type TableRow = RowList;

/// The rows of a table, one below another.
#[cycle(list)]
#[derive(Drop)]
pub struct TableRows {
    rows: Vec<RowList>,
}

/// How a table is laid out.
#[derive(Clone, Copy)]
pub enum Look {
    /// As plain TeX's `\matrix`: the cells are in the middle of their columns, and the columns a quad apart.
    Matrix,
    /// As plain TeX's `\eqalign`: two columns without a gap, the first flush right and the second flush left.
    Equations,
}

/// Cells in rows and columns (The TeXbook, chapters 18 and 19).
#[cycle(list)]
#[derive(Drop)]
pub struct Table {
    /// How it is laid out.
    pub look: Look,
    /// Its rows. They may differ in the number of their cells.
    pub rows: TableRows,
}

/// What is in a math list. Lengths are scaled points, or 65536ths of a math unit (mu) where the name says so.
#[cycle(list)]
#[derive(Drop)]
pub enum Item {
    /// An atom.
    Atom(Box<Atom>),
    /// A fraction, which is spaced as an inner formula.
    Fraction(Box<Fraction>),
    /// A left boundary, as of `\left`.
    Left(Delim),
    /// A middle, as of e-TeX's `\middle`: a delimiter between the boundaries.
    Middle(Delim),
    /// A right boundary, as of `\right`.
    Right(Delim),
    /// The style of what follows in the list.
    Style(Style),
    /// Four lists of which the style chooses one.
    Choice(Box<Choice>),
    /// A space in mu.
    MuSpace(Glue),
    /// A space.
    Space(Glue),
    /// A kern in mu.
    MuKern(i64),
    /// A kern.
    Kern(i64),
    /// At script and scriptscript size it takes away the next item, where that is a space, a kern or another of these.
    Nonscript,
}

/// A nucleus with its scripts.
#[cycle(list)]
#[derive(Drop)]
pub struct Atom {
    /// How it is built.
    pub kind: Kind,
    /// Where the scripts of an operator are.
    pub limits: Limits,
    /// The nucleus.
    pub nucleus: Field,
    /// The superscript.
    pub sup: Field,
    /// The subscript.
    pub sub: Field,
}

/// What the nucleus or a script of an atom holds.
#[cycle(list)]
#[derive(Drop)]
pub enum Field {
    /// Nothing.
    Empty,
    /// A character.
    Sym(Symbol),
    /// A formula.
    List(MathList),
    /// Formulas one below another.
    Rows(RowList),
    /// A table.
    Table(Table),
    /// The degree and the body of a root.
    Root(Box<Root>),
    /// A delimiter of a fixed size.
    Big {
        /// The delimiter.
        delim: Delim,
        /// How large, 0 to 3, as plain TeX's `\big`, `\Big`, `\bigg` and `\Bigg`.
        level: u8,
    },
}

/// A radical with a degree: what is over the beginning of its sign, and what is under it.
#[cycle(list)]
#[derive(Drop)]
pub struct Root {
    /// The degree, which is over the beginning of the sign.
    pub degree: MathList,
    /// The nucleus.
    pub body: Field,
}

/// One formula over another.
#[cycle(list)]
#[derive(Drop)]
pub struct Fraction {
    /// The thickness of the rule in scaled points; `None` for that of the font.
    pub thickness: Option<i64>,
    /// The delimiter before it.
    pub left: Delim,
    /// The delimiter after it.
    pub right: Delim,
    /// The numerator.
    pub num: MathList,
    /// The denominator.
    pub den: MathList,
}

/// Four lists, for display, text, script and scriptscript style.
#[cycle(list)]
#[derive(Drop)]
pub struct Choice {
    /// For display style.
    pub display: MathList,
    /// For text style.
    pub text: MathList,
    /// For script style.
    pub script: MathList,
    /// For scriptscript style.
    pub small: MathList,
}

impl Model for MathList {
    ghost use Rattle.mt_rules.specs.Sequence.{Sequence};

    ghost Value = { Sequence };

    ghost use Rattle.mt_rules.specs.nesting.Steps.{BuildStep, build_steps, sequence_from, sequence_from-steps};
    ghost use Rattle.std.specs.Prelude.{List};
    ghost use Rattle.std.specs.Coded.{codes, code_by, coded_list};

    ghost coded = { code_by (List BuildStep) (coded_list (Prim.hlevel codes)) build_steps sequence_from sequence_from-steps };

    ghost use Rattle.mt_rules.specs.View.{sequence_of};
    ghost use Rattle.mt_rules.specs.Facts.{IsMathList};

    ghost view = { λ l. sequence_of l.items.items };

    ghost invariant = { λ l. IsMathList (sequence_of l.items.items) };

    ghost use Rattle.mt_rules.specs.Sequence.{sequence_size};

    ghost size = { sequence_size };

    ghost use Rattle.mt_rules.specs.nesting.Falls.{falls};

    ghost size_decreases = { λ l h. falls l.items.items };
}

impl Model for RowList {
    ghost use Rattle.mt_rules.specs.Sequence.{Rows};

    ghost Value = { Rows };

    ghost use Rattle.mt_rules.specs.nesting.Steps.{BuildStep, build_steps_of_rows, rows_from, rows_from-steps};
    ghost use Rattle.std.specs.Prelude.{List};
    ghost use Rattle.std.specs.Coded.{codes, code_by, coded_list};

    ghost coded = { code_by (List BuildStep) (coded_list (Prim.hlevel codes)) build_steps_of_rows rows_from rows_from-steps };

    ghost use Rattle.mt_rules.specs.Rows.{rows_of};

    ghost view = { λ l. rows_of l.rows.items };

    ghost use Rattle.mt_rules.specs.Sequence.{rows_size};

    ghost size = { rows_size };

    ghost use Rattle.mt_rules.specs.nesting.RowsFall.{rows_fall};

    ghost size_decreases = { λ l h. rows_fall l.rows.items };
}

impl Model for TableRows {
    ghost use Rattle.mt_rules.specs.Sequence.{TableGrid};

    ghost Value = { TableGrid };

    ghost use Rattle.mt_rules.specs.nesting.Steps.{BuildStep, build_steps_of_grid, grid_from, grid_from-steps};
    ghost use Rattle.std.specs.Prelude.{List};
    ghost use Rattle.std.specs.Coded.{codes, code_by, coded_list};

    ghost coded = { code_by (List BuildStep) (coded_list (Prim.hlevel codes)) build_steps_of_grid grid_from grid_from-steps };

    ghost use Rattle.mt_rules.specs.Rows.{grid_of};

    ghost view = { λ l. grid_of l.rows.items };

    ghost use Rattle.mt_rules.specs.Sequence.{grid_size};

    ghost size = { grid_size };

    ghost use Rattle.mt_rules.specs.nesting.RowsFall.{grid_fall};

    ghost size_decreases = { λ l h. grid_fall l.rows.items };
}

impl Model for Root {
    ghost use Rattle.mt_rules.specs.Sequence.{RootValue};

    ghost Value = { RootValue };

    ghost use Rattle.mt_rules.specs.nesting.Steps.{BuildStep, build_steps_of_root, root_from, root_from-steps};
    ghost use Rattle.std.specs.Prelude.{List};
    ghost use Rattle.std.specs.Coded.{codes, code_by, coded_list};

    ghost coded = { code_by (List BuildStep) (coded_list (Prim.hlevel codes)) build_steps_of_root root_from root_from-steps };

    ghost use Rattle.mt_rules.specs.View.{part_of_field};

    ghost view = { λ r. record { degree = r.degree; body = part_of_field r.body } };

    ghost use Rattle.mt_rules.specs.Sequence.{root_size};

    ghost size = { root_size };

    ghost use Rattle.mt_rules.specs.nesting.Falls.{root_falls};

    ghost size_decreases = { λ r h. root_falls r };
}

// The item at an index.
fn item_at<T>(items: &[T], i: usize) -> Option<&T>
    ensures { option_copied result ≡ slice_get items.now i }
{
    items.get(i)
}

impl MathList {
    /// The list of these items, which are to keep the facts of the type. Takes no memory.
    pub fn from_vec(items: Vec<Item>) -> Self
        requires { IsMathList (sequence_of items.items) }
        ensures { result ≡ sequence_of items.items }
    {
        MathList { items }
    }

    /// The vector of the items. Takes no memory.
    pub fn into_vec(self) -> Vec<Item>
        ensures items { sequence_of result.items ≡ self }
        ensures facts { IsMathList self }
    {
        self.items
    }

    /// The number of items at the outermost level.
    #[tactic(auto, using(crate::proofs::Lists::sequence_length_of))]
    pub fn len(&self) -> usize
        ensures { result ≡ sequence_length self.now }
    {
        self.items.len()
    }

    /// Whether there is no item.
    pub fn is_empty(&self) -> bool
        ensures { IsTrue result ↔ (self.now ≡ End) }
    {
        self.items.is_empty()
    }

    /// The items as a slice.
    pub fn as_slice(&self) -> &[Item]
        ensures items { sequence_of result.now ≡ self.now }
        ensures facts { IsMathList self.now }
    {
        &self.items
    }

    /// The item at an index, counted from 0; `None` past the last one.
    pub fn get(&self, i: usize) -> Option<&Item>
        ensures { option_map element_of (option_copied result) ≡ element_at self.now i }
    {
        item_at(&self.items, i)
    }
}

impl RowList {
    /// The list of these rows. Takes no memory.
    pub fn from_vec(rows: Vec<MathList>) -> Self
        ensures { result ≡ rows_of rows.items }
    {
        RowList { rows }
    }

    /// The vector of the rows. Takes no memory.
    pub fn into_vec(self) -> Vec<MathList>
        ensures { rows_of result.items ≡ self }
    {
        self.rows
    }

    /// The number of rows.
    #[tactic(auto, using(crate::proofs::Lists::rows_length_of))]
    pub fn len(&self) -> usize
        ensures { result ≡ rows_length self.now }
    {
        self.rows.len()
    }

    /// Whether there is no row.
    pub fn is_empty(&self) -> bool
        ensures { IsTrue result ↔ (self.now ≡ NoRows) }
    {
        self.rows.is_empty()
    }

    /// The rows as a slice.
    pub fn as_slice(&self) -> &[MathList]
        ensures { rows_of result.now ≡ self.now }
    {
        &self.rows
    }

    /// The row at an index, counted from 0; `None` past the last one.
    pub fn get(&self, i: usize) -> Option<&MathList>
        ensures { option_copied result ≡ row_at self.now i }
    {
        item_at(&self.rows, i)
    }
}

impl TableRows {
    /// The table's rows in this order. Takes no memory.
    pub fn from_vec(rows: Vec<TableRow>) -> Self
        ensures { result ≡ grid_of rows.items }
    {
        TableRows { rows }
    }

    /// The vector of the rows. Takes no memory.
    pub fn into_vec(self) -> Vec<TableRow>
        ensures { grid_of result.items ≡ self }
    {
        self.rows
    }

    /// The number of rows.
    #[tactic(auto, using(crate::proofs::Lists::grid_length_of))]
    pub fn len(&self) -> usize
        ensures { result ≡ grid_length self.now }
    {
        self.rows.len()
    }

    /// Whether there is no row.
    pub fn is_empty(&self) -> bool
        ensures { IsTrue result ↔ (self.now ≡ NoTableRows) }
    {
        self.rows.is_empty()
    }

    /// The rows as a slice.
    pub fn as_slice(&self) -> &[TableRow]
        ensures { grid_of result.now ≡ self.now }
    {
        &self.rows
    }

    /// The row at an index, counted from 0; `None` past the last one.
    pub fn get(&self, i: usize) -> Option<&TableRow>
        ensures { option_copied result ≡ cells_at self.now i }
    {
        item_at(&self.rows, i)
    }
}
