//! What holds of all tokens.
ghost use Rattle.std.specs.Prelude.{◌≡◌, ◌⊎◌, ◌+◌, ℕ, Bool, List, length, None, Option};
ghost use Rattle.mt_token.specs.declared.token.Token.{Token};
ghost use Rattle.mt_scaled.specs.declared.unit.Units.{Units};
ghost use Rattle.mt_plain.specs.CodeTables.{CodeTables};
ghost use Rattle.mt_formula.specs.Atoms.{AtomValue};
ghost use Rattle.mt_formula.specs.Answers.{IsFaultWithin, IsFormula};
ghost use Rattle.mt_formula.specs.Formulas.{reading};
ghost use Rattle.mt_formula.specs.Rules.{formula, item_run, run_of};
ghost use Rattle.mt_formula.specs.Runs.{items, tail};
ghost use Rattle.mt_formula.specs.declared.reading.ends.Ending.TheVariants.{AtCell, AtRight};
ghost use Rattle.mt_formula.specs.declared.actions.table_form.Column.{Column};
ghost use Rattle.mt_rules.specs.Sequence.{End, MoreRows, Rows, Sequence};
ghost use Rattle.mt_scan.specs.Parts.{Got, after_spaces, then_read};
ghost use Rattle.mt_scan.specs.declared.role.Preamble.{Preamble};
ghost use Rattle.mt_formula.specs.Groups.{segment_end, segments};
ghost use Rattle.mt_formula.specs.Lists.{list, list_after};
ghost use Rattle.mt_formula.specs.Rows.{first_rows, later_rows, row, rows};
ghost use Rattle.mt_formula.specs.Tables.{cell_end, cell_start, row_or_end, rows_from_step};
ghost use Rattle.mt_formula.specs.Tables.{table_rows};
ghost use Rattle.mt_formula.specs.Whole.{whole_cells, whole_readers, whole_rows};

/// Tokens are a formula, or there is a fault at one of them or behind them: one of the two, and never
/// both.
#[tactic(auto, using(crate::proofs::Deciding::formula_or_fault, crate::proofs::Deciding::not_both))]
pub fn tokens_are_a_formula_or_at_fault()
    ensures either { (tables : CodeTables) → (units : Units) → (display : Bool)
        → (tokens : List Token)
        → IsFormula (reading tables units display tokens)
        ⊎ IsFaultWithin (length tokens) (reading tables units display tokens) }
    ensures not_both { (tables : CodeTables) → (units : Units) → (display : Bool)
        → (tokens : List Token)
        → IsFormula (reading tables units display tokens)
        → IsFaultWithin (length tokens) (reading tables units display tokens) → ⊥ }
{}

/// A formula is read by the rules of its readers, whatever turns are counted: what reads the tail of
/// an atom is made of what reads tails and items, and so is what reads items.
#[tactic(auto, using(crate::proofs::Unrolling::whole_tail, crate::proofs::Unrolling::whole_items, crate::proofs::Unrolling::whole_reading))]
pub fn reading_counts_no_turns()
    ensures tails { (tables : CodeTables) → (units : Units) → (level : ℕ) → (family : Option ℕ)
        → (atom : AtomValue) → (tokens : List Token)
        → (whole_readers tables units).tail level family atom tokens
        ≡ tail tables units (run_of (whole_readers tables units)) (whole_readers tables units).tail
        level family atom tokens }
    ensures items { (tables : CodeTables) → (units : Units) → (level : ℕ) → (family : Option ℕ)
        → (tokens : List Token)
        → (whole_readers tables units).items level family tokens
        ≡ items tables units (run_of (whole_readers tables units)) (whole_readers tables units).tail
        (whole_readers tables units).items level family tokens }
    ensures whole { (tables : CodeTables) → (units : Units) → (display : Bool)
        → (tokens : List Token)
        → formula tables units (item_run tables units (length tokens + 1)) display tokens
        ≡ formula tables units (run_of (whole_readers tables units)) display tokens }
{}

/// And so are the lists between boundaries, the rows of a `\vcenter` and the cells of a table: each
/// by its rules, whatever turns are counted.
#[tactic(auto, using(crate::proofs::Unrolling::segments_by_rules, crate::proofs::Unrolling::rows_by_rules, crate::proofs::Unrolling::first_rows_by_rules, crate::proofs::Unrolling::cells_by_rules, crate::proofs::Unrolling::table_rows_by_rules))]
pub fn parts_of_lists_count_no_turns()
    ensures segments { (tables : CodeTables) → (units : Units) → (level : ℕ) → (family : Option ℕ)
        → (tokens : List Token) → segments tables units (run_of (whole_readers tables units)) level family tokens
        ≡ then_read (list tables units (run_of (whole_readers tables units)) AtRight level family tokens)
        (segment_end tables (segments tables units (run_of (whole_readers tables units)) level family)) }
    ensures rows { (tables : CodeTables) → (units : Units) → (level : ℕ) → (tokens : List Token)
        → rows tables units (run_of (whole_readers tables units)) level tokens
        ≡ first_rows tables units (run_of (whole_readers tables units))
        (whole_rows tables units (run_of (whole_readers tables units)) (level + 1)) tokens }
    ensures row_by_row { (tables : CodeTables) → (units : Units) → (level : ℕ) → (tokens : List Token)
        → whole_rows tables units (run_of (whole_readers tables units)) level tokens
        ≡ then_read (row tables units (run_of (whole_readers tables units)) level tokens)
        (λ (inner : Sequence) (after : List Token).
        then_read (later_rows tables units (run_of (whole_readers tables units))
        (whole_rows tables units (run_of (whole_readers tables units)) level) after)
        (λ (others : Rows) (rest : List Token). Got (MoreRows inner others) rest)) }
    ensures table { (tables : CodeTables) → (units : Units) → (level : ℕ) → (preamble : Preamble)
        → (tokens : List Token)
        → table_rows tables units (run_of (whole_readers tables units)) level preamble tokens
        ≡ then_read (row_or_end tables (after_spaces tokens))
        (rows_from_step (whole_cells tables units (run_of (whole_readers tables units)) level preamble) preamble) }
    ensures cell_by_cell { (tables : CodeTables) → (units : Units) → (level : ℕ) → (preamble : Preamble)
        → (column : Column) → (tokens : List Token)
        → whole_cells tables units (run_of (whole_readers tables units)) level preamble column tokens
        ≡ then_read (list_after tables units (run_of (whole_readers tables units)) End (cell_start column) AtCell
        level None tokens)
        (cell_end tables (whole_cells tables units (run_of (whole_readers tables units)) level preamble)
        preamble column) }
{}
