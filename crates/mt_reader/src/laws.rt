//! What holds of all documents.
ghost use Rattle.std.specs.Prelude.{[], ◌+◌, ◌++◌, ◌∷◌, ◌≡◌, ◌≤◌, ◌⊎◌, IsErr, IsOk, List, None, Ok, Some, codes, length, map, ℕ};
ghost use Rattle.mt_token.specs.declared.token.Token.{Token};
ghost use Rattle.mt_token.specs.Tokens.{Spanned, lex, max_source};
ghost use Rattle.mt_token.specs.declared.lexeme.State.TheVariants.{New};
ghost use Rattle.mt_token.specs.declared.token.TokenKind.TheVariants.{Control};
ghost use Rattle.mt_scaled.specs.declared.unit.Units.{Units};
ghost use Rattle.mt_plain.specs.CodeTables.{CodeTables, plain_codes};
ghost use Rattle.mt_macro.specs.Table.{Table};
ghost use Rattle.mt_reader.specs.Cuts.{AreAlike, IsTooMuch, IsWord, answer_behind, definitions_of, state_after};
ghost use Rattle.mt_reader.specs.Documents.{DocumentState, document};
ghost use Rattle.mt_reader.specs.Documents.{after_page_end, outside_role, pages_from, start_state, turn_answer, turn_by};
ghost use Rattle.mt_reader.specs.Sources.{plain_words, source_document, word_token};
ghost use Rattle.mt_reader.specs.Stops.{document_fault, stop, stop_fault};

/// Tokens are a document, or there is a first fault that refuses it: one of the two, and never both.
#[tactic(auto, using(crate::proofs::Deciding::document_or_fault, crate::proofs::Deciding::not_both))]
pub fn tokens_are_a_document_or_refused()
    ensures either { (units : Units) → (tables : CodeTables) → (macros : Table)
        → (tokens : List Token)
        → IsOk (document units tables macros tokens) ⊎ IsErr (document units tables macros tokens) }
    ensures not_both { (units : Units) → (tables : CodeTables) → (macros : Table)
        → (tokens : List Token)
        → IsOk (document units tables macros tokens) → IsErr (document units tables macros tokens) → ⊥ }
{}

/// As many turns as there are tokens are enough for a document: more of them read the same.
///
/// And so its pages are read turn by turn, whatever is counted: of a source of `whole` tokens, what
/// becomes of the first one decides, and then what is read of those that it leaves.
#[tactic(auto, using(crate::proofs::Falling::turns_enough, crate::proofs::Falling::turn_by_turn))]
pub fn turns_of_a_document_are_enough()
    ensures enough { (units : Units) → (whole turns : ℕ) → (s : DocumentState)
        → (tokens : List Token) → length tokens ≤ turns
        → pages_from units whole turns s tokens ≡ pages_from units whole (length tokens) s tokens }
    ensures turn_by_turn { (units : Units) → (whole : ℕ) → (s : DocumentState) → (t : Token)
        → (rest : List Token) → pages_from units whole (length (t ∷ rest)) s (t ∷ rest)
        ≡ turn_answer units whole
        (λ (after : DocumentState) (left : List Token).
        pages_from units whole (length left) after left)
        (turn_by units s rest (outside_role t.kind)) }
{}

/// Where no formula is looked for, reading stops at the fault for which the document is refused, and at no other.
#[tactic(auto, using(crate::proofs::Stopping::same_fault))]
pub fn reading_stops_at_the_fault()
    ensures { (units : Units) → (tables : CodeTables) → (macros : Table) → (tokens : List Token)
        → stop_fault (stop units None tables macros tokens) ≡ document_fault (document units tables macros tokens) }
{}

/// A document that is cut at the end of a page is read part by part.
///
/// Let its tokens be those of a first part, `\eject`, and those of a second part, and let the first part be read to its
/// end without a fault and without `\bye`. Then reading goes on after `\eject` with what the first part left. Where the
/// first part with its `\eject` is read to its end, so is the part without it.
#[tactic(auto, using(crate::proofs::CutPages::goes_on, crate::proofs::CutBack::read_before_page_end))]
pub fn reading_goes_on_after_a_page()
    ensures goes_on { (units : Units) → (whole : ℕ) → (s after : DocumentState) → (first second : List Token)
        → (eject : Token) → eject.kind ≡ Control (codes "eject")
        → state_after units s first ≡ Some after
        → pages_from units whole (length (first ++ eject ∷ second)) s (first ++ eject ∷ second)
        ≡ pages_from units whole (length second) (after_page_end after) second }
    ensures before { (units : Units) → (s after : DocumentState) → (first : List Token) → (eject : Token)
        → eject.kind ≡ Control (codes "eject")
        → state_after units s (first ++ eject ∷ []) ≡ Some after
        → (before : DocumentState) × (state_after units s first ≡ Some before) × (after ≡ after_page_end before) }
{}

/// The document of both parts is the pages of the first one and then those of the second one, or the first fault of the
/// second one.
///
/// Let the first part, which ends with `\eject`, be read to its end. The second part is read by itself, in the codes and
/// the macros that the first one leaves; its formulas, and the tokens outside of formulas, are counted on. Only the
/// limits of a document can come in between: the whole may be refused for its pages or its tokens, where no part is.
#[tactic(auto, using(crate::proofs::CutBack::cut_after_page_end, crate::proofs::CutBack::part_document))]
pub fn cut_document_is_its_parts()
    ensures whole { (units : Units) → (tables : CodeTables) → (macros : Table) → (after : DocumentState)
        → (first second : List Token) → (eject : Token) → eject.kind ≡ Control (codes "eject")
        → state_after units (start_state tables macros) (first ++ eject ∷ []) ≡ Some after
        → IsTooMuch (document units tables macros (first ++ eject ∷ second))
        ⊎ (document units tables macros (first ++ eject ∷ second)
        ≡ answer_behind after (length first + 1) (document units after.tables after.macros second)) }
    ensures first { (units : Units) → (tables : CodeTables) → (macros : Table) → (after : DocumentState)
        → (first : List Token) → (eject : Token) → eject.kind ≡ Control (codes "eject")
        → state_after units (start_state tables macros) (first ++ eject ∷ []) ≡ Some after
        → document units tables macros (first ++ eject ∷ []) ≡ Ok after.pages }
{}

/// The definitions and assignments of tokens leave by themselves the codes and macros that all of the tokens leave.
///
/// So they can be put in front of a second part in place of the first one, with a control word after them, as `\par`.
/// And so tokens with the same definitions and assignments leave the same, whatever else is between them.
#[tactic(auto, using(crate::proofs::CutTables::same_definitions, crate::proofs::CutTables::definitions_in_front, crate::proofs::CutTables::alike_definitions))]
pub fn definitions_of_a_part_are_enough()
    ensures leave { (units : Units) → (tables : CodeTables) → (macros : Table) → (after : DocumentState)
        → (first : List Token) → state_after units (start_state tables macros) first ≡ Some after
        → state_after units (start_state tables macros) (definitions_of units (start_state tables macros) first)
        ≡ Some (start_state after.tables after.macros) }
    ensures in_front { (units : Units) → (whole : ℕ) → (tables : CodeTables) → (macros : Table)
        → (after : DocumentState) → (first second : List Token) → (word : Token) → IsWord word.kind
        → state_after units (start_state tables macros) first ≡ Some after
        → pages_from units whole
        (length (definitions_of units (start_state tables macros) first ++ word ∷ second))
        (start_state tables macros) (definitions_of units (start_state tables macros) first ++ word ∷ second)
        ≡ pages_from units whole (length (word ∷ second)) (start_state after.tables after.macros)
        (word ∷ second) }
    ensures same { (units : Units) → (tables : CodeTables) → (macros : Table) → (after other : DocumentState)
        → (first second : List Token) → state_after units (start_state tables macros) first ≡ Some after
        → state_after units (start_state tables macros) second ≡ Some other
        → definitions_of units (start_state tables macros) first
        ≡ definitions_of units (start_state tables macros) second
        → (after.tables ≡ other.tables) × (after.macros ≡ other.macros) }
{}

/// A source that is cut after a line that ends with `\eject` is read part by part.
///
/// The first part is its lines, by themselves. The rest is lexed by itself, and read in the codes and macros that the lines
/// leave. So it gives the pages that it gives behind other lines that end with an empty one, if these have no formula
/// and leave the same: the definitions and assignments of the first part do.
#[tactic(auto, using(crate::proofs::CutSources::cut_source, crate::proofs::CutSources::first_source, crate::proofs::CutSources::second_source))]
pub fn cut_source_is_its_parts()
    ensures whole { (units : Units) → (lines rest : List ℕ) → (of_lines of_rest : List Spanned)
        → (first : List Token) → (eject : Token) → (after : DocumentState)
        → length (lines ++ 10 ∷ rest) ≤ max_source
        → lex New 0 0 (lines ++ 10 ∷ []) ≡ Ok of_lines → lex New 0 0 rest ≡ Ok of_rest
        → map word_token of_lines ≡ first ++ eject ∷ [] → eject.kind ≡ Control (codes "eject")
        → state_after units (start_state plain_codes plain_words) (first ++ eject ∷ []) ≡ Some after
        → IsTooMuch (source_document units (lines ++ 10 ∷ rest))
        ⊎ (source_document units (lines ++ 10 ∷ rest)
        ≡ answer_behind after (length first + 1)
        (document units after.tables after.macros (map word_token of_rest))) }
    ensures first { (units : Units) → (lines : List ℕ) → (of_lines : List Spanned) → (first : List Token)
        → (eject : Token) → (after : DocumentState) → length (lines ++ 10 ∷ []) ≤ max_source
        → lex New 0 0 (lines ++ 10 ∷ []) ≡ Ok of_lines
        → map word_token of_lines ≡ first ++ eject ∷ [] → eject.kind ≡ Control (codes "eject")
        → state_after units (start_state plain_codes plain_words) (first ++ eject ∷ []) ≡ Some after
        → source_document units (lines ++ 10 ∷ []) ≡ Ok after.pages }
    ensures second { (units : Units) → (front rest : List ℕ) → (of_front of_rest : List Spanned)
        → (defined : List Token) → (par : Token) → (tables : CodeTables) → (macros : Table)
        → length (front ++ 10 ∷ rest) ≤ max_source
        → lex New 0 0 (front ++ 10 ∷ []) ≡ Ok of_front → lex New 0 0 rest ≡ Ok of_rest
        → map word_token of_front ≡ defined ++ par ∷ [] → par.kind ≡ Control (codes "par")
        → state_after units (start_state plain_codes plain_words) defined ≡ Some (start_state tables macros)
        → AreAlike (source_document units (front ++ 10 ∷ rest))
        (document units tables macros (map word_token of_rest)) }
{}
