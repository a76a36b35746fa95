//! What holds of all sources.
ghost use Rattle.std.specs.Prelude.{[], ◌++◌, ◌∷◌, ◌≡◌, ◌≤◌, ◌⊎◌, Err, List, Ok, length, ℕ, ℤ};
ghost use Rattle.mt_box.specs.declared.place.Place.{Place};
ghost use Rattle.mt_dvi.specs.Limits.{max_places};
ghost use Rattle.mt_dvi.specs.WrittenPlaces.{all_places};
ghost use Rattle.mt_family.specs.SetValue.{SetValue};
ghost use Rattle.mt_family.specs.Sets.{units_of};
ghost use Rattle.mt_pages.specs.Cuts.{IsCut};
ghost use Rattle.mt_pages.specs.Pages.{document_pages, source_pages};
ghost use Rattle.mt_reader.specs.Cuts.{IsTooMuch, later_pages};
ghost use Rattle.mt_reader.specs.Sources.{source_document};
ghost use Rattle.mt_rules.specs.declared.document.Formula.{Formula};
ghost use Rattle.mt_status.specs.declared.status.Status.TheVariants.{BadFormula};

/// A source that is refused at a formula, or at a token outside of formulas, is refused for a cause
/// that has a number: 0 is the number of none.
#[tactic(auto, using(crate::proofs::PageRefusals::source_has_cause))]
pub fn refused_formula_has_a_cause()
    ensures { (set : SetValue) → (width : ℤ) → (source : List ℕ) → (n token : ℕ)
        → source_pages set width source ≡ Err (BadFormula n token 0) → ⊥ }
{}

/// The pages of a document that is cut are those of its parts, one after another.
///
/// They do not depend on the numbers of formulas, so the second part may be numbered on from the first one. If both
/// parts are placed and have no more places than a document may have, so is the whole; and if the whole is placed, so
/// are both parts.
pub fn cut_pages_are_those_of_the_parts()
    ensures joined { (set : SetValue) → (width : ℤ) → (before : ℕ) → (first second : List (List Formula))
        → (pages more : List (List Place)) → document_pages set width first ≡ Ok pages
        → document_pages set width second ≡ Ok more → length (all_places (pages ++ more)) ≤ max_places
        → document_pages set width (first ++ later_pages before second) ≡ Ok (pages ++ more) }
    ensures cut { (set : SetValue) → (width : ℤ) → (before : ℕ) → (first second : List (List Formula))
        → (all : List (List Place)) → document_pages set width (first ++ later_pages before second) ≡ Ok all
        → (pages : List (List Place)) × (more : List (List Place)) × (document_pages set width first ≡ Ok pages)
        × (document_pages set width second ≡ Ok more) × (all ≡ pages ++ more) }
{}

/// A source that is cut has the pages of its parts, each set by itself, one after another.
///
/// The first part is lines that end with `\eject` and are read to their end. The second part is the rest of the source,
/// with the definitions and assignments of these lines and an empty line in front. If the source is set, so are both
/// parts; and if both parts are set, and have no more places than a document may have, so is the source, if it is not
/// refused for the number of its pages or tokens.
pub fn cut_and_set()
    ensures cut { (set : SetValue) → (width : ℤ) → (lines front rest : List ℕ)
        → IsCut (units_of set) lines front rest
        → (all : List (List Place)) → source_pages set width (lines ++ 10 ∷ rest) ≡ Ok all
        → (pages : List (List Place)) × (more : List (List Place))
        × (source_pages set width (lines ++ 10 ∷ []) ≡ Ok pages)
        × (source_pages set width (front ++ 10 ∷ rest) ≡ Ok more) × (all ≡ pages ++ more) }
    ensures joined { (set : SetValue) → (width : ℤ) → (lines front rest : List ℕ)
        → IsCut (units_of set) lines front rest
        → (pages more : List (List Place)) → source_pages set width (lines ++ 10 ∷ []) ≡ Ok pages
        → source_pages set width (front ++ 10 ∷ rest) ≡ Ok more
        → length (all_places (pages ++ more)) ≤ max_places
        → IsTooMuch (source_document (units_of set) (lines ++ 10 ∷ rest))
        ⊎ (source_pages set width (lines ++ 10 ∷ rest) ≡ Ok (pages ++ more)) }
{}
