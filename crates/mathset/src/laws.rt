//! What holds of all words and files.
ghost use Rattle.std.specs.Prelude.{[], ◌++◌, ◌∷◌, ◌≡◌, Err, List, Ok, ℕ, ℤ};
ghost use Rattle.mt_box.specs.declared.place.Place.{Place};
ghost use Rattle.mt_dvi.specs.File.{Dvi};
ghost use Rattle.mt_dvi.specs.Written.{Written};
ghost use Rattle.mt_dviops.specs.Copied.{Every};
ghost use Rattle.mt_family.specs.SetValue.{SetValue};
ghost use Rattle.mt_family.specs.Sets.{units_of};
ghost use Rattle.mt_outside.specs.declared.files.Held.{Held};
ghost use Rattle.mt_pages.specs.Cuts.{IsCut};
ghost use Rattle.mt_pages.specs.Pages.{source_pages};
ghost use Rattle.mathset.specs.Answer.{answer};
ghost use Rattle.mathset.specs.Product.{CopiesPages};

use mt_status::Status;

/// No words and files ask for a refusal for lack of memory: the first refusal that the definitions
/// give is never `OutOfMemory`.
///
/// So the lines of the definitions that have it stand for faults that do not occur: a source that
/// is too long for its tokens, a brace of a formula without partner, and lack of memory of the
/// layers below.
#[tactic(auto, using(crate::proofs::NoMemory::answer_avoids))]
pub fn answer_is_never_out_of_memory()
    ensures { (words : List (List ℕ)) → (files : List Held)
        → answer words files ≡ Err Status.OutOfMemory → ⊥ }
{}

/// A source that is cut at the end of a page, set part by part and joined has the pages of the source.
///
/// Let the source and both parts be set: so is each part, where the source is (`cut_and_set` of mt_pages). Let two files
/// be of the pages of the parts, as `set` writes them, and let a third one be the product of `join` of them. Then the
/// machine reads from it the places of the whole source, page by page.
pub fn cut_set_and_joined()
    ensures { (set : SetValue) → (width : ℤ) → (lines front rest : List ℕ)
        → IsCut (units_of set) lines front rest → (all pages more : List (List Place))
        → source_pages set width (lines ++ 10 ∷ rest) ≡ Ok all
        → source_pages set width (lines ++ 10 ∷ []) ≡ Ok pages
        → source_pages set width (front ++ 10 ∷ rest) ≡ Ok more
        → (first second joined : List ℕ) → Written set first pages → Written set second more
        → CopiesPages (record { fonts = set; files = first ∷ second ∷ []; choice = Every }) joined
        → Dvi set joined all }
{}
