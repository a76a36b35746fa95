//! What holds of files of all pages.
ghost use Rattle.std.specs.Prelude.{List, ℕ};
ghost use Rattle.mt_dvi.specs.File.{Dvi};
ghost use Rattle.mt_dvi.specs.Written.{Written};
ghost use Rattle.mt_dviops.specs.Copied.{Every};
ghost use Rattle.mt_dviops.specs.PagesRead.{IsReadAs, ReadsChosen};
ghost use Rattle.mt_dviops.specs.Parts.{AllWritten, Part, SamePages, all_parts, parts_pages};
ghost use Rattle.mt_family.specs.SetValue.{SetValue};

/// A document that is cut at pages, set part by part and joined has the pages of the whole.
///
/// Let each file be one that `set` wrote of the pages of its part, and let the joined file read as all
/// pages of the files, as `join` says of what it wrote. Then the machine reads these places from it: those
/// of the parts, one after another. Its pages are those of the parts with all their counts; and where a
/// file is one that `set` wrote of all pages at once, the joined file has the same pages, but for the
/// counts: each place with its font by its number in the font list, and whether it goes by put.
#[tactic(auto, using(crate::proofs::PartPages::joined_parts, crate::proofs::PartPages::joined_dvi, crate::proofs::PartPages::same_as_whole))]
pub fn cut_and_joined()
    ensures places { (fonts : SetValue) → (files : List (List ℕ)) → (parts : List Part) → (joined : List ℕ)
        → AllWritten fonts files parts → ReadsChosen fonts files Every joined
        → Dvi fonts joined (all_parts parts) }
    ensures pages { (fonts : SetValue) → (files : List (List ℕ)) → (parts : List Part) → (joined : List ℕ)
        → AllWritten fonts files parts → ReadsChosen fonts files Every joined
        → IsReadAs fonts joined (parts_pages fonts parts) }
    ensures same { (fonts : SetValue) → (files : List (List ℕ)) → (parts : List Part) → (joined whole : List ℕ)
        → AllWritten fonts files parts → ReadsChosen fonts files Every joined
        → Written fonts whole (all_parts parts) → SamePages fonts joined whole }
{}
