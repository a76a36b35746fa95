//! Marks of names, by which most names that were not put in are found without a look-up.
ghost use Rattle.std.specs.Prelude.{◌≡◌, ◌<◌, ℕ, List, true};
ghost use Rattle.mt_macro.specs.inner.Marks.{mark_count, mark_of, has_mark};

use mt_token::name_hash;

/// How many marks there are. With so many, most names of formulas that are no macros of plain TeX
/// have a mark that none of its macros has.
const MARK_COUNT: usize = 512;

/// A mark for each name that was put in; names may share one. A name without its mark was not put
/// in.
#[derive(Debug, Drop)]
pub struct NameMarks {
    marks: [bool; MARK_COUNT],
}

impl NameMarks {
    /// No marks.
    pub fn none() -> NameMarks {
        NameMarks {
            marks: [false; MARK_COUNT],
        }
    }

    /// Whether a name has its mark.
    pub fn has(&self, name: &[u8]) -> bool
        ensures { result ≡ has_mark self.now name.now }
    {
        self.marks[mark_of(name)]
    }

    /// Gives a name its mark.
    pub fn add(&mut self, name: &[u8])
        ensures name { has_mark self.new name.now ≡ true }
        ensures others { (other : List ℕ) → has_mark self.old other ≡ true
            → has_mark self.new other ≡ true }
    {
        self.marks[mark_of(name)] = true;
    }
}

// The mark of a name.
fn mark_of(name: &[u8]) -> usize
    ensures is { result ≡ mark_of name.now }
    ensures small { result < mark_count }
{
    name_hash(name) % MARK_COUNT
}
