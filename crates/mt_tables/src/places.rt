//! The order of names, as the numbers of the names.
ghost use Rattle.std.specs.Prelude.{◌≡◌, ◌≤◌, false, map, length};
ghost use Rattle.std.specs.List.{list_any};
ghost use Rattle.std.specs.Str.{bytes_eq};
ghost use Rattle.std.specs.List.Sorted.{IsStrictlySortedBy};
ghost use Rattle.std.specs.Cmp.Lexicographic.{slice_cmp};
ghost use Rattle.std.specs.Ordering.{nat_cmp};
ghost use Rattle.mt_tables.specs.inner.KeptMacros.{name_at};
ghost use Rattle.mt_tables.specs.inner.Places.{IsPlace};

use mt_lexicon::Names;
use std::cmp::Ordering;

/// The name with a number; an empty one where no name has it.
pub fn name_at(names: &Names, number: usize) -> &[u8]
    ensures { result.now ≡ name_at names.now number }
{
    match names.name(number) {
        Some(name) => name,
        None => &[],
    }
}

/// How many of the names in order are before a name that is not among them. It is found by halving.
pub fn place_of(names: &Names, order: &[usize], name: &[u8]) -> usize
    requires sorted { IsStrictlySortedBy (slice_cmp nat_cmp) (map (name_at names.now) order.now) }
    requires absent { list_any (bytes_eq name.now) (map (name_at names.now) order.now) ≡ false }
    ensures is { IsPlace name.now (map (name_at names.now) order.now) result }
    ensures within { result ≤ length order.now }
{
    let mut low = 0;
    let mut high = order.len();
    while low < high {
        let middle = low + (high - low) / 2;
        match name.cmp(name_at(names, order[middle])) {
            Ordering::Greater => low = middle + 1,
            Ordering::Less | Ordering::Equal => high = middle,
        }
    }
    low
}
