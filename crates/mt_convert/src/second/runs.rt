//! The row of a list without boundaries and middles: spaces and kerns come between the pieces that are there.
ghost use Rattle.std.specs.Prelude.{◌≡◌, ◌≤◌, ◌^◌, false, ℤ, OnOk, Some, drop, length, take};
ghost use Rattle.mt_family.specs.declared.size.Size.{Size};
ghost use Rattle.mt_scaled.specs.Number.{Within};
ghost use Rattle.mt_spacing.specs.Gaps.{spacing_of};
ghost use Rattle.mt_pieces.specs.Gaps.{GapFits};
ghost use Rattle.mt_convert.specs.Current.{opening};
ghost use Rattle.mt_convert.specs.Halfway.{MayMeet};
ghost use Rattle.mt_convert.specs.SecondPass.{all_pieces};
ghost use Rattle.mt_convert.specs.Calls.{RowOn};
ghost use Rattle.mt_convert.specs.inner.Placed.{PlacedFits, PlacesIn, placed_left, placed_values};
ghost use Rattle.mt_convert.specs.inner.Runs.{gap_before, gap_of_spacing, has_boundary, is_boundary, run_of};

use crate::flat::current::Current;
use mt_family::FontSet;
use mt_pieces::{Gap, Pieces, PlacedItem, Run, Space};
use mt_rules::{Class, Glue, Style, math_unit};
use mt_scaled::Length;
use mt_spacing::{math_glue, space_between};
use std::alloc::{AllocError, Global};

// Whether there is a boundary or a middle among the items.
pub(crate) fn has_boundary(items: &[PlacedItem]) -> bool
    ensures { result ≡ has_boundary items.now }
{
    items.iter().any(|item| is_boundary(*item))
}

fn is_boundary(item: PlacedItem) -> bool
    ensures { result ≡ is_boundary item }
{
    matches!(
        item,
        PlacedItem::Left(_) | PlacedItem::Middle(_) | PlacedItem::Right(_)
    )
}

// The pieces of the items, which are those from number `first` on, with the spaces and kerns of the list between them.
pub(crate) fn put_runs(
    pieces: &mut Pieces,
    alloc: Global,
    fonts: &FontSet,
    style: Style,
    first: usize,
    items: &[PlacedItem],
) -> Result<(), AllocError>
    requires first { first ≤ length pieces.old }
    requires placed { PlacesIn items.now (drop first pieces.old) }
    requires inside { has_boundary items.now ≡ false }
    ensures { OnOk result ((size : Size) (wanted : ℤ) → RowOn (take first pieces.old) pieces.new
        (all_pieces fonts.now size wanted (opening style) (placed_values items.now (drop first pieces.old)))) }
{
    let mut runs = pieces.take_runs(alloc);
    let mut current = Current::opening(style);
    for item in items {
        runs.push(run_of(fonts, current, *item))?;
        current = current.after_half(*item);
    }
    pieces.put_gaps(first, runs)
}

// What comes before the pieces of an item that is no boundary, and how many pieces it has.
fn run_of(fonts: &FontSet, current: Current, half: PlacedItem) -> Run
    requires meets { MayMeet current.last (placed_left half) }
    requires fits { PlacedFits half }
    ensures is { result ≡ run_of fonts.now current half }
    ensures fits { GapFits result.gap }
{
    match half {
        PlacedItem::Set { class, count } => Run {
            gap: gap_before(fonts, current, class),
            count,
        },
        PlacedItem::Kern(amount) => alone(Gap::Kern(Length { sp: amount })),
        PlacedItem::Space(glue) => alone(Gap::Space(space_of(glue))),
        _ => alone(Gap::None),
    }
}

// What comes between pieces and has none of its own.
fn alone(gap: Gap) -> Run
    ensures { result ≡ record { gap = gap; count = 0 } }
{
    Run { gap, count: 0 }
}

// The space before an atom.
fn gap_before(fonts: &FontSet, current: Current, class: Class) -> Gap
    requires meets { MayMeet current.last (Some class) }
    ensures is { result ≡ gap_before fonts.now current class }
    ensures fits { GapFits result }
{
    match current.last {
        Some(left) => gap_of_spacing(
            space_between(left, class, current.style),
            math_unit(fonts, current.style),
        ),
        None => Gap::None,
    }
}

// The space of this width, where a math unit has this size.
fn gap_of_spacing(gap: mt_spacing::Gap, unit: Length) -> Gap
    requires unit { Within (2 ^ 31) unit.sp }
    ensures is { result ≡ gap_of_spacing (spacing_of gap) unit.sp }
    ensures fits { GapFits result }
{
    match gap {
        mt_spacing::Gap::None => Gap::None,
        gap => Gap::Space(space_of(math_glue(gap, unit.sp))),
    }
}

fn space_of(glue: Glue) -> Space
    ensures { result ≡ record { width = glue.width; shrink = glue.shrink } }
{
    Space {
        width: glue.width,
        shrink: glue.shrink,
    }
}
