//! Kerns and spaces put between pieces that are there.
ghost use Rattle.std.specs.Prelude.{◌≡◌, ◌≤◌, ◌+◌, ◌-◌, ◌++◌, IfOk, List, OnOk, OnErr, [], drop, length, min, take};
ghost use Rattle.mt_box.specs.declared.marks.row.RowPart.{RowPart};
ghost use Rattle.mt_pieces.specs.Gaps.{gap_pieces, with_gaps, AllRunsFit};
ghost use Rattle.mt_pieces.specs.inner.GapParts.{gap_parts, is_no_gap};

use crate::pieces::{Pieces, Space};
use crate::runs::end_of_run;
use mt_box::{Marks, RowPart, cut};
use mt_scaled::Length;
use std::alloc::{AllocError, Global};

/// What comes between two pieces.
#[derive(Clone, Copy, Debug, PartialEq, Eq)]
pub enum Gap {
    /// Nothing.
    None,
    /// So many scaled points, at most 2^40 in size.
    Kern(Length),
    /// A space.
    Space(Space),
}

/// Some pieces one after another, and what comes before them.
#[derive(Clone, Copy, Debug, PartialEq, Eq)]
pub struct Run {
    /// What comes before the pieces.
    pub gap: Gap,
    /// How many pieces there are.
    pub count: usize,
}

impl Pieces {
    /// An empty list for runs, with the memory of the one that [`Pieces::put_gaps`] took last. Pieces stay.
    pub fn take_runs(&mut self, alloc: Global) -> Vec<Run>
        ensures same { self.new ≡ self.old }
        ensures is { result.items ≡ [] }
    {
        let mut runs = std::mem::replace(&mut self.runs, Vec::new(alloc));
        runs.clear();
        runs
    }

    /// Puts the gaps of these runs before their pieces, which are those from number `first` on, in their order. Pieces
    /// after those of the runs stay behind them. The memory of the list is kept for [`Pieces::take_runs`].
    pub fn put_gaps(&mut self, first: usize, runs: Vec<Run>) -> Result<(), AllocError>
        requires { AllRunsFit runs.items }
        ensures { OnOk result (self.new ≡ take first self.old ++ with_gaps gap_pieces runs.items (drop first self.old)) }
    {
        let put = put_between(&mut self.marks, &mut self.parts, first, &runs);
        self.runs = runs;
        put
    }
}

// The same of parts, whose layers stay. After a fault there are no parts and no layers.
fn put_between(
    marks: &mut Marks,
    parts: &mut Vec<RowPart>,
    first: usize,
    runs: &[Run],
) -> Result<(), AllocError>
    ensures marks { OnOk result (marks.new ≡ marks.old) }
    ensures parts { OnOk result (parts.new.items
        ≡ take first parts.old.items ++ with_gaps gap_parts runs.now (drop first parts.old.items)) }
    ensures no_marks { OnErr result (marks.new ≡ []) }
    ensures no_parts { OnErr result (parts.new.items ≡ []) }
{
    let put = spread(parts, first, runs);
    if put.is_err() {
        marks.clear();
        parts.clear();
    }
    put
}

// The parts from number `first` on with the gaps of the runs. Those before the first gap stay where they are.
fn spread(parts: &mut Vec<RowPart>, first: usize, runs: &[Run]) -> Result<(), AllocError>
    ensures { OnOk result (parts.new.items
        ≡ take first parts.old.items ++ with_gaps gap_parts runs.now (drop first parts.old.items)) }
{
    let lead = lead_of(runs, first, parts.len());
    spread_from(parts, lead.start, &runs[lead.runs..])
}

// The runs before the first gap.
#[derive(Clone, Copy)]
struct Lead {
    // how many there are
    runs: usize,
    // where the parts after them begin
    start: usize,
}

// The runs before the first gap, where there are so many parts and those of the runs begin with number `first`.
fn lead_of(runs: &[Run], first: usize, end: usize) -> Lead
    ensures runs { result.runs ≤ length runs.now }
    ensures start { result.start ≤ end }
    ensures is { (parts : List RowPart) → end ≡ length parts
        → take first parts ++ with_gaps gap_parts runs.now (drop first parts)
        ≡ take result.start parts ++ with_gaps gap_parts (drop result.runs runs.now) (drop result.start parts) }
{
    let mut lead = Lead {
        runs: 0,
        start: first.min(end),
    };
    for run in runs {
        if !is_none(run.gap) {
            return lead;
        }
        lead = Lead {
            runs: lead.runs + 1,
            start: end_of_run(lead.start, run.count, end),
        };
    }
    lead
}

fn is_none(gap: Gap) -> bool
    ensures { result ≡ is_no_gap gap }
{
    matches!(gap, Gap::None)
}

// The parts from number `start` on with the gaps of the runs.
fn spread_from(parts: &mut Vec<RowPart>, start: usize, runs: &[Run]) -> Result<(), AllocError>
    requires { start ≤ length parts.old.items }
    ensures { OnOk result (parts.new.items
        ≡ take start parts.old.items ++ with_gaps gap_parts runs.now (drop start parts.old.items)) }
{
    if runs.is_empty() {
        return Ok(());
    }
    let end = parts.len();
    let mut from = start;
    for run in runs {
        from = put_run(parts, *run, from, end)?;
    }
    copy_parts(parts, from, end)?;
    cut(parts, start, end);
    Ok(())
}

// The gap of a run and its parts, which are those from `from` on before `end`, once more behind all parts. The answer is
// where the parts after them begin.
fn put_run(parts: &mut Vec<RowPart>, run: Run, from: usize, end: usize) -> Result<usize, AllocError>
    requires from { from ≤ end }
    requires end { end ≤ length parts.old.items }
    ensures parts { OnOk result (parts.new.items ≡ parts.old.items ++ (gap_parts run.gap
        ++ take run.count (take (end - from) (drop from parts.old.items)))) }
    ensures after { IfOk result (λ n. n ≡ min (from + run.count) end) }
{
    put_gap(parts, run.gap)?;
    let after = end_of_run(from, run.count, end);
    copy_parts(parts, from, after)?;
    Ok(after)
}

// The parts from `start` on before `end` once more behind all parts. These are few, so they are copied one by one.
fn copy_parts(parts: &mut Vec<RowPart>, start: usize, end: usize) -> Result<(), AllocError>
    requires start { start ≤ end }
    requires end { end ≤ length parts.old.items }
    ensures { OnOk result (parts.new.items ≡ parts.old.items ++ take (end - start) (drop start parts.old.items)) }
{
    for i in start..end {
        let part = parts[i];
        parts.push(part)?;
    }
    Ok(())
}

fn put_gap(parts: &mut Vec<RowPart>, gap: Gap) -> Result<(), AllocError>
    ensures { OnOk result (parts.new.items ≡ parts.old.items ++ gap_parts gap) }
{
    match gap {
        Gap::None => Ok(()),
        Gap::Kern(width) => Ok(parts.push(RowPart::Gap(width.sp))?),
        Gap::Space(Space { width, shrink }) => Ok(parts.push(RowPart::Space { width, shrink })?),
    }
}
