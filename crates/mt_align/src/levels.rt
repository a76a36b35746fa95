//! The levels of boxes of cells.
ghost use Rattle.std.specs.Prelude.{◌≡◌, ◌≤◌, ◌<◌, ◌+◌, ◌^◌, All};
ghost use Rattle.mt_align.specs.Cells.{boxes_level, table_level};

use crate::{CellRow, CellRows};

// One more than the greatest level of the rows, each of which is one above the greatest of its cells.
pub(crate) fn level_of_table(rows: &CellRows) -> u32
    requires levels { All (λ cells. All (λ b. b.level + 4 ≤ 2 ^ 20) cells) rows.now }
    ensures is { result ≡ table_level rows.now }
    ensures low { 1 ≤ result }
    ensures small { result ≤ 2 ^ 20 }
{
    let rows = rows.as_slice();
    let mut level = 1;
    for i in (0..rows.len()).rev() {
        level = level.max(level_of_row(&rows[i]) + 1);
    }
    level
}

// One more than the greatest level of the cells.
fn level_of_row(cells: &CellRow) -> u32
    requires levels { All (λ b. b.level + 4 ≤ 2 ^ 20) cells.now }
    ensures is { result ≡ boxes_level cells.now }
    ensures small { result < 2 ^ 20 }
{
    let cells = cells.as_slice();
    let mut level = 1;
    for i in (0..cells.len()).rev() {
        level = level.max(cells[i].level() + 1);
    }
    level
}
