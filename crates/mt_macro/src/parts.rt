//! How many parts of arguments are kept.
ghost use Rattle.std.specs.Prelude.{◌≡◌, ◌<◌, ◌^◌, [], OnOk, length};
ghost use Rattle.mt_macro.specs.inner.Ends.{joined};
ghost use Rattle.mt_macro.specs.inner.Runs.{sources, left_of, all_tokens, AreBasicRuns, AreLeft};

use crate::bodies::Bodies;
use crate::filling::put_filled;
use crate::stack::{Parts, Rest, next_basic};
use std::alloc::AllocError;

/// The greatest number of parts that a step leaves.
const MAX_PARTS: usize = 200_000;

/// Where there are more parts than that, puts the tokens that are left on the stack as items of the
/// list given and of bodies, and drops the parts. A list is used for it.
pub fn bound_parts<T, B: Bodies<T>>(
    tables: &B,
    list: &[T],
    parts: &mut Parts,
    rest: &mut Rest,
    used: &mut Rest,
) -> Result<(), AllocError>
    requires left { AreLeft (sources (B.token tables.now) (B.placed tables.now) (B.body tables.now) list.now)
        parts.old.runs.items rest.old }
    requires short { length (left_of (sources (B.token tables.now) (B.placed tables.now) (B.body tables.now) list.now)
        parts.old.runs.items rest.old) < 2 ^ 63 }
    ensures left { OnOk result (AreLeft (sources (B.token tables.now) (B.placed tables.now) (B.body tables.now) list.now)
        parts.new.runs.items rest.new) }
    ensures is { OnOk result (left_of (sources (B.token tables.now) (B.placed tables.now) (B.body tables.now) list.now)
        parts.new.runs.items rest.new
        ≡ left_of (sources (B.token tables.now) (B.placed tables.now) (B.body tables.now) list.now) parts.old.runs.items
        rest.old) }
{
    if parts.runs.len() <= MAX_PARTS {
        return Ok(());
    }
    take_basic(tables, list, parts, rest, used)?;
    parts.runs.clear();
    rest.runs.clear();
    rest.count = 0;
    put_filled(tables, list, parts, used, rest)
}

// Takes all tokens that are left, as runs of items of the list given and of bodies.
fn take_basic<T, B: Bodies<T>>(
    tables: &B,
    list: &[T],
    parts: &Parts,
    rest: &mut Rest,
    taken: &mut Rest,
) -> Result<(), AllocError>
    requires left { AreLeft (sources (B.token tables.now) (B.placed tables.now) (B.body tables.now) list.now)
        parts.now.runs.items rest.old }
    requires short { length (left_of (sources (B.token tables.now) (B.placed tables.now) (B.body tables.now) list.now)
        parts.now.runs.items rest.old) < 2 ^ 63 }
    ensures basic { OnOk result (AreBasicRuns (sources (B.token tables.now) (B.placed tables.now) (B.body tables.now)
        list.now) taken.new.runs.items) }
    ensures is { OnOk result (joined (all_tokens
        (sources (B.token tables.now) (B.placed tables.now) (B.body tables.now) list.now) [] taken.new.runs.items)
        ≡ left_of (sources (B.token tables.now) (B.placed tables.now) (B.body tables.now) list.now) parts.now.runs.items
        rest.old) }
{
    taken.runs.clear();
    while let Some(run) = next_basic(tables, list, parts, rest)? {
        taken.runs.push(run)?;
    }
    Ok(())
}
