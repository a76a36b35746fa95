//! Where layouts begin, the lowest one first.
ghost use Rattle.std.specs.Prelude.{◌≡◌, ◌≤◌, ◌<◌, ◌+◌, ◌-◌, ◌++◌, ◌^◌, All, map, take, drop, set, length, reverse, get_or, IfSome, IfNone, OnErr, OnOk};

use crate::marks::moves::cut;
use std::alloc::AllocError;

// From a mark on, before another.
#[derive(Clone, Copy)]
pub(crate) struct Bounds {
    pub(crate) start: usize,
    pub(crate) end: usize,
}

// Where the layouts that have so many under them begin, where all marks end at `end`.
pub(crate) fn start_of(starts: &[usize], i: usize, end: usize) -> usize
    ensures { result ≡ get_or starts.now i end }
{
    if i < starts.len() { starts[i] } else { end }
}

// Where the layout under so many others begins and ends, where all marks end at `end`. None where there are not so many
// layouts.
pub(crate) fn bounds_of(starts: &[usize], under: usize, end: usize) -> Option<Bounds>
    ensures start { IfSome result (λ b. b.start ≡ get_or starts.now (length starts.now - (under + 1)) end) }
    ensures end { IfSome result (λ b. b.end ≡ get_or starts.now (length starts.now - under) end) }
    ensures some { IfSome result (λ b. under < length starts.now) }
    ensures none { IfNone result (length starts.now ≤ under) }
{
    let count = starts.len();
    if count <= under {
        return None;
    }
    Some(Bounds {
        start: start_of(starts, count - (under + 1), end),
        end: start_of(starts, count - under, end),
    })
}

// Where the layout on top begins, or `end` where there is none.
pub(crate) fn top_start(starts: &[usize], end: usize) -> usize
    ensures { result ≡ get_or (reverse starts.now) 0 end }
{
    match starts {
        [.., start] => *start,
        [] => end,
    }
}

// Another start of the layout under so many others.
pub(crate) fn set_start(starts: &mut Vec<usize>, under: usize, start: usize)
    requires { under < length starts.old.items }
    ensures { starts.new.items ≡ set starts.old.items (length starts.old.items - 1 - under) start }
{
    let last = starts.len() - 1;
    starts[last - under] = start;
}

// Without the starts number `first` to `last`, and with those above so much lower.
pub(crate) fn starts_without(starts: &mut Vec<usize>, first: usize, last: usize, by: usize)
    requires first { first ≤ last }
    requires last { last ≤ length starts.old.items }
    ensures { starts.new.items ≡ take first starts.old.items ++ map (λ n. n - by) (drop last starts.old.items) }
{
    cut(starts, first, last);
    lower_all(&mut starts[first..], by);
}

fn lower_all(starts: &mut [usize], by: usize)
    ensures { starts.new ≡ map (λ n. n - by) starts.old }
{
    for i in 0..starts.len() {
        starts[i] = starts[i].saturating_sub(by);
    }
}

// The starts number `first` to `last` once more behind all, for marks that were copied: what began at `from` begins at `to`.
pub(crate) fn copy_starts(
    starts: &mut Vec<usize>,
    first: usize,
    last: usize,
    from: usize,
    to: usize,
) -> Result<(), AllocError>
    requires first { first ≤ last }
    requires last { last ≤ length starts.old.items }
    requires low { All (λ n. n ≤ to) starts.old.items }
    requires small { to < 2 ^ 63 }
    ensures is { OnOk result (starts.new.items ≡ starts.old.items ++ map (λ n. n - from + to) (take (last - first) (drop first starts.old.items))) }
    ensures err { OnErr result (starts.new.items ≡ starts.old.items) }
{
    let count = starts.len();
    starts.extend_from_within(first..last)?;
    raise_all(&mut starts[count..], from, to);
    Ok(())
}

fn raise_all(starts: &mut [usize], from: usize, to: usize)
    requires low { All (λ n. n ≤ to) starts.old }
    requires small { to < 2 ^ 63 }
    ensures { starts.new ≡ map (λ n. n - from + to) starts.old }
{
    for i in 0..starts.len() {
        starts[i] = starts[i].saturating_sub(from) + to;
    }
}
