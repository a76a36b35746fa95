//! Where a display is in its line, and what that leaves (tex.web §1202 to §1204).
ghost use Rattle.std.specs.Prelude.{◌≡◌, ◌^◌, ◌+◌, ◌-ℤ◌, ℕ};
ghost use Rattle.mt_scaled.specs.Number.{Within, max_dimen};
ghost use Rattle.mt_box.specs.Extents.{ExtentsInRange};
ghost use Rattle.mt_display.specs.Displays.{indent as indent_of, room_between as room_of};
ghost use Rattle.mt_display.specs.inner.Fits.{IsSmallSlot};

use mt_box::Packed;
use mt_scaled::Length;

// The line's width z, the display's width w as it is set, the width e of the number beside it or 0,
// and whether the display begins with a space.
#[derive(Clone, Copy)]
pub(crate) struct Slot {
    pub(crate) z: Length,
    pub(crate) w: Length,
    pub(crate) e: Length,
    pub(crate) flush: bool,
}

// How far from the left end of the line the display is.
pub(crate) fn indent(slot: Slot) -> Length
    requires { IsSmallSlot slot }
    ensures is { result.sp ≡ indent_of slot.flush slot.z.sp slot.w.sp slot.e.sp }
    ensures small { Within (2 ^ 33) result.sp }
{
    let free = gap(slot.z, slot.w);
    let middle = free.half();
    if slot.e.is_positive() && middle.is_less(slot.e.twice()) {
        if slot.flush {
            Length { sp: 0 }
        } else {
            gap(free, slot.e).half()
        }
    } else {
        middle
    }
}

// What is left of the line between display and number.
pub(crate) fn room_between(slot: Slot, d: Length) -> Length
    requires slot { IsSmallSlot slot }
    requires d { Within (2 ^ 33) d.sp }
    ensures is { result.sp ≡ room_of slot.z.sp slot.w.sp slot.e.sp d.sp }
    ensures small { Within (2 ^ 40) result.sp }
{
    gap(gap(gap(slot.z, slot.w), slot.e), d)
}

// Where the left end of a number of this width is that is below a display, against the right end of
// the line.
pub(crate) fn right_end(z: Length, number: Length) -> Length
    requires z { Within (2 ^ 30) z.sp }
    requires number { Within (2 ^ 30) number.sp }
    ensures is { result.sp ≡ z.sp -ℤ number.sp }
    ensures small { Within (2 ^ 40) result.sp }
{
    gap(z, number)
}

pub(crate) fn width_of(body: &Packed) -> Length
    ensures is { result.sp ≡ body.now.extents.width }
    ensures small { Within max_dimen result.sp }
    ensures in_range { ExtentsInRange body.now.extents }
{
    Length {
        sp: body.extents().width,
    }
}

#[tactic(auto, using(std::proofs::lemmas::Int::ints))]
fn gap(a: Length, b: Length) -> Length
    requires a { Within (2 ^ 34) a.sp }
    requires b { Within (2 ^ 34) b.sp }
    ensures is { result.sp ≡ a.sp -ℤ b.sp }
    ensures small { (n : ℕ) → (m : ℕ) → Within n a.sp → Within m b.sp → Within (n + m) result.sp }
{
    a.minus(b)
}
