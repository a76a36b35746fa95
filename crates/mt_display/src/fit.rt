//! How wide a display is set, and whether its number is beside it (tex.web §1201).
ghost use Rattle.std.specs.Prelude.{◌≡◌, ◌≤ℤ◌, ◌^◌, ◌-ℤ◌, ℕ, IfSome};
ghost use Rattle.mt_scaled.specs.Number.{Within};
ghost use Rattle.mt_scaled.specs.declared.length.Length.{Length};
ghost use Rattle.mt_display.specs.Displays.{fit_alone as fit_of_display, fit as fit_of_widths};
ghost use Rattle.mt_display.specs.inner.Fits.{fit_value, AreWidths};

use mt_scaled::Length;

// The letters of the TeXbook: the line's width z, the display's own width w, the shrink s of its
// spaces, the number's width e, and q, that with a quad beside it; e and q are 0 without a number.
#[derive(Clone, Copy)]
pub(crate) struct Widths {
    pub(crate) z: Length,
    pub(crate) w: Length,
    pub(crate) s: Length,
    pub(crate) e: Length,
    pub(crate) q: Length,
}

// e and q of a number, which are 0 without one.
#[derive(Clone, Copy)]
pub(crate) struct NumberWidths {
    pub(crate) e: Length,
    pub(crate) q: Length,
}

pub(crate) const NO_NUMBER: NumberWidths = NumberWidths {
    e: Length { sp: 0 },
    q: Length { sp: 0 },
};

// What a display is set to, where it does not keep its own width; and e, which is 0 where the
// number is not beside it.
#[derive(Clone, Copy)]
pub(crate) struct Fit {
    pub(crate) target: Option<Length>,
    pub(crate) e: Length,
}

// Beside the number, where both fit; shrunk to make room for it, where that is enough; or without
// it.
pub(crate) fn fit_with(widths: Widths) -> Fit
    requires { AreWidths widths }
    ensures is { fit_value result ≡ fit_of_widths widths.z.sp widths.w.sp widths.s.sp widths.e.sp widths.q.sp }
    ensures narrow { IfSome result.target (λ (t : Length). t.sp ≤ℤ widths.w.sp) }
    ensures small { IfSome result.target (λ (t : Length). Within (2 ^ 62) t.sp) }
    ensures e { (n : ℕ) → Within n widths.e.sp → Within n result.e.sp }
{
    let least = least_width(widths);
    if widths.w.plus(widths.q).is_at_most(widths.z) {
        Fit {
            target: None,
            e: widths.e,
        }
    } else if !widths.e.is_zero() && least.plus(widths.q).is_at_most(widths.z) {
        Fit {
            target: Some(width_beside(widths)),
            e: widths.e,
        }
    } else {
        fit_alone(widths)
    }
}

fn fit_alone(widths: Widths) -> Fit
    requires { AreWidths widths }
    ensures is { fit_value result ≡ fit_of_display widths.z.sp widths.w.sp }
    ensures narrow { IfSome result.target (λ (t : Length). t.sp ≤ℤ widths.w.sp) }
    ensures small { IfSome result.target (λ (t : Length). Within (2 ^ 62) t.sp) }
    ensures e { (n : ℕ) → Within n result.e.sp }
{
    Fit {
        target: if widths.z.is_less(widths.w) {
            Some(widths.z)
        } else {
            None
        },
        e: Length { sp: 0 },
    }
}

// The width of the display with all that its spaces shrink.
#[tactic(auto, using(std::proofs::lemmas::Int::ints))]
fn least_width(widths: Widths) -> Length
    requires { AreWidths widths }
    ensures is { result.sp ≡ widths.w.sp -ℤ widths.s.sp }
    ensures small { Within (2 ^ 62) result.sp }
{
    widths.w.minus(widths.s)
}

// The width that the number leaves to the display.
#[tactic(auto, using(std::proofs::lemmas::Int::ints))]
fn width_beside(widths: Widths) -> Length
    requires { AreWidths widths }
    ensures is { result.sp ≡ widths.z.sp -ℤ widths.q.sp }
    ensures small { Within (2 ^ 62) result.sp }
{
    widths.z.minus(widths.q)
}
