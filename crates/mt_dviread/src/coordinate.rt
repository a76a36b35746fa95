//! Coordinates on a page.
ghost use Rattle.std.specs.Prelude.{◌≡◌, ◌<◌, ◌+ℤ◌, pos, nat_abs, false};
ghost use Rattle.std.specs.Option.{option_map};
ghost use Rattle.mt_dvi.specs.Machine.{is_far};

use mt_dvi::MAX_COORDINATE;

/// A coordinate on a page in scaled points, at most 2^31 - 1 in size.
#[derive(Clone, Copy, Debug, PartialEq, Eq)]
pub struct Coordinate {
    /// The scaled points.
    pub sp: i32,
    ghost near: { is_far sp ≡ false },
}

impl Coordinate {
    ghost use Rattle.mt_dviread.specs.declared.coordinate.Coordinate.{Coordinate};
    ghost use Rattle.mt_dviread.specs.inner.Reach.{in_reach};

    /// The page's origin.
    pub fn zero() -> Coordinate
        ensures { result.sp ≡ pos 0 }
    {
        Coordinate { sp: 0 }
    }

    /// The coordinate so much further to the right or below, if it is in range.
    #[inline(always)]
    pub fn plus(self, by: i64) -> Option<Coordinate>
        requires { nat_abs by < 4294967296 }
        ensures { option_map (λ (c : Coordinate). c.sp) result ≡ in_reach (self.sp +ℤ by) }
    {
        let sum = i64::from(self.sp) + by;
        if sum > MAX_COORDINATE || sum < -MAX_COORDINATE {
            None
        } else {
            Some(Coordinate { sp: sum as i32 })
        }
    }
}
