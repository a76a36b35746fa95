//! The size at which a font is wanted.
ghost use Rattle.std.specs.Prelude.{◌≡◌, ◌<◌, ◌≤◌, ◌^◌, ◌<ℤ◌, pos, IfOk};
ghost use Rattle.std.specs.Result.{result_err};
ghost use Rattle.mt_tfm.specs.Checks.{wanted_fault};
ghost use Rattle.mt_tfm.specs.Limits.{max_factor};
ghost use Rattle.mt_tfm.specs.Sizes.{IsWanted, scaled_size, size_for};

use crate::error::TfmError;
use mt_scaled::xn_over_d;

/// The most thousandths of its design size that a font may be wanted at (tex.web §1258).
pub const MAX_FACTOR: u32 = 32_768;

/// The size at which a font is wanted (The TeXbook, chapter 4: `at` and `scaled`).
#[derive(Clone, Copy, Debug, PartialEq, Eq)]
pub enum Wanted {
    /// This size, in scaled points, 1 to 2^27 - 1.
    At(i64),
    /// So many thousandths of the font's design size, 1 to [`MAX_FACTOR`], rounded down.
    Scaled(u32),
}

// So many thousandths of a design size, in scaled points (tex.web §568).
fn scaled_size(factor: u32, design: u32) -> i64
    requires design { design < 2 ^ 27 }
    requires factor { factor ≤ max_factor }
    ensures { result ≡ pos (scaled_size factor design) }
{
    xn_over_d(i64::from(design), i64::from(factor), 1000)
}

fn check_scaled(factor: u32, design: u32) -> Result<i64, TfmError>
    requires design { design < 2 ^ 27 }
    requires factor { factor ≤ max_factor }
    ensures is { IfOk result (λ size. size ≡ pos (scaled_size factor design)) }
    ensures above { IfOk result (λ size. pos 0 <ℤ size) }
    ensures below { IfOk result (λ size. size <ℤ pos (2 ^ 27)) }
    ensures fault { result_err result ≡ wanted_fault (Wanted.Scaled factor) design }
{
    let size = scaled_size(factor, design);
    if 1 <= size && size < 1 << 27 {
        Ok(size)
    } else {
        Err(TfmError::BadSize(size))
    }
}

/// The size, in scaled points, of a font of this design size.
pub fn size_for(wanted: Wanted, design: u32) -> Result<i64, TfmError>
    requires wanted { IsWanted wanted }
    requires design { design < 2 ^ 27 }
    ensures is { IfOk result (λ size. size ≡ size_for wanted design) }
    ensures above { IfOk result (λ size. pos 0 <ℤ size) }
    ensures below { IfOk result (λ size. size <ℤ pos (2 ^ 27)) }
    ensures fault { result_err result ≡ wanted_fault wanted design }
{
    match wanted {
        Wanted::At(at) => Ok(at),
        Wanted::Scaled(factor) => check_scaled(factor, design),
    }
}
