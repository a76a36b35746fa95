//! How an amount is moved by in the fewest bytes.
ghost use Rattle.std.specs.Prelude.{◌≡◌, ◌≤◌, nat_abs};
ghost use Rattle.mt_dvi.specs.Limits.{max_coordinate};
ghost use Rattle.mt_dvi.specs.Moves.{least_size, move_form};
ghost use Rattle.mt_dvi.specs.writer.HeldAmounts.{with_next};

/// The greatest size of a coordinate or a move, 2^31 - 1 sp.
pub const MAX_COORDINATE: i64 = 2_147_483_647;

/// How an amount is moved by, where two registers hold amounts.
#[derive(Clone, Copy, Debug, PartialEq, Eq)]
pub enum MoveForm {
    /// Not at all: the amount is 0.
    None,
    /// By the amount of the first register.
    First,
    /// By the amount of the second register.
    Second,
    /// By an operand of so many bytes.
    Bytes(u8),
}

// The least number of bytes that hold an amount as a signed number.
fn least_size(amount: i64) -> u8
    requires { nat_abs amount ≤ max_coordinate }
    ensures { result ≡ least_size amount }
{
    if -32768 <= amount && amount < 32768 {
        if -128 <= amount && amount < 128 { 1 } else { 2 }
    } else if -8388608 <= amount && amount < 8388608 {
        3
    } else {
        4
    }
}

/// How to move by an amount, in scaled points, where the two registers of its axis hold these: not at
/// all by 0, by a register that holds the amount, the first one before the second, and else by an
/// operand of the least number of bytes that hold the amount as a signed number.
///
/// The amount is at most 2^31 - 1 in size.
pub fn move_code(amount: i64, first: i64, second: i64) -> MoveForm
    requires { nat_abs amount ≤ max_coordinate }
    ensures { result ≡ move_form amount first second }
{
    if amount == 0 {
        MoveForm::None
    } else if amount == first {
        MoveForm::First
    } else if amount == second {
        MoveForm::Second
    } else {
        MoveForm::Bytes(least_size(amount))
    }
}

/// What the two registers of an axis hold, and which of them the next operand goes to.
#[derive(Clone, Copy, Debug)]
pub struct HeldAmounts {
    /// What w or y holds, in scaled points.
    pub first: i64,
    /// What x or z holds, in scaled points.
    pub second: i64,
    /// Whether the next operand goes to x or z, and not to w or y.
    pub second_next: bool,
}

impl HeldAmounts {
    /// Gives the register whose turn it is the next operand.
    pub fn set_next(&mut self, amount: i64)
        ensures { self.new ≡ with_next self.old amount }
    {
        if self.second_next {
            self.second = amount;
            self.second_next = false;
        } else {
            self.first = amount;
            self.second_next = true;
        }
    }
}
