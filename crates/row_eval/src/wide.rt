//! Sums of 128-bit numbers that may leave 128 bits on the way.
ghost use Rattle.std.specs.Prelude.{◌≡◌, ◌<◌, ◌≤◌, ◌+◌, ◌^◌, pos, ◌+ℤ◌, ◌≤ℤ◌, ◌<ℤ◌, neg_ℤ, unsigned_abs, Option};
ghost use Rattle.std.specs.Option.{option_map};
ghost use Rattle.iv_types.specs.declared.value.Value.TheVariants.{Number};
ghost use Rattle.iv_meaning.specs.Values.{ranged, value_of};
ghost use Rattle.row_eval.specs.Wide.{wide};

/// A whole number as `low + wraps * 2^128`.
#[derive(Clone, Copy, Debug)]
pub struct Wide {
    low: i128,
    wraps: i128,
}

impl Wide {
    /// Zero.
    pub fn zero() -> Self
        ensures value { wide result ≡ pos 0 }
        ensures wraps { result.wraps ≡ pos 0 }
    {
        Wide { low: 0, wraps: 0 }
    }

    /// The number with another one added.
    pub fn plus(self, number: i128) -> Self
        requires { unsigned_abs self.wraps < 2 ^ 64 }
        ensures value { wide result ≡ wide self +ℤ number }
        ensures wraps { unsigned_abs result.wraps ≤ unsigned_abs self.wraps + 1 }
    {
        match self.low.checked_add(number) {
            Some(low) => Wide {
                low,
                wraps: self.wraps,
            },
            None => {
                if number > 0 {
                    return Wide {
                        low: folded_down(self.low, number),
                        wraps: self.wraps + 1,
                    };
                }
                Wide {
                    low: folded_up(self.low, number),
                    wraps: self.wraps - 1,
                }
            }
        }
    }

    /// The number, if it lies in the HUGE range.
    pub fn number(self) -> Option<i128>
        ensures { value_of (ranged (wide self)) ≡ option_map Number result }
    {
        if self.wraps != 0 || self.low == i128::MIN {
            return None;
        }
        Some(self.low)
    }
}

// The sum of two numbers that passes 128 bits, less 2^128.
fn folded_down(a: i128, b: i128) -> i128
    requires { pos (2 ^ 127) ≤ℤ (a +ℤ b) }
    ensures { (result +ℤ pos (2 ^ 128)) ≡ (a +ℤ b) }
{
    (a + i128::MIN) + (b + i128::MIN)
}

// The sum of two numbers that falls below 128 bits, and 2^128.
fn folded_up(a: i128, b: i128) -> i128
    requires { (a +ℤ b) <ℤ neg_ℤ (pos (2 ^ 127)) }
    ensures { result ≡ (a +ℤ b) +ℤ pos (2 ^ 128) }
{
    (a - i128::MIN) + (b - i128::MIN)
}
