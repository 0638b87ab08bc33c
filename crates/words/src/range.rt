// Tests on the signed value that bits stand for, made on the bits: a negative value's bits are above
// every bound.
ghost use Rattle.std.specs.Prelude.{◌^◌, ◌<◌};
ghost use mir.Val.{hbits};
ghost use Rattle.outcome.specs.Outcome.{Answers};
ghost use Rattle.words.specs.Word.{signed_of};
ghost use Rattle.words.specs.Range.{within, at_least};

use super::integers::Integer;

// Whether the integer with these bits is `low` to `high`.
pub fn within<T: Integer>(bits: u64, low: u64, high: u64) -> bool
    requires { high < 2 ^ hbits T.width }
    ensures { Answers (within low high (signed_of T.width bits)) result }
{
    low <= bits && bits <= high
}

// Whether the integer with these bits is `low` or more.
pub fn at_least<T: Integer>(bits: u64, low: u64) -> bool
    ensures { Answers (at_least low (signed_of T.width bits)) result }
{
    low <= bits && bits < T::HALF
}
