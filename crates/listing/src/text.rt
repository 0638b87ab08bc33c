// A line of a listing as text of its own, which grows behind its end.
ghost use Rattle.std.specs.Prelude.{◌≡◌, ◌+◌, ◌≤◌, ◌<◌, ◌^◌, ◌++◌, [], ◌∷◌};
ghost use Rattle.listing.specs.Text.{decimal_of, field_of};
ghost use Rattle.arrayvec.specs.ArrayString.{array_string_len};

use arrayvec::ArrayString;
use itoa::Buffer;

// Room for the longest line: six fields of 20 digits and the byte that ends each.
pub(crate) type Line = ArrayString<126>;

// Puts a number's digits behind a line.
pub(crate) fn push_decimal(line: &mut Line, n: u64)
    requires { array_string_len line.old + 20 ≤ 126 }
    ensures text { line.new.bytes ≡ line.old.bytes ++ decimal_of n }
    ensures short { array_string_len line.new ≤ array_string_len line.old + 20 }
{
    line.push_str(Buffer::new().format(n));
}

// Puts a number and the character that ends it behind a line.
pub(crate) fn push_field(line: &mut Line, n: u64, end: char)
    requires room { array_string_len line.old + 21 ≤ 126 }
    requires ascii { end < 128 }
    ensures text { line.new.bytes ≡ line.old.bytes ++ field_of n end }
    ensures short { array_string_len line.new ≤ array_string_len line.old + 21 }
{
    push_decimal(line, n);
    line.push(end);
}
