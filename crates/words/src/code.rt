// Comparing four bytes of an image with a code: the two numbers that they stand for are compared.
ghost use Rattle.std.specs.Prelude.{◌+◌, ◌≤◌, length};
ghost use Rattle.outcome.specs.Outcome.{Answers};
ghost use Rattle.image.specs.Image.{part};
ghost use Rattle.words.specs.Code.{same_numbers};

use super::byte_order::ByteOrder;
use super::integers::read;

// Whether the four bytes at offset `at` are those of a code.
pub fn code_at(image: &[u8], at: usize, code: [u8; 4]) -> bool
    requires { at + 4 ≤ length image.now }
    ensures { Answers (same_numbers (part image.now at 4) code) result }
{
    read::<u32>(ByteOrder(0), image, at) == u32::from_le_bytes(code)
}
