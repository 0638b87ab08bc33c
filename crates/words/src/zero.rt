// Whether words of an image are zero.
ghost use Rattle.std.specs.Prelude.{◌≡◌, ◌-◌, ◌%◌, ◌≤◌, length};
ghost use Rattle.outcome.specs.Outcome.{Answers};
ghost use Rattle.image.specs.Image.{part, all_zero};

use super::byte_order::ByteOrder;
use super::integers::read;

// Whether the words from offset `from` to offset `to` are zero. The two halves are looked at side by side, the middle one of
// an odd count of words in both. The loop keeps the bits of all words and never leaves early, so that the compiler takes
// many words a turn.
pub fn all_zero(image: &[u8], from: usize, to: usize) -> bool
    requires { (from ≤ to) × ((to - from) % 4 ≡ 0) × (to ≤ length image.now) }
    ensures { Answers (all_zero (part image.now from (to - from))) result }
{
    let words = (to - from + 4) / 8;
    let second = to - 4 * words;
    let mut first_bits = 0;
    let mut second_bits = 0;
    for done in 0..words {
        first_bits |= read::<u32>(ByteOrder(0), image, from + 4 * done);
        second_bits |= read::<u32>(ByteOrder(0), image, second + 4 * done);
    }
    first_bits | second_bits == 0
}
