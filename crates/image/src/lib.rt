// Bytes of a file image: copying a run of bytes to an offset, and filling a run with zeros.
//
// An image is a list of bytes, and offsets count bytes from 0. A function that writes says what the
// whole slice holds at exit, so a caller learns of every byte whether it changed. Every write of the
// library to a file goes through `put`.
#![tactic(auto)]

ghost use Rattle.std.specs.Prelude.{◌≡◌, ◌+◌, ◌%◌, ◌^◌, ◌≤◌, ◌<◌, length};
ghost use Rattle.outcome.specs.Outcome.{Leaves};
ghost use Rattle.image.specs.Image.{splice, zeros};

// Copies all of `bytes` over the image from offset `at` on.
pub fn put(image: &mut [u8], at: usize, bytes: &[u8])
    requires { at + length bytes.now ≤ length image.old }
    ensures { Leaves (splice image.old at bytes.now) image.new }
{
    for (i, byte) in bytes.iter().enumerate() {
        image[at + i] = *byte;
    }
}

// Fills `count` bytes of the image, whole words, with zeros from offset `at` on, a word a turn. The
// zeros are the high half of `count`: of zeros that it can see, the compiler makes a call of memset,
// which stores some words twice.
pub fn zero(image: &mut [u8], at: usize, count: usize)
    requires { (at + count ≤ length image.old) × (count % 4 ≡ 0) × (count < 2 ^ 32) }
    ensures { Leaves (splice image.old at (zeros count)) image.new }
{
    let high = (count / 4294967296) as u32;
    let word = high.to_le_bytes();
    for i in 0..count / 4 {
        put(image, at + 4 * i, &word);
    }
}
