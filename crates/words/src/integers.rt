// The memo's integers, Integer*4 and Integer*8, each as bits and as a signed value: where one of them stands in an image.
ghost use Rattle.std.specs.Prelude.{◌≡◌, ℕ, ◌+◌, ◌^◌, ◌≤◌, length, refl};
ghost use Rattle.std.specs.Int.{Width};
ghost use mir.Val.{bytes, hbits};
ghost use Rattle.outcome.specs.Outcome.{Answers, Leaves};
ghost use Rattle.image.specs.Image.{part, splice};
ghost use Rattle.words.specs.Word.{integer4, integer8, signed_of, bits_of, bits_at, numeral};

use super::byte_order::ByteOrder;

// An integer of the memo.
pub trait Integer: Copy {
    // Half the range of its bits: from there on they stand for a negative value.
    const HALF: u64;

    ghost HALF: { ℕ };

    // Its width, the value that bits stand for, and the bits of a value.
    ghost width: { Width };

    ghost value: { ℕ → Self };

    ghost bits: { Self → ℕ };

    // The integer at offset `at`.
    fn read_at(order: ByteOrder, image: &[u8], at: usize) -> Self
        requires { at + bytes width ≤ length image.now }
        ensures { Answers (value (bits_at order width image.now at)) result };

    // Writes the integer at offset `at`.
    fn write_at(self, order: ByteOrder, image: &mut [u8], at: usize)
        requires { at + bytes width ≤ length image.old }
        ensures { Leaves (splice image.old at (numeral order (bytes width) (bits self))) image.new };

    ghost half: { HALF ≡ 2 ^ hbits width };
}

// The bytes from offset `at` on.
fn bytes_at<const N: usize>(image: &[u8], at: usize) -> [u8; N]
    requires { at + N ≤ length image.now }
    ensures { Answers (part image.now at N) result }
{
    let mut bytes = [0; N];
    bytes.copy_from_slice(&image[at..at + N]);
    bytes
}

// What follows is written for each type, since std has these methods on each type and in no trait.
impl Integer for u32 {
    const HALF: u64 = 0x8000_0000;

    ghost HALF = { 2 ^ 31 };

    ghost width = { integer4 };

    ghost value = { λ bits. bits };

    ghost bits = { λ value. value };

    fn read_at(order: ByteOrder, image: &[u8], at: usize) -> u32 {
        let bytes = bytes_at(image, at);
        if order.0 == 0 {
            u32::from_le_bytes(bytes)
        } else {
            u32::from_be_bytes(bytes)
        }
    }

    fn write_at(self, order: ByteOrder, image: &mut [u8], at: usize) {
        let turned = if order.0 == 0 {
            self
        } else {
            self.swap_bytes()
        };
        image::put(image, at, &turned.to_le_bytes())
    }

    ghost half = { refl };
}

impl Integer for u64 {
    const HALF: u64 = 0x8000_0000_0000_0000;

    ghost HALF = { 2 ^ 63 };

    ghost width = { integer8 };

    ghost value = { λ bits. bits };

    ghost bits = { λ value. value };

    fn read_at(order: ByteOrder, image: &[u8], at: usize) -> u64 {
        let bytes = bytes_at(image, at);
        if order.0 == 0 {
            u64::from_le_bytes(bytes)
        } else {
            u64::from_be_bytes(bytes)
        }
    }

    fn write_at(self, order: ByteOrder, image: &mut [u8], at: usize) {
        let turned = if order.0 == 0 {
            self
        } else {
            self.swap_bytes()
        };
        image::put(image, at, &turned.to_le_bytes())
    }

    ghost half = { refl };
}

impl Integer for i32 {
    const HALF: u64 = u32::HALF;

    ghost HALF = { 2 ^ 31 };

    ghost width = { integer4 };

    ghost value = { λ bits. signed_of integer4 bits };

    ghost bits = { λ value. bits_of integer4 value };

    fn read_at(order: ByteOrder, image: &[u8], at: usize) -> i32 {
        u32::read_at(order, image, at).cast_signed()
    }

    fn write_at(self, order: ByteOrder, image: &mut [u8], at: usize) {
        self.cast_unsigned().write_at(order, image, at)
    }

    ghost half = { refl };
}

impl Integer for i64 {
    const HALF: u64 = u64::HALF;

    ghost HALF = { 2 ^ 63 };

    ghost width = { integer8 };

    ghost value = { λ bits. signed_of integer8 bits };

    ghost bits = { λ value. bits_of integer8 value };

    fn read_at(order: ByteOrder, image: &[u8], at: usize) -> i64 {
        u64::read_at(order, image, at).cast_signed()
    }

    fn write_at(self, order: ByteOrder, image: &mut [u8], at: usize) {
        self.cast_unsigned().write_at(order, image, at)
    }

    ghost half = { refl };
}

// The integer at offset `at`.
pub fn read<T: Integer>(order: ByteOrder, image: &[u8], at: usize) -> T
    requires { at + bytes T.width ≤ length image.now }
    ensures { Answers (T.value (bits_at order T.width image.now at)) result }
{
    T::read_at(order, image, at)
}

// Writes an integer at offset `at`.
pub fn write<T: Integer>(order: ByteOrder, image: &mut [u8], at: usize, value: T)
    requires { at + bytes T.width ≤ length image.old }
    ensures { Leaves (splice image.old at (numeral order (bytes T.width) (T.bits value))) image.new }
{
    value.write_at(order, image, at)
}
