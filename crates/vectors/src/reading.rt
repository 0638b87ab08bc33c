// Reading a line of the script: its numbers, and the lists behind their labels.
ghost use Rattle.std.specs.Prelude.{◌≤◌, IfOk};
ghost use Rattle.std.specs.Io.{ReadsAtMost};

use super::printing::{Out, wrong};
use arrayvec::ArrayVec;
use std::io::{self, Read, Stdin};

// A list's label.
#[derive(Clone, Copy)]
pub(crate) enum Label {
    Versions,
    Counts,
    Ids,
    Lengths,
    Words,
}

impl Label {
    // The word that a label is written as.
    fn word(self) -> &'static [u8] {
        match self {
            Label::Versions => b"versions",
            Label::Counts => b"counts",
            Label::Ids => b"ids",
            Label::Lengths => b"lengths",
            Label::Words => b"words",
        }
    }
}

// What is left to read of a line. It is read from the front and not split at spaces, since what follows a number may touch it.
#[derive(Clone, Copy)]
pub(crate) struct Reader<'a> {
    pub(crate) rest: &'a [u8],
}

// Reads until the bytes are full or the input ends, and answers how many were read.
pub(crate) fn read_full(input: &mut Stdin, bytes: &mut [u8]) -> io::Result<usize>
    ensures { ReadsAtMost result bytes.new }
{
    let mut done = 0;
    while done < bytes.len() {
        let count = input.read(&mut bytes[done..])?;
        if count == 0 {
            break;
        }
        done += count;
    }
    Ok(done)
}

// The bytes before the first that is this one, and the bytes from it on.
pub(crate) fn cut(text: &[u8], byte: u8) -> (&[u8], &[u8]) {
    let end = text.iter().position(|other| *other == byte);
    text.split_at(end.unwrap_or(text.len()))
}

// A number with one digit more; none if the byte is no digit, or the number too large.
fn with_digit(number: u64, byte: u8) -> Option<u64> {
    if byte.is_ascii_digit() && number <= 922337203685477580 {
        Some(10 * number + u64::from(byte - b'0'))
    } else {
        None
    }
}

// The number of the digits at the front, and what stands behind them. A number that grows too large ends before its next digit,
// where std's parse would refuse all of its digits.
fn leading_digits(text: &[u8]) -> (u64, &[u8]) {
    let mut number = 0;
    for (i, byte) in text.iter().enumerate() {
        let Some(more) = with_digit(number, *byte) else {
            return (number, &text[i..]);
        };
        number = more;
    }
    (number, &[])
}

impl Reader<'_> {
    // Reads a space and a number, which may be negative; its digits stand for at most 2^63.
    pub(crate) fn number(&mut self) -> Option<i64> {
        let text = self.rest.strip_prefix(b" ")?;
        let negated = text.strip_prefix(b"-");
        let digits = negated.unwrap_or(text);
        let (magnitude, after) = leading_digits(digits);
        if after.len() == digits.len() || magnitude > 1 << 63 {
            return None;
        }
        self.rest = after;
        let bits = if negated.is_some() {
            magnitude.wrapping_neg()
        } else {
            magnitude
        };
        Some(bits.cast_signed())
    }

    // Reads numbers, as many as there are and the list holds.
    pub(crate) fn numbers<const MOST: usize>(&mut self) -> ArrayVec<i64, MOST> {
        let mut numbers = ArrayVec::new();
        for _ in 0..MOST {
            let Some(number) = self.number() else {
                break;
            };
            if numbers.try_push(number).is_err() {
                break;
            }
        }
        numbers
    }

    // Whether a label comes next, which is read then.
    pub(crate) fn labelled(&mut self, label: Label) -> bool {
        let Some((_, labelled)) = self.rest.split_first() else {
            return false;
        };
        let (word, after) = cut(labelled, b' ');
        if word != label.word() {
            return false;
        }
        self.rest = after;
        true
    }

    // Reads the list behind a label, as many numbers as it holds; none if the label is another.
    pub(crate) fn list<const MOST: usize>(&mut self, label: Label) -> ArrayVec<i64, MOST> {
        if self.labelled(label) {
            self.numbers()
        } else {
            ArrayVec::new()
        }
    }
}

// The Integer*4 with the last 32 bits of a number. A number that is no Integer*4 makes the line wrong.
pub(crate) fn int4(out: Out, number: i64) -> io::Result<i32> {
    if i32::try_from(number).is_err() {
        wrong(out)?;
    }
    let bits = (number.cast_unsigned() % (1 << 32)) as u32;
    Ok(bits.cast_signed())
}

// Each number of a list as an Integer*4.
pub(crate) fn int4s<const MOST: usize>(
    out: Out,
    numbers: &ArrayVec<i64, MOST>,
) -> io::Result<ArrayVec<i32, MOST>> {
    let mut int4s = ArrayVec::new();
    for number in numbers.as_slice() {
        if int4s.try_push(int4(out, *number)?).is_err() {
            break;
        }
    }
    Ok(int4s)
}

// A list with zeros behind it, or its first numbers where there are more.
pub(crate) fn padded<T: Copy + Default, const COUNT: usize>(numbers: &[T]) -> [T; COUNT] {
    let mut all = [T::default(); COUNT];
    for (place, number) in all.iter_mut().zip(numbers) {
        *place = *number;
    }
    all
}

// A number of the script, which is 0 to `most`. Any other makes the line wrong, and 0 stands in its place.
pub(crate) fn at_most(out: Out, most: usize, number: i64) -> io::Result<usize>
    ensures { IfOk result (λ n. n ≤ most) }
{
    match usize::try_from(number) {
        Ok(number) if number <= most => Ok(number),
        _ => {
            wrong(out)?;
            Ok(0)
        }
    }
}

// How many bytes stand before a word, which is counted from 1. A word that is none makes the line wrong, and the first stands in
// its place.
pub(crate) fn bytes_before(out: Out, word: i64) -> io::Result<usize>
    ensures { IfOk result (λ n. n ≤ 0x4000_0000) }
{
    let before = at_most(out, 0x0fff_ffff, word.wrapping_sub(1))?;
    Ok(4 * before)
}
