// The room: the bytes of the file that the calls are made on, and the files that are kept.
ghost use Rattle.std.specs.Prelude.{◌+◌, ◌≤◌, length, IfOk};

use super::command::Width;
use super::printing::{Out, wrong};
use super::reading::{at_most, int4};
use std::io;

// The most bytes of a file, those of P9.
const FILE: usize = 789176;

// The bytes behind the lent ones that are looked at too.
const BEHIND: usize = 16400;

// The bytes of the longest file and those behind it.
const WATCHED: usize = FILE + BEHIND;

// Those, and as many again for a copy of them.
const ROOM: usize = 2 * WATCHED;

// The bytes of a file that is kept.
const SMALL: usize = 480;

// How many bytes are lent to the calls. The bound stands in a struct of its own, since a struct with a ghost field does not lend its
// array.
#[derive(Clone, Copy)]
pub(crate) struct Lent {
    pub(crate) count: usize,
    ghost within: { count ≤ 789176 },
}

// The bytes that a file is made in, of which the first are lent, then a copy of them as a call finds them; and a file kept for each
// letter.
#[derive(Drop)]
pub(crate) struct Room {
    pub(crate) bytes: [u8; ROOM],
    pub(crate) lent: Lent,
    kept: [[u8; SMALL]; 26],
}

// Which letter of the alphabet stands behind a space. Anything else makes the line wrong, and A stands in its place.
fn letter(out: Out, text: &[u8]) -> io::Result<usize>
    ensures { IfOk result (λ n. n ≤ 25) }
{
    match text {
        [_, letter @ b'A'..=b'Z'] => Ok(usize::from(*letter - b'A')),
        _ => {
            wrong(out)?;
            Ok(0)
        }
    }
}

// Writes a number of so many bytes at an offset, the most significant byte first where the order is big.
fn put(
    out: Out,
    file: &mut [u8],
    at: usize,
    width: Width,
    big: bool,
    number: i64,
) -> io::Result<usize>
    requires { at + 8 ≤ length file.old }
    ensures { IfOk result (λ n. n ≤ at + 8) }
{
    match width {
        Width::One => {
            file[at] = number.to_le_bytes()[0];
            Ok(at + 1)
        }
        Width::Four => {
            let number = int4(out, number)?;
            let bytes = if big {
                number.to_be_bytes()
            } else {
                number.to_le_bytes()
            };
            file[at..at + 4].copy_from_slice(&bytes);
            Ok(at + 4)
        }
        Width::Eight => {
            let bytes = if big {
                number.to_be_bytes()
            } else {
                number.to_le_bytes()
            };
            file[at..at + 8].copy_from_slice(&bytes);
            Ok(at + 8)
        }
    }
}

// Writes numbers one after another from an offset on, as long as eight bytes follow. Where they do not, the line is wrong.
fn put_all(
    out: Out,
    file: &mut [u8],
    from: usize,
    width: Width,
    big: bool,
    numbers: &[i64],
) -> io::Result<()> {
    let mut at = from;
    for number in numbers {
        if file.len() < 8 || file.len() - 8 < at {
            return wrong(out);
        }
        at = put(out, file, at, width, big, *number)?;
    }
    Ok(())
}

// Writes a file that was kept over the first bytes.
fn overwrite(bytes: &mut [u8; ROOM], file: [u8; SMALL]) {
    bytes[..SMALL].copy_from_slice(&file);
}

impl Room {
    // The room, all zeros, with nothing lent.
    pub(crate) fn new() -> Room {
        let bytes = [0; ROOM];
        let kept = [[0; SMALL]; 26];
        Room {
            bytes,
            lent: Lent { count: 0 },
            kept,
        }
    }

    // The lent bytes.
    pub(crate) fn file(&self) -> &[u8] {
        &self.bytes[..self.lent.count]
    }

    // Copies the bytes before a call.
    pub(crate) fn copy(&mut self) {
        let end = self.lent.count + BEHIND;
        self.bytes.copy_within(..end, WATCHED);
    }

    // Writes whether bytes changed since they were copied, from an offset on.
    pub(crate) fn compare(&self, out: Out, from: usize) -> io::Result<()> {
        let from = from.min(BEHIND);
        let end = self.lent.count + BEHIND;
        if self.bytes[from..end] == self.bytes[WATCHED + from..WATCHED + end] {
            print!(out; " unchanged")
        } else {
            print!(out; " changed")
        }
    }

    // Lends the first bytes alone.
    pub(crate) fn lend(&mut self, out: Out, count: i64) -> io::Result<()> {
        let count = at_most(out, FILE, count)?;
        self.lent = Lent { count };
        Ok(())
    }

    // Fills the lent bytes with one.
    pub(crate) fn fill(&mut self, byte: u8) {
        let lent = self.lent.count;
        self.bytes[..lent].fill(byte);
    }

    // Keeps the file of the first bytes under a letter.
    pub(crate) fn keep(&mut self, out: Out, text: &[u8]) -> io::Result<()> {
        let letter = letter(out, text)?;
        let mut file = [0; SMALL];
        file.copy_from_slice(&self.bytes[..SMALL]);
        self.kept[letter] = file;
        Ok(())
    }

    // Takes the file that is kept under a letter, and lends it.
    pub(crate) fn take(&mut self, out: Out, text: &[u8]) -> io::Result<()> {
        let letter = letter(out, text)?;
        let file = self.kept[letter];
        overwrite(&mut self.bytes, file);
        self.lent = Lent { count: SMALL };
        Ok(())
    }

    // Writes numbers over the lent bytes: in the big order where the second byte is that of a big file's code, also in a code
    // that is neither.
    pub(crate) fn put(
        &mut self,
        out: Out,
        from: usize,
        width: Width,
        numbers: &[i64],
    ) -> io::Result<()> {
        let big = self.bytes[1] == b'B';
        let lent = self.lent.count;
        put_all(out, &mut self.bytes[..lent], from, width, big, numbers)
    }
}
