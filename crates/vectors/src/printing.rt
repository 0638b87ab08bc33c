// Writing the lines of cases to standard output.
use std::fmt::Display;
use std::io::{self, Stdout, Write};

// Standard output. A number or a name goes there as a whole and other text byte by byte, so that a pipe that does not wait takes what it
// has room for, up to the first byte, number or name that does not fit.
#[derive(Clone, Copy)]
pub(crate) struct Out(pub(crate) Stdout);

// Whether text is a number, with decimal or hexadecimal digits. No other text that is written has these characters alone.
fn is_number(text: &[u8]) -> bool {
    text.iter()
        .all(|byte| matches!(*byte, b'0'..=b'9' | b'a'..=b'f' | b'-'))
}

impl Write for Out {
    fn write(&mut self, text: &[u8]) -> io::Result<usize> {
        self.0.write(text)
    }

    fn flush(&mut self) -> io::Result<()> {
        self.0.flush()
    }

    fn write_all(&mut self, text: &[u8]) -> io::Result<()> {
        if is_number(text) {
            return self.0.write_all(text);
        }
        for byte in text {
            self.0.write_all(&[*byte])?;
        }
        Ok(())
    }
}

impl Out {
    // Writes text, for `print!`.
    pub(crate) fn print<D: Display + Drop>(self, text: D) -> io::Result<()> {
        let mut out = self;
        out.write_fmt(text)
    }

    // Writes text and ends the line, for `println!`.
    pub(crate) fn println<D: Display + Drop>(self, text: D) -> io::Result<()> {
        let mut out = self;
        out.writeln(text)
    }
}

// The case that a line is written for: where the line goes, and the case's name, which need not be text.
#[derive(Clone, Copy)]
pub(crate) struct Case<'a> {
    pub(crate) out: Out,
    pub(crate) name: &'a [u8],
}

impl Case<'_> {
    // Begins the line of a call.
    pub(crate) fn begin(self, call: &str) -> io::Result<()> {
        print!(self.out; "{call} ")?;
        let mut whole = self.out.0;
        whole.write_all(self.name)?;
        print!(self.out; ":")
    }
}

// Says that a line of the script is wrong.
pub(crate) fn wrong(out: Out) -> io::Result<()> {
    let mut whole = out.0;
    whole.write_all(b"a wrong line\n")
}
