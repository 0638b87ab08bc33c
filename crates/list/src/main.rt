// The listing program: it reads a file on standard input and writes its listing to standard output.
// What cannot be read or written is told on standard error.
#![tactic(auto)]

ghost use Rattle.std.specs.Prelude.{◌<◌, length, take, IfOk, OnOk};
ghost use Rattle.std.specs.Io.{ReadsAtMost};
ghost use Rattle.std.specs.Io.KnownBytes.{Appends, Consumes, IsAtEnd};
ghost use Rattle.listing.specs.Listing.{output_of};

use listing::{INPUT_MAX, OUTPUT_ROOM};
use std::io::{self, Read, Write};

// Reads until the bytes are full or the input ends, and answers how many were read.
fn read_full<R: Read>(input: &mut R, bytes: &mut [u8]) -> io::Result<usize>
    ensures within { ReadsAtMost result bytes.new }
    ensures read { IfOk result (λ count. Consumes (R.remaining input.old) (R.remaining input.new) (take count bytes.new)) }
    ensures ended { IfOk result (λ count. count < length bytes.new → IsAtEnd (R.remaining input.new)) }
{
    let mut done = 0;
    while done < bytes.len() {
        let count = input.read(&mut bytes[done..])?;
        if count == 0 {
            break;
        }
        done += count;
    }
    Ok(done)
}

// Writes what is printed of an input.
fn write_listing<W: Write>(input: &[u8], to: &mut W) -> io::Result<()>
    ensures { OnOk result (Appends (W.contents to.old) (W.contents to.new) (output_of input.now)) }
{
    let mut output = [0u8; OUTPUT_ROOM];
    let count = listing::list_input(input, &mut output);
    to.write_all(&output[..count])
}

// Tells an error on standard error; one more there is not told.
fn tell(rt: &impl Eprint, what: &str, error: io::Error) {
    let _ = eprintln!(rt; "{what}: {error}");
}

// Reads one byte more than an input may have, so that a longer one is known, and lists it. A read that
// fails is not the end of the input, and nothing is listed then.
fn main(rt: HostRuntime) {
    let mut input = [0u8; INPUT_MAX + 1];
    match read_full(&mut rt.stdin(), &mut input) {
        Ok(count) => {
            if let Err(error) = write_listing(&input[..count], &mut rt.stdout()) {
                tell(&rt, "standard output", error);
            }
        }
        Err(error) => tell(&rt, "standard input", error),
    }
}
