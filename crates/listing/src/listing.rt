// The listing of a file, and what the listing program prints of its input.
ghost use Rattle.listing.specs.Buffer.{HandsOver};
ghost use Rattle.listing.specs.Listing.{Lists, Prints};

use super::entries::list_entries;
use super::rows::refused_file;
use descriptor::inner::admit;
use descriptor::{Validated, refusal_of};

// The most bytes of an input that is listed.
pub const INPUT_MAX: usize = 65536;

// Bytes that hold what is printed of any input.
pub const OUTPUT_ROOM: usize = 196608;

// Writes bytes to the start of a lent buffer, if it is long enough for them.
fn hand_over(bytes: &[u8], out: &mut [u8]) -> usize
    ensures { HandsOver bytes.now out.old result out.new }
{
    if out.len() < bytes.len() {
        return 0;
    }
    image::put(out, 0, bytes);
    bytes.len()
}

// Writes the listing of a file to the start of a lent buffer and answers its length; a buffer that is too
// short is left as it is, and the answer is 0.
pub fn list_file(file: &[u8], out: &mut [u8]) -> usize
    ensures { Lists file.now out.old result out.new }
{
    let mut totals = [0u64; 16];
    let case = admit(file, &mut totals);
    let Validated::Numbers(d) = case else {
        return hand_over(refused_file(refusal_of(case)).as_str().as_bytes(), out);
    };
    list_entries(file, d, &totals, out)
}

// Writes what the program prints of its input, and answers how many bytes that is.
pub fn list_input(input: &[u8], out: &mut [u8; OUTPUT_ROOM]) -> usize
    ensures { Prints input.now out.old result out.new }
{
    if INPUT_MAX < input.len() {
        image::put(out, 0, b"input over 65536 bytes\n");
        return 23;
    }
    list_file(input, out)
}
