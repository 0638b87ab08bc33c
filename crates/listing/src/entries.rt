// The listing of validated numbers: the header, and a row for each entry.
ghost use Rattle.std.specs.Prelude.{◌+◌, ◌≤◌, length};
ghost use Rattle.outcome.specs.Outcome.{Answers, Leaves};
ghost use Rattle.image.specs.Image.{splice};
ghost use Rattle.descriptor.specs.FirstRecord.{addresses_of};
ghost use Rattle.descriptor.specs.Bounds.{AdmittedIn, TotalsOf};
ghost use Rattle.entry.specs.Opening.{entered_of};
ghost use Rattle.listing.specs.Text.{joined};
ghost use Rattle.listing.specs.Buffer.{HandsOver};
ghost use Rattle.listing.specs.Listing.{row_of, rows_of, entries_listing};

use super::rows::{opened_row, refused_row};
use super::text::Line;
use descriptor::DescriptorNumbers;
use entry::inner::enter;
use geometry::{EntryNumber, entries_before};

// The bytes of the header.
const HEADER_LENGTH: usize = 38;

// The row of an entry, which is opened for it.
fn row_at(file: &[u8], d: DescriptorNumbers, totals: &[u64], number: EntryNumber) -> Line
    requires { AdmittedIn file.now d (addresses_of file.now d.nex) × TotalsOf d totals.now }
    ensures { Answers (row_of number.0 (entered_of file.now d (addresses_of file.now d.nex) number)) result.bytes }
{
    match enter(file, d, totals, number) {
        Ok(entered) => opened_row(number, entered),
        Err(refusal) => refused_row(number, refusal.number()),
    }
}

// The length of all rows together: each entry is opened, and its row measured.
fn rows_length(file: &[u8], d: DescriptorNumbers, totals: &[u64]) -> usize
    requires { AdmittedIn file.now d (addresses_of file.now d.nex) × TotalsOf d totals.now }
    ensures { Answers (length (joined (rows_of file.now d (addresses_of file.now d.nex)))) result }
{
    let mut sum = 0;
    for number in 1..=entries_before(d.xnext) {
        sum += row_at(file, d, totals, EntryNumber(number)).len();
    }
    sum
}

// Writes the rows of all entries from offset `at` on, each entry opened again.
fn put_rows(file: &[u8], d: DescriptorNumbers, totals: &[u64], out: &mut [u8], at: usize)
    requires { AdmittedIn file.now d (addresses_of file.now d.nex) × TotalsOf d totals.now
        × (at + length (joined (rows_of file.now d (addresses_of file.now d.nex))) ≤ length out.old) }
    ensures { Leaves (splice out.old at (joined (rows_of file.now d (addresses_of file.now d.nex)))) out.new }
{
    let mut next = at;
    for entry in 1..=entries_before(d.xnext) {
        let row = row_at(file, d, totals, EntryNumber(entry));
        image::put(out, next, row.as_str().as_bytes());
        next += row.len();
    }
}

// Writes the listing of validated numbers, if the buffer is long enough for all of it.
pub(crate) fn list_entries(
    file: &[u8],
    d: DescriptorNumbers,
    totals: &[u64],
    out: &mut [u8],
) -> usize
    requires { AdmittedIn file.now d (addresses_of file.now d.nex) × TotalsOf d totals.now }
    ensures { HandsOver (entries_listing file.now d (addresses_of file.now d.nex)) out.old result out.new }
{
    let count = HEADER_LENGTH + rows_length(file, d, totals);
    if out.len() < count {
        return 0;
    }
    image::put(out, 0, b"entry record word words sections data\n");
    put_rows(file, d, totals, out, HEADER_LENGTH);
    count
}
