// The lines of a listing: the row of an entry, and what tells a refusal.
ghost use Rattle.std.specs.Prelude.{◌≡◌, ◌+◌, ◌≤◌, ◌++◌};
ghost use Rattle.outcome.specs.Outcome.{Answers};
ghost use Rattle.arrayvec.specs.ArrayString.{array_string_len};
ghost use Rattle.entry.specs.Entered.{given};
ghost use Rattle.listing.specs.Listing.{refused_of, opened_row, refused_row, refused_file};

use super::text::{Line, push_decimal, push_field};
use entry::Entered;
use geometry::EntryNumber;

// Puts the end of a line that tells a refusal behind it.
fn push_refused(line: &mut Line, refusal: u32)
    requires { array_string_len line.old + 30 ≤ 126 }
    ensures { line.new.bytes ≡ line.old.bytes ++ refused_of refusal }
{
    line.push_str(" refused ");
    push_field(line, u64::from(refusal), '\n');
}

// The line of a refused file.
pub(crate) fn refused_file(refusal: u32) -> Line
    ensures { Answers (refused_file refusal) result.bytes }
{
    let mut line = Line::new();
    line.push_str("file");
    push_refused(&mut line, refusal);
    line
}

// The row of an entry that opened.
pub(crate) fn opened_row(number: EntryNumber, entered: Entered) -> Line
    ensures { Answers (opened_row number.0 (given entered)) result.bytes }
{
    let place = entered.place;
    let mut line = Line::new();
    push_field(&mut line, number.0, ' ');
    push_field(&mut line, place.record.0, ' ');
    push_field(&mut line, place.word.0, ' ');
    push_field(&mut line, entered.nword, ' ');
    push_field(&mut line, entered.nsec, ' ');
    push_field(&mut line, entered.array.words, '\n');
    line
}

// The row of an entry that open refuses.
pub(crate) fn refused_row(number: EntryNumber, refusal: u32) -> Line
    ensures { Answers (refused_row number.0 refusal) result.bytes }
{
    let mut line = Line::new();
    push_decimal(&mut line, number.0);
    push_refused(&mut line, refusal);
    line
}
