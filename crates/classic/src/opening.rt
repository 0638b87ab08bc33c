// Opening an entry, for C.
ghost use Rattle.std.specs.Prelude.{◌≤◌};
ghost use Rattle.outcome.specs.Outcome.{Answers};
ghost use Rattle.pieces.specs.Bounds.{Described};
ghost use Rattle.entry.specs.Entered.{given};
ghost use Rattle.entry.specs.Answers.{not_opened, opened_as, open_of};
ghost use Rattle.classic.specs.Answers.{entry_for, entry_having};
ghost use Rattle.classic.specs.Bounds.{Slim};

use super::answers::ClassicEntry;
use super::sections::fill;
use descriptor::inner::admit;
use descriptor::{Validated, refusal_of};
use entry::Entered;
use entry::inner::enter;
use geometry::EntryNumber;
use layout::entry_descriptor::PLACES;
use pieces::EntryWords;
use words::ByteOrder;

// The most sections that are few.
const FEW: u64 = 8;

// An entry with a refusal.
fn no_entry(refusal: u32) -> ClassicEntry
    ensures { Answers (entry_for (not_opened refusal)) result }
{
    ClassicEntry {
        refusal,
        ..ClassicEntry::default()
    }
}

// An entry by its numbers and its tables.
fn entry_having(
    entered: Entered,
    ids: [i32; PLACES],
    lengths: [u64; PLACES],
    addresses: [u64; PLACES],
) -> ClassicEntry
    requires { Slim (given entered) }
    ensures { Answers (entry_having (given entered) ids lengths addresses) result }
{
    let place = entered.place;
    let array = entered.array;
    ClassicEntry {
        refusal: 0,
        record: place.record.0,
        word: place.word.0 as u32,
        version: entered.version,
        nsec: entered.nsec as u32,
        nword: entered.nword,
        adata: array.address.0.cast_signed(),
        ldata: array.words,
        ids,
        lengths,
        addresses,
    }
}

// An entry with few sections, with its tables read from the file. The loop has a fixed
// count of turns, which the compiler lays out one behind the other: so the tables are stored where they stay.
fn entry_of_few(order: ByteOrder, file: &[u8], entered: Entered) -> ClassicEntry
    requires { Slim (given entered) × Described order file.now entered.start entered.nsec × (entered.nsec ≤ 8) }
    ensures { Answers (entry_for (opened_as file.now (given entered))) result }
{
    let nsec = entered.nsec;
    let stored = EntryWords {
        order,
        file,
        start: entered.start,
        nsec,
    };
    let mut ids = [0i32; PLACES];
    let mut lengths = [0u64; PLACES];
    let mut addresses = [0u64; PLACES];
    for passed in 0..FEW {
        if passed < nsec {
            let section = stored.section(passed);
            ids[passed as usize] = stored.identifier(passed);
            lengths[passed as usize] = section.words;
            addresses[passed as usize] = section.address.0;
        }
    }
    entry_having(entered, ids, lengths, addresses)
}

// An entry by its number, or the refusal.
pub fn classic_open(file: &[u8], entry: u64) -> ClassicEntry
    ensures { Answers (entry_for (open_of file.now (record { 0 = entry }))) result }
{
    let mut totals = [0u64; 16];
    let case = admit(file, &mut totals);
    let Validated::Numbers(d) = case else {
        return no_entry(refusal_of(case));
    };
    let entered = match enter(file, d, &totals, EntryNumber(entry)) {
        Ok(entered) => entered,
        Err(refusal) => return no_entry(refusal.number()),
    };
    let nsec = entered.nsec;
    if nsec == 0 {
        return entry_having(entered, [0i32; PLACES], [0u64; PLACES], [0u64; PLACES]);
    }
    if nsec <= FEW {
        return entry_of_few(d.order, file, entered);
    }
    let stored = EntryWords {
        order: d.order,
        file,
        start: entered.start,
        nsec,
    };
    let mut ids = [0i32; PLACES];
    let mut lengths = [0u64; PLACES];
    let mut addresses = [0u64; PLACES];
    fill(&mut ids, nsec, |i| stored.identifier(i));
    fill(&mut lengths, nsec, |i| stored.section(i).words);
    fill(&mut addresses, nsec, |i| stored.section(i).address.0);
    entry_having(entered, ids, lengths, addresses)
}
