// The calls that read an entry, and the order check: a line of the call, the case's name and the answer.
use super::printing::{Case, Out};
use super::reading::bytes_before;
use classic::{
    EntryNumber, Open, check_order, data_array, data_array_place, data_array_refusal, index_words,
    index_words_place, index_words_refusal, open_entry, section, section_place, section_refusal,
};
use std::io;

// Opens an entry by its number.
pub(crate) fn opened(case: Case, file: &[u8], asked: u64) -> io::Result<()> {
    let answer = open_entry(file, EntryNumber(asked)).answer;
    case.begin("open")?;
    match answer {
        Open::Numbers(place, version, nsec, nword, array) => {
            print!(case.out; " record {} word {}", place.record.0, place.word.0)?;
            print!(case.out; " version {version} nsec {nsec} nword {nword}")?;
            println!(case.out; " adata {} ldata {}", array.adata.0, array.ldata)
        }
        Open::Refused(refusal) => println!(case.out; " refused {refusal}"),
    }
}

// Opens an entry and writes its three tables, without the places that are zero. A place is the same index in each table, and its
// number is written.
pub(crate) fn tabled(case: Case, file: &[u8], asked: u64) -> io::Result<()> {
    case.begin("tables")?;
    let sections = open_entry(file, EntryNumber(asked)).sections;
    for i in 0..64 {
        let identifier = sections.identifiers[i];
        let length = sections.lengths[i];
        let address = sections.addresses[i].0;
        if identifier != 0 || length != 0 || address != 0 {
            print!(case.out; " place {}", i + 1)?;
            print!(case.out; " identifier {identifier} length {length} address {address}")?;
        }
    }
    println!(case.out)
}

// Writes the words of a part, each behind a space, and ends the line: a word below 2^24 in the little order as that number, any
// other as x and its four bytes as they stand.
fn print_words(out: Out, bytes: &[u8]) -> io::Result<()> {
    for word in bytes.as_chunks::<4>().0 {
        let number = u32::from_le_bytes(*word);
        if number < 1 << 24 {
            print!(out; " {number}")?;
        } else {
            let spelled = u32::from_be_bytes(*word);
            print!(out; " x{spelled:08x}")?;
        }
    }
    println!(out)
}

// Writes a part that was handed out, or the refusal.
fn part(case: Case, call: &str, refusal: u32, start: usize, bytes: &[u8]) -> io::Result<()> {
    case.begin(call)?;
    if refusal == 0 {
        print!(case.out; " at byte {start}")?;
    } else {
        print!(case.out; " refused {refusal}")?;
    }
    if bytes.is_empty() {
        print!(case.out; " no")?;
    }
    print!(case.out; " words")?;
    print_words(case.out, bytes)
}

// The index words of an entry.
pub(crate) fn indexed(case: Case, file: &[u8], asked: u64) -> io::Result<()> {
    let number = EntryNumber(asked);
    let refusal = index_words_refusal(file, number);
    let start = index_words_place(file, number).start;
    part(
        case,
        "index words",
        refusal,
        start,
        index_words(file, number),
    )
}

// A section of an entry by its identifier.
pub(crate) fn sectioned(case: Case, file: &[u8], asked: u64, identifier: i32) -> io::Result<()> {
    let number = EntryNumber(asked);
    let refusal = section_refusal(file, number, identifier);
    let start = section_place(file, number, identifier).start;
    part(
        case,
        "section",
        refusal,
        start,
        section(file, number, identifier),
    )
}

// The data of an entry.
pub(crate) fn handed_data(case: Case, file: &[u8], asked: u64) -> io::Result<()> {
    let number = EntryNumber(asked);
    let refusal = data_array_refusal(file, number);
    let start = data_array_place(file, number).start;
    part(case, "data", refusal, start, data_array(file, number))
}

// The order check.
pub(crate) fn checked(case: Case, file: &[u8]) -> io::Result<()> {
    let answer = check_order(file);
    case.begin("check")?;
    if answer.refusal == 0 {
        println!(case.out; " passes")
    } else {
        println!(case.out; " entry {} refused {}", answer.entry.0, answer.refusal)
    }
}

// The words of a file from one to another, counted from 1.
pub(crate) fn shown(case: Case, file: &[u8], first: i64, last: i64) -> io::Result<()> {
    case.begin("words")?;
    let from = bytes_before(case.out, first)?;
    let to = bytes_before(case.out, last)? + 4;
    let bytes = &file[..to.min(file.len())];
    print_words(case.out, bytes.get(from..).unwrap_or(&[]))
}
