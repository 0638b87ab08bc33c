// The head of a new entry: its numbers, and writing its words.
ghost use Rattle.std.specs.Prelude.{cond, ◌+◌, ◌-◌, ◌*◌, ◌^◌, ◌≤◌, ◌<◌, length, eqb};
ghost use mir.Val.{bytes};
ghost use Rattle.outcome.specs.Outcome.{Answers, Leaves};
ghost use Rattle.image.specs.Image.{splice};
ghost use Rattle.image.specs.Writes.{writes};
ghost use Rattle.words.specs.Word.{numeral};
ghost use Rattle.layout.specs.EntryWords.{first_content, head_words, sections_max};
ghost use Rattle.pieces.specs.EntryDescriptor.{word_offset};
ghost use Rattle.storing.specs.Writing.{head_from, head_writes};

use geometry::{EntryAddress, EntryNumber, byte_offset, entry_position};
use layout::entry_descriptor;
use layout::entry_descriptor::{descriptor_words, first_content};
use pieces::Head;
use words::{ByteOrder, Integer};

// The address of the data behind sections of so many words, 0 without data.
fn adata_of(nsec: u64, section_words: u64, ldata: u64) -> EntryAddress
    requires { (nsec ≤ sections_max) × (section_words < 2 ^ 62) }
    ensures { Answers (record { 0 = cond (eqb ldata 0) 0 ((first_content nsec).0 + section_words) }) result }
{
    if ldata == 0 {
        return EntryAddress(0);
    }
    EntryAddress(first_content(nsec).0 + section_words)
}

// The head of an entry with so many sections, words of sections and words of data.
#[tactic(auto, unfolding(crate::specs::Writing::head_from))]
pub fn head_of(version: i32, nsec: u64, section_words: u64, ldata: u64, number: EntryNumber) -> Head
    requires { (nsec ≤ sections_max) × (section_words < 2 ^ 62) × (ldata < 2 ^ 62) }
    ensures { Answers (head_from version nsec section_words ldata number) result }
{
    Head {
        version,
        nsec,
        nword: descriptor_words(nsec) + section_words + ldata,
        adata: adata_of(nsec, section_words, ldata),
        ldata,
        xnum: number,
    }
}

// Writes an integer at a word of the entry, and the words behind it that it fills.
fn put_word<T: Integer>(
    order: ByteOrder,
    file: &mut [u8],
    start: u64,
    address: EntryAddress,
    value: T,
)
    requires { (1 ≤ address.0) × (start + address.0 < 2 ^ 32) × (4 * (start + address.0 - 1) + bytes T.width ≤ length file.old) }
    ensures { Leaves (splice file.old (word_offset start address) (numeral order (bytes T.width) (T.bits value))) file.new }
{
    words::write(
        order,
        file,
        byte_offset(entry_position(start, address)),
        value,
    )
}

// Writes the head of the entry.
pub(crate) fn put_head(order: ByteOrder, file: &mut [u8], start: u64, head: Head)
    requires { (start < 2 ^ 31) × (4 * (start + head_words) ≤ length file.old) × (head.nsec ≤ sections_max) }
    ensures { Leaves (writes file.old (head_writes order start head)) file.new }
{
    let code = entry_descriptor::ENTRY_CODE;
    image::put(
        file,
        byte_offset(entry_position(start, entry_descriptor::CODE)),
        &code,
    );
    put_word(order, file, start, entry_descriptor::VERSION, head.version);
    put_word(order, file, start, entry_descriptor::NSEC, head.nsec as u32);
    put_word(order, file, start, entry_descriptor::NWORD, head.nword);
    put_word(order, file, start, entry_descriptor::ADATA, head.adata.0);
    put_word(order, file, start, entry_descriptor::LDATA, head.ldata);
    put_word(order, file, start, entry_descriptor::XNUM, head.xnum.0);
}
