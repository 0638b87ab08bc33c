// Writing the three tables of an entry descriptor.
ghost use Rattle.std.specs.Prelude.{◌≡◌, true, ◌+◌, ◌*◌, ◌^◌, ◌≤◌, ◌<◌, pos, length, get_or};
ghost use Rattle.outcome.specs.Outcome.{Leaves};
ghost use Rattle.image.specs.Image.{splice};
ghost use Rattle.image.specs.Writes.{writes};
ghost use Rattle.words.specs.Word.{integer8, signed_numeral};
ghost use Rattle.geometry.specs.Units.{offset_of};
ghost use Rattle.layout.specs.EntryWords.{descriptor_words, sections_max};
ghost use Rattle.storing.specs.Handed.{sum_of, positive};
ghost use Rattle.storing.specs.Writing.{identifier_bytes, length_bytes, address_bytes, table_writes};

use geometry::{EntryAddress, byte_offset, entry_position};
use layout::entry_descriptor::{address_word, first_content, identifier_word, length_word};
use words::ByteOrder;

// Writes identifiers one after another from a position on.
fn put_identifiers(order: ByteOrder, file: &mut [u8], position: u64, ids: &[i32])
    requires { (position < 2 ^ 32) × (length ids.now ≤ sections_max) × (4 * (position + length ids.now) ≤ length file.old) }
    ensures { Leaves (splice file.old (offset_of position) (identifier_bytes order ids.now)) file.new }
{
    for (i, identifier) in ids.iter().enumerate() {
        words::write(order, file, byte_offset(position + i as u64), *identifier);
    }
}

// Writes length `i` of a table of lengths that begins at a position.
fn put_length(order: ByteOrder, file: &mut [u8], position: u64, lengths: &[i64], i: usize)
    requires { (position < 2 ^ 32) × (length lengths.now ≤ sections_max) × (4 * (position + 2 * length lengths.now) ≤ length file.old) × (i < length lengths.now) }
    ensures { Leaves (splice file.old (offset_of position + 8 * i) (signed_numeral order integer8 (get_or lengths.now i (pos 0)))) file.new }
{
    let words = lengths[i];
    words::write(order, file, byte_offset(position + 2 * (i as u64)), words)
}

// Writes lengths one after another from a position on. A turn writes two: so the compiler turns those of a big-endian file one
// by one, which is faster than both at once.
fn put_lengths(order: ByteOrder, file: &mut [u8], position: u64, lengths: &[i64])
    requires { (position < 2 ^ 32) × (length lengths.now ≤ sections_max) × (4 * (position + 2 * length lengths.now) ≤ length file.old) }
    ensures { Leaves (splice file.old (offset_of position) (length_bytes order lengths.now)) file.new }
{
    for pair in 0..lengths.len() / 2 {
        put_length(order, file, position, lengths, 2 * pair);
        put_length(order, file, position, lengths, 2 * pair + 1);
    }
    let odd = lengths.len() % 2 == 1;
    if odd {
        put_length(order, file, position, lengths, lengths.len() - 1);
    }
}

// Writes the addresses of sections of these lengths, the first at `first` in its entry, one address
// after another from a position on.
fn put_addresses(
    order: ByteOrder,
    file: &mut [u8],
    position: u64,
    first: EntryAddress,
    lengths: &[i64],
)
    requires { (position < 2 ^ 32) × (length lengths.now ≤ sections_max) × (4 * (position + 2 * length lengths.now) ≤ length file.old)
        × (positive lengths.now (length lengths.now) ≡ true) × (first.0 + sum_of lengths.now < 2 ^ 63) }
    ensures { Leaves (splice file.old (offset_of position) (address_bytes order first lengths.now)) file.new }
{
    let mut address = first.0;
    for (i, words) in lengths.iter().enumerate() {
        words::write(order, file, byte_offset(position + 2 * i as u64), address);
        address += words.cast_unsigned();
    }
}

// Writes the tables of the entry.
pub(crate) fn put_tables(
    order: ByteOrder,
    file: &mut [u8],
    start: u64,
    ids: &[i32],
    lengths: &[i64],
)
    requires { (start < 2 ^ 31) × (length ids.now ≤ sections_max) × (length lengths.now ≡ length ids.now) × (4 * (start + descriptor_words (length ids.now)) ≤ length file.old)
        × (positive lengths.now (length lengths.now) ≡ true) × (sum_of lengths.now < 2 ^ 62) }
    ensures { Leaves (writes file.old (table_writes order start ids.now lengths.now)) file.new }
{
    let nsec = ids.len() as u64;
    put_identifiers(order, file, entry_position(start, identifier_word(0)), ids);
    put_lengths(
        order,
        file,
        entry_position(start, length_word(nsec, 0)),
        lengths,
    );
    put_addresses(
        order,
        file,
        entry_position(start, address_word(nsec, 0)),
        first_content(nsec),
        lengths,
    );
}
