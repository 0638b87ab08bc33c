// What an entry holds: its sections and its data, each a piece of it, read and tested as it stands in the file.
ghost use Rattle.std.specs.Prelude.{◌≡◌, ◌+◌, ◌-◌, ◌*◌, ◌^◌, ◌≤◌, ◌<◌, length};
ghost use mir.Val.{bytes};
ghost use Rattle.outcome.specs.Outcome.{Answers};
ghost use Rattle.layout.specs.FileCode.{byte_order_of};
ghost use Rattle.layout.specs.EntryWords.{sections_max};
ghost use Rattle.pieces.specs.EntryDescriptor.{word_of};
ghost use Rattle.pieces.specs.Contents.{piece_within, data_within, apart};
ghost use Rattle.pieces.specs.Bounds.{Small};

use geometry::{EntryAddress, byte_offset, entry_position};
use layout::entry_descriptor::first_content;
use words::{ByteOrder, Integer};

// A run of an entry's words.
#[derive(Clone, Copy)]
pub struct Piece {
    pub address: EntryAddress,
    pub words: u64,
}

// The integer at a word of the entry, and the words behind it that it fills.
#[tactic(auto, unfolding(crate::specs::EntryDescriptor::word_of))]
pub(crate) fn word_at<T: Integer>(
    order: ByteOrder,
    file: &[u8],
    start: u64,
    address: EntryAddress,
) -> T
    requires { (order ≡ byte_order_of file.now) × (1 ≤ address.0) × (4 * (start + address.0 - 1) + bytes T.width ≤ length file.now) }
    ensures { Answers (T.value (word_of T.width file.now start address)) result }
{
    words::read(order, file, byte_offset(entry_position(start, address)))
}

// Whether a piece lies within the words that content may have.
#[tactic(auto, unfolding(crate::specs::Contents::piece_within))]
pub(crate) fn piece_within(nsec: u64, nword: u64, piece: Piece) -> bool
    requires { (nsec ≤ sections_max) × (nword < 2 ^ 32) × (piece.words < 2 ^ 63) }
    ensures { Answers (piece_within nsec nword piece) result }
{
    words::at_least::<i64>(piece.address.0, first_content(nsec).0)
        && piece.address.0 + piece.words <= nword + 1
}

// The same of the data, where there is any.
#[tactic(auto, unfolding(crate::specs::Contents::data_within))]
pub fn data_within(nsec: u64, nword: u64, piece: Piece) -> bool
    requires { (nsec ≤ sections_max) × (nword < 2 ^ 32) × (piece.words < 2 ^ 63) }
    ensures { Answers (data_within nsec nword piece) result }
{
    piece.words == 0 || piece_within(nsec, nword, piece)
}

// Whether two pieces share no word.
#[tactic(auto, unfolding(crate::specs::Contents::apart))]
pub(crate) fn pieces_apart(first: Piece, second: Piece) -> bool
    requires { Small first × Small second }
    ensures { Answers (apart first second) result }
{
    first.address.0 + first.words <= second.address.0
        || second.address.0 + second.words <= first.address.0
}
