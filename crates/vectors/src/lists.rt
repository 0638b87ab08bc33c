// The lists behind the numbers of an append, a batch or an update.
use super::printing::{Out, wrong};
use super::reading::{Label, Reader, at_most, int4s, padded};
use arrayvec::ArrayVec;
use std::io;

// The most numbers that a list of identifiers, lengths or versions has.
pub(crate) const MOST: usize = 65;

// The most words that are listed, and their bytes.
const WORDS: usize = 66;

const WORD_BYTES: usize = 4 * WORDS;

// The most bytes of an index, of sections, of data or of a new content that are handed in.
pub(crate) const PART: usize = 272;

// What a line lists for an append or a batch: identifiers, lengths, and the bytes of the index, the sections and the data one
// after another, then zeros.
#[derive(Drop)]
pub(crate) struct Lists {
    ids: ArrayVec<i32, MOST>,
    lengths: ArrayVec<i64, MOST>,
    bytes: [u8; 3 * PART],
}

// What is handed to an append or a batch: identifiers, lengths, and the bytes of the index, the sections and the data.
#[derive(Clone, Copy)]
pub(crate) struct Handed<'a> {
    pub(crate) ids: &'a [i32],
    pub(crate) lengths: &'a [i64],
    pub(crate) index: &'a [u8],
    pub(crate) sections: &'a [u8],
    pub(crate) values: &'a [u8],
}

// Reads the words listed, with which a line ends, as bytes, the least significant first; zeros stand behind them.
#[inline(never)]
pub(crate) fn listed_bytes<const COUNT: usize>(
    out: Out,
    mut lists: Reader,
) -> io::Result<[u8; COUNT]> {
    let words = int4s(out, &lists.list::<WORDS>(Label::Words))?;
    let mut bytes = ArrayVec::<u8, WORD_BYTES>::new();
    for word in words.as_slice() {
        if bytes.try_extend_from_slice(&word.to_le_bytes()).is_err() {
            break;
        }
    }
    if !lists.rest.is_empty() {
        wrong(out)?;
    }
    Ok(padded(bytes.as_slice()))
}

impl Lists {
    // Reads identifiers, lengths and words, each behind its label.
    #[inline(never)]
    pub(crate) fn read(out: Out, mut lists: Reader) -> io::Result<Lists> {
        let ids = int4s(out, &lists.list(Label::Ids))?;
        let lengths = lists.list(Label::Lengths);
        let bytes = listed_bytes(out, lists)?;
        Ok(Lists {
            ids,
            lengths,
            bytes,
        })
    }

    // What is handed in, with so many bytes of index, of sections and of data.
    pub(crate) fn handed(&self, out: Out, counts: [i64; 3]) -> io::Result<Handed<'_>> {
        let [index, sections, values] = counts;
        let (index, rest) = self.bytes.split_at(at_most(out, PART, index)?);
        let (sections, rest) = rest.split_at(at_most(out, PART, sections)?);
        let (values, _) = rest.split_at(at_most(out, PART, values)?);
        Ok(Handed {
            ids: self.ids.as_slice(),
            lengths: self.lengths.as_slice(),
            index,
            sections,
            values,
        })
    }
}
