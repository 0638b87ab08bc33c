// The answers of this crate's calls.
ghost use Rattle.outcome.specs.Outcome.{Answers};
ghost use Rattle.entry.specs.Answers.{open_case};

use geometry::Place;
use pieces::Sections;

// The address of an entry's data as stored: the EntryAddress of its first word where there is data,
// and anything, also a negative number, where there is none.
#[derive(Clone, Copy, Default)]
pub struct DataAddress(pub i64);

// Where the data stands, and how many words it has, as stored.
#[derive(Clone, Copy, Default)]
pub struct DataPlace {
    pub adata: DataAddress,
    pub ldata: u64,
}

// The case of an open: start, version, nsec, nword and the data's place, or the refusal. It is no Result, since its refusal is the
// number in the list, as every answer has it.
#[derive(Clone, Copy)]
pub enum Open {
    Numbers(Place, i32, u64, u64, DataPlace),
    Refused(u32),
}

// What a case says: 01's number, 0 for numbers, and 01's values, zeros for a refusal. C has no enum with values in it, so here
// the refusal is a number beside them.
#[derive(Clone, Copy, Default)]
pub struct OpenCase {
    pub refusal: u32,
    pub place: Place,
    pub version: i32,
    pub nsec: u64,
    pub nword: u64,
    pub array: DataPlace,
}

// The answer of `open_entry`: the case, and beside it the tables of the sections.
#[derive(Clone, Copy)]
pub struct Opened {
    pub answer: Open,
    pub sections: Sections,
}

// The number and the values of a case.
pub fn open_case(answer: Open) -> OpenCase
    ensures { Answers (open_case answer) result }
{
    match answer {
        Open::Numbers(place, version, nsec, nword, array) => OpenCase {
            refusal: 0,
            place,
            version,
            nsec,
            nword,
            array,
        },
        Open::Refused(refusal) => OpenCase {
            refusal,
            ..OpenCase::default()
        },
    }
}
