// Why a call refuses: each refusal of the list by its name, which include/classic.h has too, and its number there.
ghost use Rattle.outcome.specs.Outcome.{Answers};
ghost use Rattle.outcome.specs.Refusal.{number_of, Refuses, row_refusal};

// A refusal, in the order of the numbers.
#[derive(Clone, Copy, Debug, PartialEq, Eq)]
pub enum Refusal {
    LentShort = 1,
    FileCode = 2,
    Reclen = 3,
    LentLength = 4,
    Kind = 5,
    IndexForm = 6,
    Flags = 7,
    Growth = 8,
    EntryCount = 9,
    NextFree = 10,
    IndexArea = 11,
    Number = 12,
    EntryPlace = 13,
    EntryCode = 14,
    EntryLength = 15,
    EntryXnum = 16,
    DataPlace = 17,
    SectionPlace = 18,
    SharedWord = 19,
    NoSection = 20,
    AppendIndex = 21,
    AppendParts = 22,
    AppendGrowth = 23,
    AppendRoom = 24,
    Order = 25,
    BatchCounts = 26,
    OpenFile = 27,
    UpdateContent = 28,
    Leftovers = 29,
}

impl Refusal {
    // Its number in the list.
    pub fn number(self) -> u32
        ensures { Answers (number_of self) result }
    {
        self as u32
    }

    // The row of a table of rules that gives this refusal: it passes where the rule holds.
    pub fn unless(self, holds: bool) -> Result<(), Refusal>
        ensures { Refuses (row_refusal (number_of self) holds) result }
    {
        if holds { Ok(()) } else { Err(self) }
    }
}
