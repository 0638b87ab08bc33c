// The words of the first record, each by its number.
ghost use Rattle.std.specs.Prelude.{◌≤◌};
ghost use Rattle.outcome.specs.Outcome.{Answers};
ghost use Rattle.geometry.specs.Units.{index_of};
ghost use Rattle.layout.specs.FirstRecordWords.{aex_word, after_aex};

use geometry::{ExtensionNumber, WordNumber, table_index};

pub const CODE: WordNumber = WordNumber(1);

pub const RECLEN: WordNumber = WordNumber(2);

pub const KIND: WordNumber = WordNumber(3);

pub const VIND: WordNumber = WordNumber(4);

pub const LIND: WordNumber = WordNumber(5);

pub const FLAGS: WordNumber = WordNumber(6);

pub const XNEXT: WordNumber = WordNumber(7);

pub const NEXTREC: WordNumber = WordNumber(9);

pub const NEXTWORD: WordNumber = WordNumber(11);

pub const LEX1: WordNumber = WordNumber(12);

pub const NEX: WordNumber = WordNumber(13);

pub const GEX: WordNumber = WordNumber(14);

pub const AEX: WordNumber = WordNumber(15);

// The word where the address of an extension starts.
pub fn aex_word(extension: ExtensionNumber) -> WordNumber
    requires { (1 ≤ extension.0) × (extension.0 ≤ 16) }
    ensures { Answers (aex_word (index_of extension)) result }
{
    WordNumber(AEX.0 + 2 * (table_index(extension) as u64))
}

// The word after the addresses of so many extensions.
pub fn after_aex(nex: u64) -> WordNumber
    requires { nex ≤ 16 }
    ensures { Answers (after_aex nex) result }
{
    WordNumber(AEX.0 + 2 * nex)
}
