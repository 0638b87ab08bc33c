// Demand 3, promised by code.
//
// `append_twice` makes two appends of the caller's choice, and its contract is what the theorem of
// demand 3 concludes of the file before, the file after, what was handed in and what was answered. So
// that the theorem speaks of what the code does is itself proved. `append_and_update` does so with an
// append and an update of a section. `create_and_append` starts from a file that it creates: of that
// start the contract assumes nothing.
#![tactic(auto)]

ghost use Rattle.storing.specs.Handed.{handed};
ghost use Rattle.update.specs.Answers.{update_in};
ghost use Rattle.witness.specs.Begun.{CreatesAndAppends};
ghost use Rattle.witness.specs.Revised.{AppendsAndUpdates};
ghost use Rattle.witness.specs.Twice.{AllIntegers, AppendsTwice};

use descriptor::Settings;
use geometry::EntryNumber;
use update::update_section;
use writer::{Appended, append, create};

// What two appends answer.
#[derive(Clone, Copy)]
pub struct Twice {
    pub first: Appended,
    pub second: Appended,
}

// What an append and the update behind it answer: the append's answer, and the update's refusal.
#[derive(Clone, Copy)]
pub struct Revised {
    pub appended: Appended,
    pub updated: u32,
}

// What a creation and the append behind it answer: the creation's refusal, and the append's answer.
#[derive(Clone, Copy)]
pub struct Begun {
    pub created: u32,
    pub appended: Appended,
}

// Reads identifiers one by one, and so shows that each is an Integer*4.
fn read_identifiers(ids: &[i32])
    ensures { AllIntegers ids.now }
{
    for identifier in ids {
        let _identifier = *identifier;
    }
}

// Appends an entry, and then another.
pub fn append_twice(
    file: &mut [u8],
    version: i32,
    index: &[u8],
    ids: &[i32],
    lengths: &[i64],
    sections: &[u8],
    values: &[u8],
    next_version: i32,
    next_index: &[u8],
    next_ids: &[i32],
    next_lengths: &[i64],
    next_sections: &[u8],
    next_values: &[u8],
) -> Twice
    ensures { AppendsTwice file.old file.new (handed version index ids lengths sections values) (handed next_version next_index next_ids next_lengths next_sections next_values) result }
{
    read_identifiers(ids);
    read_identifiers(next_ids);
    let first = append(file, version, index, ids, lengths, sections, values);
    let second = append(
        file,
        next_version,
        next_index,
        next_ids,
        next_lengths,
        next_sections,
        next_values,
    );
    Twice { first, second }
}

// Appends an entry, and then rewrites a section: of the new entry or of any other.
pub fn append_and_update(
    file: &mut [u8],
    version: i32,
    index: &[u8],
    ids: &[i32],
    lengths: &[i64],
    sections: &[u8],
    values: &[u8],
    number: EntryNumber,
    identifier: i32,
    content: &[u8],
) -> Revised
    ensures { AppendsAndUpdates file.old file.new (handed version index ids lengths sections values) (update_in number identifier content.now) result }
{
    read_identifiers(ids);
    let appended = append(file, version, index, ids, lengths, sections, values);
    let updated = update_section(file, number, identifier, content);
    Revised { appended, updated }
}

// Creates a file, and appends an entry to it. After a refused creation nothing is appended: the answer
// is the refusal, and zeros.
pub fn create_and_append(
    file: &mut [u8],
    settings: Settings,
    version: i32,
    index: &[u8],
    ids: &[i32],
    lengths: &[i64],
    sections: &[u8],
    values: &[u8],
) -> Begun
    ensures { CreatesAndAppends file.old file.new settings (handed version index ids lengths sections values) result }
{
    read_identifiers(ids);
    let created = create(file, settings);
    if created != 0 {
        let appended = Appended {
            refusal: 0,
            number: EntryNumber(0),
        };
        return Begun { created, appended };
    }
    let appended = append(file, version, index, ids, lengths, sections, values);
    Begun { created, appended }
}
