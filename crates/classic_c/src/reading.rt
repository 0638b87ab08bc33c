// The calls that read a file: its descriptor and extensions, an entry and its parts, and the order check.
ghost use Rattle.outcome.specs.Outcome.{Answers};
ghost use Rattle.descriptor.specs.Answers.{validation_of, extension_of};
ghost use Rattle.entry.specs.Answers.{open_of};
ghost use Rattle.handing.specs.Parts.{index_words_of, section_words_of, data_words_of};
ghost use Rattle.order.specs.Order.{check_of};
ghost use Rattle.classic.specs.Answers.{descriptor_for, extension_for, entry_for, part_for, checked_for};

use classic::{ClassicChecked, ClassicDescriptor, ClassicEntry, ClassicExtension, ClassicPart};

// The file's descriptor, or the refusal.
#[unsafe(no_mangle)]
pub extern "C" fn classic_validate(file: &[u8]) -> ClassicDescriptor
    ensures { Answers (descriptor_for (validation_of file.now)) result }
{
    classic::classic_validate(file)
}

// An extension by its number, or the refusal.
#[unsafe(no_mangle)]
pub extern "C" fn classic_extension_of(file: &[u8], number: u64) -> ClassicExtension
    ensures { Answers (extension_for (extension_of file.now (record { 0 = number }))) result }
{
    classic::classic_extension_of(file, number)
}

// An entry by its number, or the refusal.
#[unsafe(no_mangle)]
pub extern "C" fn classic_open(file: &[u8], entry: u64) -> ClassicEntry
    ensures { Answers (entry_for (open_of file.now (record { 0 = entry }))) result }
{
    classic::classic_open(file, entry)
}

// The application's words of an entry's index, or the refusal.
#[unsafe(no_mangle)]
pub extern "C" fn classic_index_words(file: &[u8], entry: u64) -> ClassicPart
    ensures { Answers (part_for (index_words_of file.now (record { 0 = entry }))) result }
{
    classic::classic_index_words(file, entry)
}

// The first section of an entry that has the identifier, or the refusal.
#[unsafe(no_mangle)]
pub extern "C" fn classic_section(file: &[u8], entry: u64, identifier: i32) -> ClassicPart
    ensures { Answers (part_for (section_words_of file.now (record { 0 = entry }) identifier)) result }
{
    classic::classic_section(file, entry, identifier)
}

// The data of an entry, or the refusal.
#[unsafe(no_mangle)]
pub extern "C" fn classic_data(file: &[u8], entry: u64) -> ClassicPart
    ensures { Answers (part_for (data_words_of file.now (record { 0 = entry }))) result }
{
    classic::classic_data(file, entry)
}

// The first entry that fails and its refusal, or zeros.
#[unsafe(no_mangle)]
pub extern "C" fn classic_check(file: &[u8]) -> ClassicChecked
    ensures { Answers (checked_for (check_of file.now)) result }
{
    classic::classic_check(file)
}
