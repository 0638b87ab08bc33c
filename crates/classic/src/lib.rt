// The library as its callers have it: the calls for C (include/classic.h), which the crate `classic_c`
// exports, and the public calls and types of the crates below for Rattle products.
//
// Each `classic_` function makes one call of a crate below and promises that call's own definition. Where
// the answer is not laid out as C has it, it is put into a struct for C; specs/Answers.antt says which
// field is which. No call has a premise.
#![tactic(auto)]

mod answers;
mod appending;
mod checking;
mod creating;
mod opening;
mod parts;
mod recording;
mod sections;
mod tables;
mod updating;
mod validating;

pub use answers::{
    ClassicChecked, ClassicDescriptor, ClassicEntry, ClassicExtension, ClassicPart, ClassicSettings,
};
pub use appending::{classic_append, classic_append_batch};
pub use batch::{Batched, append_batch};
pub use checking::classic_check;
pub use creating::classic_create;
pub use descriptor::{
    DescriptorNumbers, Extension, Settings, Validated, ValidatedCase, Validation, extension_of,
    refusal_of, validate, validated_case,
};
pub use entry::{DataAddress, DataPlace, Open, OpenCase, Opened, open_case, open_entry};
pub use geometry::{EntryAddress, EntryNumber, ExtensionNumber, Place, RecordNumber, WordNumber};
pub use handing::{
    PartPlace, data_array, data_array_place, data_array_refusal, index_words, index_words_place,
    index_words_refusal, section, section_place, section_refusal,
};
pub use held::{OpenFile, OpenFileAnswer, open_file_of};
pub use opening::classic_open;
pub use order::{Checked, check_order};
pub use parts::{classic_data, classic_index_words, classic_section};
pub use pieces::Sections;
pub use recording::{
    classic_append_batch_to as append_batch_to, classic_append_to as append_to,
    classic_open_file_of, classic_update_to as update_to,
};
pub use through::{
    AppendedThrough, BatchedThrough, UpdatedThrough, append_batch_through, append_through,
    update_through,
};
pub use update::update_section;
pub use updating::classic_update;
pub use validating::{classic_extension_of, classic_validate};
pub use words::ByteOrder;
pub use writer::{Appended, append, create};
