// The file descriptor: the first record, its rules, and the extensions that it speaks of.
//
// A file is a lent slice of bytes, of any content and any length. `validate` gives the descriptor's
// numbers or the number of the first rule that the file breaks (1 to 11, then 29); it reads the first
// record alone. The functions of `inner` are for the crates above: `admit` validates as `validate` does
// and leaves the totals of the extensions in use, and the others are for what it admitted.
#![tactic(auto)]

mod extensions;
pub mod inner;
mod numbers;
mod rules;
mod validating;
mod walking;

pub use extensions::{Extension, extension_of};
pub use numbers::{DescriptorNumbers, Settings};
pub use rules::setting_refusal;
pub use validating::{
    Validated, ValidatedCase, Validation, no_numbers, refusal_of, validate, validated_case,
};
