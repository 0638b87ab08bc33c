// Appending a whole batch of entries in one call.
//
// The rules of the batch itself are tested before anything is written. Then the file is validated once,
// and each append works from the numbers that the one before it left in the file. Its entries are taken
// where they lie in the lent arrays: nothing is copied but into the file. The functions of `inner`
// are for the crates above, which have validated before they call.
#![tactic(auto)]

mod answers;
mod batching;
mod counts;
pub mod inner;
mod new_entries;
mod rules;

pub use answers::Batched;
pub use batching::append_batch;
pub use new_entries::{Columns, NewEntries};
pub use rules::batch_refusal;
