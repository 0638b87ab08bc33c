// Which word holds what: the words of the first record and of an entry descriptor, as the memo's
// Tables 1 and 4 have them, and the codes, of which a file's says the order of its integers' bytes.
//
// Reader and writer name a word by these, so that each stands once. The functions are for tables
// that have been found to be short and files that have a first word, which they require.
#![tactic(auto)]

pub mod entry_descriptor;
pub mod file_code;
pub mod first_record;
