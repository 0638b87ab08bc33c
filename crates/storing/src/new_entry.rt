// What is handed to an append.

// A new entry: its version, the application's index words, its sections by identifiers, lengths and bytes one after
// another, and its data.
#[derive(Clone, Copy)]
pub struct NewEntry<'a> {
    pub version: i32,
    pub index: &'a [u8],
    pub ids: &'a [i32],
    pub lengths: &'a [i64],
    pub sections: &'a [u8],
    pub values: &'a [u8],
}
