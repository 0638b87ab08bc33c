// The record of an open file, and the answer that gives it.
use descriptor::DescriptorNumbers;
use geometry::RecordNumber;

// What a recorder keeps of an open file: its settings with the order, its counts and its next free
// place; the first record of each index area; and how many entries the extensions up to each hold
// together. C has these numbers in this order (include/classic.h). The library has no heap, so each table has a place for every
// extension that a file may have.
#[repr(C)]
#[derive(Clone, Copy, Default, PartialEq, Eq)]
pub struct OpenFile {
    pub numbers: DescriptorNumbers,
    pub addresses: [RecordNumber; 16],
    pub totals: [u64; 16],
}

// The answer of `open_file_of`: the refusal, 0 when the file is admitted, and its record. C has it as it stands, so the refusal is
// a number beside the record.
#[repr(C)]
#[derive(Clone, Copy)]
pub struct OpenFileAnswer {
    pub refusal: u32,
    pub file: OpenFile,
}
