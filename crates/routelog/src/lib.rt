// The route log: 02, R-1. specs/Reading.antt says what the rest of a file reads as, specs/Writing.antt what is written, specs/File.antt what a whole
// file reads as. What an entry is, and which answers can be logged, is in `logentries`; what stands in a record in `recordlayout`.
#![tactic(auto)]

mod reader; // reader.rt: one entry from the rest of a file
mod writer; // writer.rt: one entry into a room

pub use floor::WrittenNumbers;
pub use reader::{fradnumber_read_entry, read_entry};
use recordlayout::RECORD_SIZE;
pub use writer::{fradnumber_write_entry, write_entry};

// An entry that was read: its route's length, how many bytes it took, and its two records.
#[derive(Clone, Copy)]
pub struct EntryRead {
    pub length: usize,
    pub taken: usize,
    pub question: [u8; RECORD_SIZE],
    pub answer: [u8; RECORD_SIZE],
}

// The reader's answer in numbers, for callers from C; those that a case does not have are 0: `entry_numbers` in specs/Calls.antt.
#[repr(C)]
#[derive(Clone, Copy)]
pub struct EntryNumbers {
    pub refusal: u64,
    pub place: u64,
    pub length: u64,
    pub taken: u64,
    pub question: [u8; RECORD_SIZE],
    pub answer: [u8; RECORD_SIZE],
}
