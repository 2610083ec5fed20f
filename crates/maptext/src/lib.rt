// Map text: the reader and the writer of 01, "Map text". specs/Text.antt says what a map's text is, specs/Reading.antt what a text reads as.
#![tactic(auto)]

mod reader; // reader.rt: from a text to a map
mod writer; // writer.rt: from a map to a text

pub use floor::WrittenNumbers;
pub use reader::{fradnumber_judge_map, fradnumber_read_map, judge_map, read_map};
pub use writer::{fradnumber_write_map, write_map};

// The reader's answer in numbers, for callers from C: `read_numbers` in specs/Calls.antt.
#[repr(C)]
#[derive(Clone, Copy)]
pub struct ReadNumbers {
    pub refusal: u64,
    pub place: u64,
    pub width: u64,
    pub height: u64,
    pub ways: u64,
}
