// What the program does between its input and its output: 01, "The program". specs/Desk.antt says how records are answered, specs/Turn.antt what
// happens to those that arrive in pieces. What stands in a record is in `recordlayout`, which maps can be used in `mapuse`.
#![tactic(auto)]

mod records; // records.rt: questions answered in place
mod turns; // turns.rt: questions that arrive in pieces

pub use records::answer_records;
pub use turns::{answer_arrived, keep_tail};
