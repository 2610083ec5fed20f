// What stands in which byte of a record: 01, "The program", and 02, R-6. specs/Record.antt says it.
// A part of whatever reads or writes records and no entry: what its functions require, their callers prove.
#![tactic(auto)]

pub mod answers; // answers.rt: an answer as its record
pub mod fields; // fields.rt: numbers and zeros read from a record, and records read from a file of them

// 01: "Records have one fixed size"; 02, R-6: 32 bytes.
pub const RECORD_SIZE: usize = 32;
