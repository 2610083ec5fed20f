// The rows of a map text, read and written. specs/Chars.antt says what the character of a cell is, specs/Rows.antt what rows are.
// A part of the reader and the writer, and no entry: what its functions require, their callers prove.
#![tactic(auto)]

mod chars; // chars.rt: a cell and its character
pub mod rows; // rows.rt: from rows to cells, and back
