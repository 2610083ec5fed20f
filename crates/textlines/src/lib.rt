// The lines of a header of map text, read and written. specs/Line.antt says what the line of a side is.
// A part of the reader and the writer, and no entry: what its functions require, their callers prove.
#![tactic(auto)]

pub mod lines; // lines.rt: a word, a side in decimal, LF
